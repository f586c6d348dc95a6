//! Tests of the parts that work without files: texts and their grammar, texts by a layout, what is watched, the assembler, the
//! processor and what it works on, events and devices.
#![tactic(auto)]

#[cfg(test)]
mod assembler;
#[cfg(test)]
mod checked;
#[cfg(test)]
mod devices;
#[cfg(test)]
mod grammar;
#[cfg(test)]
mod layouts;
#[cfg(test)]
mod processor;
#[cfg(test)]
mod texts;
#[cfg(test)]
mod units;
#[cfg(test)]
mod watched;

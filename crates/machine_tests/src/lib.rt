//! Tests of the machine.
#![tactic(auto)]

#[cfg(test)]
mod acts;
#[cfg(test)]
mod bursts;
#[cfg(test)]
mod chance;
#[cfg(test)]
mod consoles;
#[cfg(test)]
mod lines;
#[cfg(test)]
mod looks;
#[cfg(test)]
mod machines;
#[cfg(test)]
mod names;
#[cfg(test)]
mod paper;
#[cfg(test)]
mod places;
#[cfg(test)]
mod play;
#[cfg(test)]
mod registers;
#[cfg(test)]
mod row;
#[cfg(test)]
mod runs;
#[cfg(test)]
mod settings;
#[cfg(test)]
mod stands;
#[cfg(test)]
mod tapes;
#[cfg(test)]
mod teletypes;
#[cfg(test)]
mod turns;
#[cfg(test)]
mod watched;
#[cfg(test)]
mod watches;

//! Tests of the commands.
#![tactic(auto)]

#[cfg(test)]
mod answers;
#[cfg(test)]
mod checked;
#[cfg(test)]
mod consoles;
#[cfg(test)]
mod failed_calls;
#[cfg(test)]
mod lists;
#[cfg(test)]
mod media;
#[cfg(test)]
mod ports;
#[cfg(test)]
mod rows;
#[cfg(test)]
mod scripts;
#[cfg(test)]
mod sessions;
#[cfg(test)]
mod state_calls;
#[cfg(test)]
mod states;
#[cfg(test)]
mod tables;
#[cfg(test)]
mod units;

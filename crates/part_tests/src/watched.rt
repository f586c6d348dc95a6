// The tables that are watched in runs, and keys files.
mod actions;
mod breaks;
mod expects;
mod keys;
mod sends;
mod texts;
mod watch;

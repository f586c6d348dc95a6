// Terminal lines over Telnet, and the lines in memory that they are polled on.
mod calls;
mod cutting;
mod output;
mod polls;
mod rows;
mod streams;
mod texts;

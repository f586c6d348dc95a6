// State files.
mod attaching;
mod ends;
mod faults;
mod pieces;
mod restored;
mod same;
mod session;
mod texts;
mod whole;

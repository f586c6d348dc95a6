// The devices: the clock, the teletype, the paper tape and the printer, the disk, the magnetic tape and the multiplexer.
mod boxes;
mod clock;
mod disk;
mod paper_units;
mod qty;
mod rows;
mod tape;
mod teletype;
mod words;

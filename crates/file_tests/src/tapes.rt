// Tape images.
mod lists;
mod reading;
mod spacing;
mod test_tape;
mod texts;
mod writing;

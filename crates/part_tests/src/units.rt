// What a device is, the events that wait and a list of units.
mod checked;
mod events;
mod mixed_events;
mod plain_events;
mod processor;
mod registers;
mod units;

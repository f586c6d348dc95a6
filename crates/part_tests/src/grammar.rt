// The grammar of command lines.
mod attachments;
mod faults;
mod lines;
mod lists;
mod media;
mod reading;
mod scripts;
mod seen;
mod settings;
mod watches;
mod words;

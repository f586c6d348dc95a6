// The assembler.
mod sizes;
mod sources;

// Words, memory, arithmetic, the processor, interrupts and loader tapes.
mod addressing;
mod bursts;
mod calls;
mod dumps;
mod instructions;
mod interrupts;
mod loader;
mod memory;
mod multiply_divide;
mod numbers;
mod rows;
mod tables;
mod words;

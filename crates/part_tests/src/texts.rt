// Quoted texts, lines that are put together, words of a line, scripts, and symbolic texts of words.
mod arguments;
mod filling;
mod labels;
mod lines;
mod put_together;
mod quoted;
mod symbols;
mod words;

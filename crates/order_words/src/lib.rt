// Order words: the words of a line of text, and the numbers that words are. The rules stand in specs/: Words and Number.
#![tactic(auto)]

pub mod number;
pub mod words;

// What programs share: standard input, room for it, the words of a case, the words of an answer, and what is told where reading or writing fails.
#![tactic(auto)]

pub mod input;
pub mod lines;
pub mod room;
pub mod say;
pub mod streams;
pub mod tell;
pub mod words;

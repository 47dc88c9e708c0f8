// The program `weights` whole: what a reader gives in lines, an answer a line to a writer.
#![tactic(auto)]

mod lines;
mod stream;

pub use stream::{answer_all, run};

// One line of the program `weights`: which lines are taken, and what is answered.
//
// specs/Rules has both, in the words of the rules.
#![tactic(auto)]

mod figures;
mod line;

pub use figures::{Figures, answer_to};
pub use line::{Counts, parse};

// The store: seven lent parts, of fixed lengths, with a meaning for every cell (docs/STORE.md). Here are the limits by name,
// the check for StoreBad, and the single changes that the calls are made of.
#![tactic(auto)]

pub mod limits;
mod parts;
mod sound;
mod updates;
mod views;

pub use parts::{Parts, View};
pub use sound::Counts;
pub use updates::empty_head;

// Reading and writing text in lent buffers: decimal numbers, the place of a byte, a part moved to the
// front, and texts put one after the other.
//
// Every function answers on every input: none has a `requires`. What each gives is one equation with a
// definition on lists in specs/: Numeral (which strings are numbers, and which number), Pieces (a text
// cut at a byte), Put (a text put into a buffer).
#![tactic(auto)]

mod number;
mod place;
mod put;

pub use number::read_number;
pub use place::{keep, place_of};
pub use put::Page;

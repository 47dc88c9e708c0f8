// Naming and room: where a call's ids are, and the new ones among them named in argument order.
#![tactic(auto)]

mod called;
mod lookup;
mod name;

pub use called::Called;
pub use lookup::{Located, locate, number_of};
pub use name::name_all;

// The store's first calls: emptying, the plain insert, the genesis insert, and the reads. Each call checks all before it changes anything,
// a refusal for an unheld parent aside: the names and the entries of the parents before it stay. The reads change nothing.
#![tactic(auto)]

pub mod answers;
mod emptying;
mod enter;
mod judge;
mod plain;
mod reads;
mod record_names;
mod roots;
mod transaction;

pub use emptying::empty;
pub use plain::insert;
pub use reads::{contains, has_nullifier, is_empty, length};
pub use roots::genesis;
pub use transaction::Transaction;

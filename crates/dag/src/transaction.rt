// What an insert stores.
ghost use Rattle.std.specs.Prelude.{◌≡◌};

use ident::Nullifier;
use naming::Called;

// A record as a caller lends it: its id, its nullifier, and the ids of its parents. How the id is made is not checked.
#[derive(Clone, Copy)]
pub struct Transaction<'a> {
    pub id: &'a [u8; 32],
    pub nullifier: Nullifier,
    pub parents: &'a [[u8; 32]],
}

impl<'a> Transaction<'a> {
    // The ids that are named where it is stored: its own, and then its parents'.
    pub(crate) fn ids(&self) -> Called<'a>
        ensures { result ≡ record { id = self.now.id; others = self.now.parents } }
    {
        Called {
            id: self.id,
            others: self.parents,
        }
    }
}

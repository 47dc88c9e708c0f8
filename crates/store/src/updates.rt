// The single changes that a call is made of.
ghost use Rattle.std.specs.Prelude.{◌≡◌, List, ℕ, ◌≤◌, ◌<◌, length, get_or};
ghost use Rattle.store.specs.Limits.{name_limit, parent_limit, child_limit, null_limit, keys_length, rests_length};
ghost use Rattle.store.specs.Tables.{store, entries, spent, with_child, with_null, with_record, unmarked, emptied};
ghost use Rattle.store.specs.Parts.{store_in, SameSlices};

use crate::limits::*;
use crate::parts::Parts;

impl Parts<'_> {
    // One more child of name p: c.
    pub fn add_child(&mut self, p: usize, c: u16)
        requires { (entries (store_in self.old) < child_limit) × (p < name_limit) }
        ensures left { store_in self.new ≡ with_child (store_in self.old) p c }
        ensures same { SameSlices self.old self.new }
    {
        let e = self.view().entries();
        let last = self.view().last_entry(p);
        cells::put(self.nodes, CHILDREN_AT + e as usize, c);
        cells::put(self.links, PREVIOUS_AT + e as usize, last);
        cells::put(self.links, LASTS_AT + p, e + 1);
        cells::put(self.head, ENTRIES, e + 1);
    }

    // One more nullifier.
    pub fn keep_null(&mut self, z: &[u8; 32])
        requires { (spent (store_in self.old) < null_limit) × ((length self.old.keys.now ≡ keys_length) × (length self.old.rests.now ≡ rests_length)) }
        ensures left { store_in self.new ≡ with_null (store_in self.old) z.now }
        ensures same { SameSlices self.old self.new }
    {
        let e = self.view().spent();
        cells::put_id(self.keys, self.rests, NULLS_AT + e as usize, z);
        cells::put(self.head, SPENT, e + 1);
    }

    // The record of name n: the nullifier at a place, and its parents by name.
    pub fn keep_record(&mut self, n: usize, place: usize, parents: &[u16])
        requires { (n < name_limit) × ((place < null_limit) × (length parents.now ≤ parent_limit)) }
        ensures left { store_in self.new ≡ with_record (store_in self.old) n place (λ j. get_or parents.now j 0) (length parents.now) }
        ensures same { SameSlices self.old self.new }
    {
        cells::put_row(self.nodes, PARENTS_AT + n * PARENT_LIMIT, parents);
        cells::put(self.nodes, COUNTS_AT + n, parents.len() as u16);
        cells::put(self.links, PLACES_AT + n, place as u32 + 1);
    }

    // The mark cleared.
    pub fn unmark(&mut self)
        ensures left { store_in self.new ≡ unmarked (store_in self.old) }
        ensures same { SameSlices self.old self.new }
    {
        cells::put(self.head, MARK, 0);
    }
}

// All counts 0, and the mark set. It asks for the head alone, since the other parts may be shared meanwhile.
pub fn empty_head(head: &mut [u32])
    ensures { (k r n l o s : List ℕ) → store head.new k r n l o s ≡ emptied (store head.old k r n l o s) }
{
    cells::put_row(head, 0, &[0u32; MARK]);
    cells::put(head, MARK, 1);
}

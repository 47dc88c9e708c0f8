// What single cells mean: the views of the store that the calls read. One function a view, by its name in specs/Tables: a number of a cell as an
// argument would say less. Names are plain numbers, and that one is below its limit is asked here and in the updates: a type that says so would ask
// more of whoever calls.
ghost use Rattle.std.specs.Prelude.{◌≡◌, ◌<◌};
ghost use Rattle.store.specs.Limits.{name_limit};
ghost use Rattle.store.specs.Tables.{names, entries, spent, held, last_entry};
ghost use Rattle.store.specs.Parts.{store_seen};

use crate::limits::*;
use crate::parts::View;

impl View<'_> {
    // How many ids are named.
    pub fn names(&self) -> u32
        ensures { result ≡ names (store_seen self.now) }
    {
        cells::at(self.head, NAMES)
    }

    // How many child entries there are.
    pub(crate) fn entries(&self) -> u32
        ensures { result ≡ entries (store_seen self.now) }
    {
        cells::at(self.head, ENTRIES)
    }

    // How many nullifiers there are.
    pub fn spent(&self) -> u32
        ensures { result ≡ spent (store_seen self.now) }
    {
        cells::at(self.head, SPENT)
    }

    // Whether name n has a record.
    pub fn is_held(&self, n: usize) -> bool
        requires { n < name_limit }
        ensures { result ≡ held (store_seen self.now) n }
    {
        0 < cells::at(self.links, PLACES_AT + n)
    }

    // The last child entry of name n, and 1 more; 0 where it has none.
    pub(crate) fn last_entry(&self, n: usize) -> u32
        requires { n < name_limit }
        ensures { result ≡ last_entry (store_seen self.now) n }
    {
        cells::at(self.links, LASTS_AT + n)
    }
}

// Where a call's ids are. Each id is looked up once; the rest of a call reads the numbers.
ghost use Rattle.std.specs.Prelude.{◌≡◌, Some, ℕ, ◌+◌, ◌^◌, ◌≤◌, ◌<◌};
ghost use Rattle.cells.specs.Cells.{same_id, first_where};
ghost use Rattle.store.specs.Tables.{names, number_of};
ghost use Rattle.store.specs.Parts.{store_seen};
ghost use Rattle.naming.specs.Naming.{call_limit, NamesRight};
ghost use Rattle.naming.specs.Calls.{ids, id_count};
ghost use Rattle.naming.specs.Located.{Locates, nowhere, with_spot, spot_of};

use crate::called::Called;
use store::View;
use store::limits::*;

// How many ids a call has at most: the first, and a full list.
pub const CALL_LIMIT: usize = PARENT_LIMIT + 1;

// The number of each of a call's ids once all are named, which of them are new, and how many those are. Place 0 is the
// call's first id, place 1 + i the i-th of its list. The numbers stand by themselves, since a record takes its parents' as a slice.
#[derive(Clone, Copy, Debug, PartialEq, Eq)]
pub struct Located {
    pub numbers: [u16; CALL_LIMIT],
    pub new: [bool; CALL_LIMIT],
    pub fresh: usize,
}

// The same of one id.
#[derive(Clone, Copy, Debug, PartialEq, Eq)]
struct Spot {
    number: u16,
    new: bool,
}

impl Located {
    fn nowhere() -> Located
        ensures { result ≡ nowhere }
    {
        Located {
            numbers: [0u16; CALL_LIMIT],
            new: [false; CALL_LIMIT],
            fresh: 0,
        }
    }

    // One more id, at a place.
    fn with(self, place: usize, spot: Spot) -> Located
        requires { (place < call_limit) × (self.fresh < call_limit) }
        ensures { result ≡ with_spot self place spot }
    {
        let mut numbers = self.numbers;
        let mut new = self.new;
        numbers[place] = spot.number;
        new[place] = spot.new;
        Located {
            numbers,
            new,
            fresh: self.fresh + usize::from(spot.new),
        }
    }
}

// The lowest earlier place of the call that has the id at place i.
fn earlier(call: &Called, i: usize) -> Option<usize>
    requires { i < id_count call.now }
    ensures { result ≡ first_where (λ j. same_id (ids call.now j) (ids call.now i)) 0 i }
{
    for j in 0..i {
        if cells::same_id(call.get(j), call.get(i)) {
            return Some(j);
        }
    }
    None
}

// Where one id is: at the number of its earlier place, or of its name, or at the next free one.
fn locate_one(view: &View, x: &[u8; 32], place: Option<usize>, at: Located) -> Spot
    requires { (NamesRight (store_seen view.now) × (names (store_seen view.now) + at.fresh < 2 ^ 16)) × ((j : ℕ) → place ≡ Some j → j < call_limit) }
    ensures { result ≡ spot_of at (names (store_seen view.now) + at.fresh) place (number_of (store_seen view.now) x.now) }
{
    match place {
        Some(j) => Spot {
            number: at.numbers[j],
            new: false,
        },
        None => match number_of(view, x) {
            Some(n) => Spot {
                number: n as u16,
                new: false,
            },
            None => Spot {
                number: (view.names() as usize + at.fresh) as u16,
                new: true,
            },
        },
    }
}

// The number of the id x: of equal names the lowest counts.
pub fn number_of(view: &View, x: &[u8; 32]) -> Option<usize>
    requires { NamesRight (store_seen view.now) }
    ensures { result ≡ number_of (store_seen view.now) x.now }
{
    cells::find_id(view.keys, view.rests, NAMES_AT, view.names() as usize, x)
}

// Where the ids of a call are: each is compared with the ids before it, and then searched for among the names.
pub fn locate(view: &View, call: &Called) -> Located
    requires { NamesRight (store_seen view.now) × (id_count call.now ≤ call_limit) }
    ensures { Locates (store_seen view.now) (ids call.now) (id_count call.now) result }
{
    let mut at = Located::nowhere();
    for i in 0..call.count() {
        at = at.with(i, locate_one(view, call.get(i), earlier(call, i), at));
    }
    at
}

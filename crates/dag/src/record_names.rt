// The names that an insert writes.
ghost use Rattle.std.specs.Prelude.{◌≡◌, ◌≤◌, get_or, take, drop};
ghost use Rattle.store.specs.Limits.{parent_limit};

use naming::Located;

// A record's own name, and those of its parents in the call's order.
#[derive(Clone, Copy)]
pub struct RecordNames<'a> {
    pub child: u16,
    pub parents: &'a [u16],
}

impl<'a> RecordNames<'a> {
    // Of a call with count parents: the located numbers have the record's own first, and then its parents'.
    pub fn of(at: &'a Located, count: usize) -> RecordNames<'a>
        requires { count ≤ parent_limit }
        ensures child { result.child ≡ get_or at.now.numbers 0 0 }
        ensures parents { result.parents.now ≡ take count (drop 1 at.now.numbers) }
    {
        RecordNames {
            child: at.numbers[0],
            parents: &at.numbers[1..=count],
        }
    }
}

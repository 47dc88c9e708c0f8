// The checks of the inserts, in the order in which their refusals are numbered. They read only.
ghost use Rattle.std.specs.Prelude.{◌≡◌, ◌≤◌, length};
ghost use Rattle.store.specs.Limits.{parent_limit};
ghost use Rattle.store.specs.Tables.{place_of, is_spent};
ghost use Rattle.store.specs.Facts.{Sound};
ghost use Rattle.store.specs.Parts.{store_seen};
ghost use Rattle.dag.specs.Rules.{room_verdict, insert_verdict, places_wanted, genesis_verdict};
ghost use Rattle.dag.specs.Judging.{Judges};
ghost use Rattle.dag.specs.Begun.{NullsRight};

use crate::answers::DagRefusal;
use crate::transaction::Transaction;
use naming::Located;
use store::View;
use store::limits::*;

// The fewest and the most parents of a plain insert.
pub const FEWEST_PARENTS: usize = 2;

pub const MOST_PARENTS: usize = 8;

// The place of a nullifier.
pub fn place_of(view: &View, z: &[u8; 32]) -> Option<usize>
    requires { NullsRight (store_seen view.now) }
    ensures { result ≡ place_of (store_seen view.now) z.now }
{
    cells::find_id(view.keys, view.rests, NULLS_AT, view.spent() as usize, z)
}

pub fn is_spent(view: &View, z: &[u8; 32]) -> bool
    requires { NullsRight (store_seen view.now) }
    ensures { result ≡ is_spent (store_seen view.now) z.now }
{
    place_of(view, z).is_some()
}

// How many places a genesis insert needs for its nullifier.
fn places_wanted(view: &View, z: &[u8; 32]) -> usize
    requires { NullsRight (store_seen view.now) }
    ensures { result ≡ places_wanted (place_of (store_seen view.now) z.now) }
{
    usize::from(place_of(view, z).is_none())
}

// Checks 7, 8 and 9: room for names, child entries and nullifiers. The call's ids are located on the way.
fn judge_room(view: &View, tx: &Transaction, places: usize) -> Result<Located, DagRefusal>
    requires { Sound (store_seen view.now) × (length tx.now.parents.now ≤ parent_limit) }
    ensures { Judges (store_seen view.now) tx.now.id.now tx.now.parents.now (room_verdict (store_seen view.now) tx.now.id.now tx.now.parents.now places) result }
{
    let at = naming::locate(view, &tx.ids());
    let used = view.counts();
    if NAME_LIMIT - used.names < at.fresh {
        return Err(DagRefusal::NameRoom);
    }
    if CHILD_LIMIT - used.entries < tx.parents.len() {
        return Err(DagRefusal::ChildRoom);
    }
    if NULL_LIMIT - used.spent < places {
        return Err(DagRefusal::NullifierRoom);
    }
    Ok(at)
}

// Refusals 1, 2, 3, 4, 5, 7, 8 and 9 of the plain insert; else where the call's ids are.
pub fn judge_insert(view: &View, tx: &Transaction) -> Result<Located, DagRefusal>
    ensures { Judges (store_seen view.now) tx.now.id.now tx.now.parents.now (insert_verdict (store_seen view.now) tx.now.id.now tx.now.nullifier.0 tx.now.parents.now) result }
{
    if !view.is_sound() {
        return Err(DagRefusal::StoreBad);
    }
    let count = tx.parents.len();
    if PARENT_LIMIT < count {
        return Err(DagRefusal::ListTooLong);
    }
    if is_spent(view, &tx.nullifier.0) {
        return Err(DagRefusal::DuplicateNullifier);
    }
    if MOST_PARENTS < count {
        return Err(DagRefusal::TooManyParents {
            count,
            limit: MOST_PARENTS,
        });
    }
    if count < FEWEST_PARENTS {
        return Err(DagRefusal::TooFewParents {
            count,
            limit: FEWEST_PARENTS,
        });
    }
    judge_room(view, tx, 1)
}

// Refusals 1, 2, 7, 8 and 9 of the genesis insert; else where the call's ids are.
pub fn judge_genesis(view: &View, tx: &Transaction) -> Result<Located, DagRefusal>
    ensures { Judges (store_seen view.now) tx.now.id.now tx.now.parents.now (genesis_verdict (store_seen view.now) tx.now.id.now tx.now.nullifier.0 tx.now.parents.now) result }
{
    if !view.is_sound() {
        return Err(DagRefusal::StoreBad);
    }
    if PARENT_LIMIT < tx.parents.len() {
        return Err(DagRefusal::ListTooLong);
    }
    let places = places_wanted(view, &tx.nullifier.0);
    judge_room(view, tx, places)
}

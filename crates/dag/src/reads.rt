// What a store holds. A bad store is refused, and every other is served.
ghost use Rattle.std.specs.Prelude.{◌≡◌, ◌≤◌};
ghost use Rattle.store.specs.Limits.{name_limit};
ghost use Rattle.store.specs.Tables.{names};
ghost use Rattle.store.specs.Parts.{store_seen};
ghost use Rattle.dag.specs.Reads.{contains_of, has_nullifier_of, records, length_of, is_empty_of};

use crate::answers::DagRefusal;
use crate::judge::is_spent;
use ident::Nullifier;
use store::View;

// Whether the store holds a record of an id. An id that is only named, as a missing parent is, has none.
pub fn contains(view: &View, id: &[u8; 32]) -> Result<bool, DagRefusal>
    ensures { result ≡ contains_of (store_seen view.now) id.now }
{
    if !view.is_sound() {
        return Err(DagRefusal::StoreBad);
    }
    match naming::number_of(view, id) {
        Some(name) => Ok(view.is_held(name)),
        None => Ok(false),
    }
}

// Whether a nullifier is kept.
pub fn has_nullifier(view: &View, nullifier: Nullifier) -> Result<bool, DagRefusal>
    ensures { result ≡ has_nullifier_of (store_seen view.now) nullifier.0 }
{
    if !view.is_sound() {
        return Err(DagRefusal::StoreBad);
    }
    Ok(is_spent(view, &nullifier.0))
}

// How many names have a record.
fn records(view: &View) -> usize
    requires { names (store_seen view.now) ≤ name_limit }
    ensures { result ≡ records (store_seen view.now) }
{
    let mut count = 0;
    for name in 0..view.names() as usize {
        count += usize::from(view.is_held(name));
    }
    count
}

// How many records are held.
pub fn length(view: &View) -> Result<usize, DagRefusal>
    ensures { result ≡ length_of (store_seen view.now) }
{
    if !view.is_sound() {
        return Err(DagRefusal::StoreBad);
    }
    Ok(records(view))
}

// Whether no record is held.
pub fn is_empty(view: &View) -> Result<bool, DagRefusal>
    ensures { result ≡ is_empty_of (store_seen view.now) }
{
    Ok(length(view)? == 0)
}

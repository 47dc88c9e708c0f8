// The plain insert.
ghost use Rattle.std.specs.Prelude.{◌≡◌};
ghost use Rattle.store.specs.Parts.{store_in, SameSlices};
ghost use Rattle.dag.specs.Judging.{Room};
ghost use Rattle.dag.specs.Begun.{LocatedFor};
ghost use Rattle.dag.specs.Rules.{left, insert_tried, insert_of};

use crate::answers::DagRefusal;
use crate::enter::{begin, enter, keep_new};
use crate::judge::judge_insert;
use crate::record_names::RecordNames;
use crate::transaction::Transaction;
use naming::Located;
use store::Parts;

// All that is left once the checks are passed: names, entries, and where every parent is held the nullifier and the record.
fn apply_insert(parts: &mut Parts, tx: &Transaction, at: Located) -> Result<(), DagRefusal>
    requires { Room (store_in parts.old) tx.now.id.now tx.now.parents.now 1 × LocatedFor (store_in parts.old) tx.now at }
    ensures left { left result (store_in parts.new) ≡ insert_tried (store_in parts.old) tx.now.id.now tx.now.nullifier.0 tx.now.parents.now }
    ensures same { SameSlices parts.old parts.new }
{
    begin(parts, tx, at);
    let names = RecordNames::of(&at, tx.parents.len());
    enter(parts, &names).map_err(DagRefusal::MissingParent)?;
    keep_new(parts, &tx.nullifier.0, &names);
    Ok(())
}

// A record with 2 to 8 parents, all of them held. A parent that is not held refuses; the names and the entries of the
// parents before it stay.
pub fn insert(parts: &mut Parts, tx: &Transaction) -> Result<(), DagRefusal>
    ensures left { left result (store_in parts.new) ≡ insert_of (store_in parts.old) tx.now.id.now tx.now.nullifier.0 tx.now.parents.now }
    ensures same { SameSlices parts.old parts.new }
{
    let at = judge_insert(&parts.view(), tx)?;
    apply_insert(parts, tx, at)
}

// The genesis insert.
ghost use Rattle.std.specs.Prelude.{◌≡◌};
ghost use Rattle.store.specs.Tables.{place_of};
ghost use Rattle.store.specs.Parts.{store_in, SameSlices};
ghost use Rattle.dag.specs.Judging.{Room};
ghost use Rattle.dag.specs.Begun.{LocatedFor};
ghost use Rattle.dag.specs.Rules.{left, places_wanted, genesis_done, genesis_of};

use crate::answers::DagRefusal;
use crate::enter::{begin, enter_held, keep_new};
use crate::judge::{judge_genesis, place_of};
use crate::record_names::RecordNames;
use crate::transaction::Transaction;
use naming::Located;
use store::Parts;

// All that is left once the checks are passed: names, entries for the parents that are held, the record, and its nullifier
// unless that is there already.
fn apply_genesis(parts: &mut Parts, tx: &Transaction, at: Located)
    requires { Room (store_in parts.old) tx.now.id.now tx.now.parents.now (places_wanted (place_of (store_in parts.old) tx.now.nullifier.0)) × LocatedFor (store_in parts.old) tx.now at }
    ensures left { store_in parts.new ≡ genesis_done (store_in parts.old) tx.now.id.now tx.now.nullifier.0 tx.now.parents.now }
    ensures same { SameSlices parts.old parts.new }
{
    begin(parts, tx, at);
    let names = RecordNames::of(&at, tx.parents.len());
    enter_held(parts, &names);
    match place_of(&parts.view(), &tx.nullifier.0) {
        Some(place) => parts.keep_record(names.child as usize, place, names.parents),
        None => keep_new(parts, &tx.nullifier.0, &names),
    }
}

// A record with 0 to 16 parents, held or not; its nullifier may be there already.
pub fn genesis(parts: &mut Parts, tx: &Transaction) -> Result<(), DagRefusal>
    ensures left { left result (store_in parts.new) ≡ genesis_of (store_in parts.old) tx.now.id.now tx.now.nullifier.0 tx.now.parents.now }
    ensures same { SameSlices parts.old parts.new }
{
    let at = judge_genesis(&parts.view(), tx)?;
    apply_genesis(parts, tx, at);
    Ok(())
}

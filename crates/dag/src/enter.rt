// The steps of an insert that was not refused: names, then entries for the parents, then the nullifier and the record.
ghost use Rattle.std.specs.Prelude.{◌≡◌, ◌+◌, ◌≤◌, length, get_or};
ghost use Rattle.store.specs.Limits.{name_limit, parent_limit};
ghost use Rattle.store.specs.Tables.{names};
ghost use Rattle.store.specs.Facts.{Sound};
ghost use Rattle.store.specs.Parts.{store_in, SameSlices};
ghost use Rattle.dag.specs.Rules.{begun, walked, entered, held_entered, kept_new};
ghost use Rattle.dag.specs.Begun.{LocatedFor, Enterable, Keepable};

use crate::record_names::RecordNames;
use crate::transaction::Transaction;
use naming::Located;
use store::Parts;

// The ids named, and the mark cleared.
pub fn begin(parts: &mut Parts, tx: &Transaction, at: Located)
    requires { (Sound (store_in parts.old) × (length tx.now.parents.now ≤ parent_limit)) × (LocatedFor (store_in parts.old) tx.now at × (names (store_in parts.old) + at.fresh ≤ name_limit)) }
    ensures left { store_in parts.new ≡ begun (store_in parts.old) tx.now.id.now tx.now.parents.now }
    ensures same { SameSlices parts.old parts.new }
{
    naming::name_all(parts, &tx.ids(), at);
    parts.unmark();
}

// The parents in order: each held one gets the child entry, and the first unheld one stops, with its place.
pub fn enter(parts: &mut Parts, names: &RecordNames) -> Result<(), usize>
    requires { Enterable (store_in parts.old) (λ j. get_or names.now.parents.now j 0) (length names.now.parents.now) }
    ensures left { walked result (store_in parts.new) ≡ entered (store_in parts.old) names.now.child (λ j. get_or names.now.parents.now j 0) 0 (length names.now.parents.now) }
    ensures same { SameSlices parts.old parts.new }
{
    for (i, parent) in names.parents.iter().enumerate() {
        let name = *parent as usize;
        if !parts.view().is_held(name) {
            return Err(i);
        }
        parts.add_child(name, names.child);
    }
    Ok(())
}

// The same list gone through to its end: only held parents get entries.
pub fn enter_held(parts: &mut Parts, names: &RecordNames)
    requires { Enterable (store_in parts.old) (λ j. get_or names.now.parents.now j 0) (length names.now.parents.now) }
    ensures left { store_in parts.new ≡ held_entered (store_in parts.old) names.now.child (λ j. get_or names.now.parents.now j 0) (length names.now.parents.now) }
    ensures same { SameSlices parts.old parts.new }
{
    for parent in names.parents {
        let name = *parent as usize;
        if parts.view().is_held(name) {
            parts.add_child(name, names.child);
        }
    }
}

// A new nullifier, and the record with it.
pub fn keep_new(parts: &mut Parts, nullifier: &[u8; 32], names: &RecordNames)
    requires { Keepable (store_in parts.old) names.now.child (length names.now.parents.now) }
    ensures left { store_in parts.new ≡ kept_new (store_in parts.old) names.now.child nullifier.now (λ j. get_or names.now.parents.now j 0) (length names.now.parents.now) }
    ensures same { SameSlices parts.old parts.new }
{
    let place = parts.view().spent() as usize;
    parts.keep_null(nullifier);
    parts.keep_record(names.child as usize, place, names.parents);
}

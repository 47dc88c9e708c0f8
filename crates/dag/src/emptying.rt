// Emptying.
ghost use Rattle.std.specs.Prelude.{◌≡◌};
ghost use Rattle.store.specs.Tables.{store};
ghost use Rattle.dag.specs.Rules.{left, empty_of};

use crate::answers::DagRefusal;
use store::View;

// Only the lengths are checked, so that any parts of the right lengths can be made a store. Seven slices and not Parts, since only the head is written
// and the others may be shared.
pub fn empty(
    head: &mut [u32],
    keys: &[u32],
    rests: &[u8],
    nodes: &[u16],
    links: &[u32],
    nonces: &[u64],
    tips: &[u64],
) -> Result<(), DagRefusal>
    ensures { left result (store head.new keys.now rests.now nodes.now links.now nonces.now tips.now) ≡ empty_of (store head.old keys.now rests.now nodes.now links.now nonces.now tips.now) }
{
    let view = View {
        head,
        keys,
        rests,
        nodes,
        links,
        nonces,
        tips,
    };
    if !view.lengths_right() {
        return Err(DagRefusal::StoreBad);
    }
    store::empty_head(head);
    Ok(())
}

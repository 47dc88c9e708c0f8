// The new ids of a call named: each goes after the last, and its row becomes that of a name never seen.
ghost use Rattle.std.specs.Prelude.{◌≡◌, cond, ◌+◌, ◌≤◌, ◌<◌};
ghost use Rattle.bitset.specs.Sets.{count_below};
ghost use Rattle.store.specs.Limits.{name_limit};
ghost use Rattle.store.specs.Tables.{names, fresh_node, fresh_link};
ghost use Rattle.store.specs.Parts.{store_in, SameSlices};
ghost use Rattle.naming.specs.Naming.{call_limit, NamesRight, named};
ghost use Rattle.naming.specs.Calls.{ids, id_count};
ghost use Rattle.naming.specs.Located.{Locates};
ghost use Rattle.naming.specs.Parts.{list_if, listed, with_row, cleared};
ghost use Rattle.naming.specs.Loops.{flag};

use crate::called::Called;
use crate::lookup::{CALL_LIMIT, Located};
use store::Parts;
use store::limits::*;

// x after the last id, if it is new.
fn list_if(parts: &mut Parts, x: &[u8; 32], new: bool)
    requires { NamesRight (store_in parts.old) × (names (store_in parts.old) + cond new 1 0 ≤ name_limit) }
    ensures left { store_in parts.new ≡ list_if new (store_in parts.old) x.now }
    ensures same { SameSlices parts.old parts.new }
{
    if new {
        let n = parts.view().names();
        cells::put_id(parts.keys, parts.rests, NAMES_AT + n as usize, x);
        cells::put(parts.head, NAMES, n + 1);
    }
}

// The new ids after the last, in argument order.
fn list_all(parts: &mut Parts, call: &Called, new: [bool; CALL_LIMIT])
    requires { NamesRight (store_in parts.old) × ((id_count call.now ≤ call_limit) × (names (store_in parts.old) + count_below (flag new) (id_count call.now) ≤ name_limit)) }
    ensures left { store_in parts.new ≡ listed (store_in parts.old) (ids call.now) (flag new) (id_count call.now) }
    ensures same { SameSlices parts.old parts.new }
{
    for i in 0..call.count() {
        list_if(parts, call.get(i), new[i]);
    }
}

// No parents, no depth and no requests of name n.
fn clear_node(nodes: &mut [u16], n: usize)
    requires { n < name_limit }
    ensures { nodes.new ≡ fresh_node nodes.old n }
{
    cells::put_row(nodes, PARENTS_AT + n * PARENT_LIMIT, &[0; PARENT_LIMIT]);
    cells::put(nodes, COUNTS_AT + n, 0);
    cells::put(nodes, DEPTHS_AT + n, 0);
    cells::put(nodes, REQUESTS_AT + n, 0);
}

// No record, no children and no pairs of name n.
fn clear_link(links: &mut [u32], n: usize)
    requires { n < name_limit }
    ensures { links.new ≡ fresh_link links.old n }
{
    cells::put(links, PLACES_AT + n, 0);
    cells::put(links, LASTS_AT + n, 0);
    cells::put(links, LAST_PAIRS_AT + n, 0);
}

// Name n as never seen.
fn clear_row(parts: &mut Parts, n: usize)
    requires { n < name_limit }
    ensures left { store_in parts.new ≡ with_row (store_in parts.old) n }
    ensures same { SameSlices parts.old parts.new }
{
    clear_node(parts.nodes, n);
    clear_link(parts.links, n);
    cells::put(parts.nonces, n, 0);
    bitset::remove(parts.tips, n);
}

// A number of names as never seen.
fn clear_rows(parts: &mut Parts, from: usize, count: usize)
    requires { from + count ≤ name_limit }
    ensures left { store_in parts.new ≡ cleared (store_in parts.old) from count }
    ensures same { SameSlices parts.old parts.new }
{
    for i in 0..count {
        clear_row(parts, from + i);
    }
}

// The new ids of a call named, in argument order.
pub fn name_all(parts: &mut Parts, call: &Called, at: Located)
    requires { NamesRight (store_in parts.old) × ((id_count call.now ≤ call_limit) × (Locates (store_in parts.old) (ids call.now) (id_count call.now) at × (names (store_in parts.old) + at.fresh ≤ name_limit))) }
    ensures left { store_in parts.new ≡ named (store_in parts.old) (ids call.now) (id_count call.now) }
    ensures same { SameSlices parts.old parts.new }
{
    let first = parts.view().names() as usize;
    list_all(parts, call, at.new);
    clear_rows(parts, first, at.fresh);
}

// Tables of ids. Place p of a table has the id's first four bytes as one number, its key, in keys[p],
// and the other 28 bytes in rests from p * 28 on: a search goes through the keys alone.
//
// The two columns are two slices with a place and a count, as in `Places` and `first_id` of specs/: they are lent from one struct to be read and from
// another to be written, so that a struct of the two would be two again.
ghost use Rattle.std.specs.Prelude.{◌≡◌, not, ◌+◌, ◌-◌, ◌≤◌, length, get_or, eqb};
ghost use Rattle.cells.specs.Cells.{every, first_where, IsId, same_id, same_rest, key_of, id_at, Places, keys_put, rests_put, has_id, first_id};

// How many bytes of an id are its key, and how many come after it.
const KEY: usize = 4;

const REST: usize = 28;

// How many keys are compared at once.
const BLOCK: usize = 64;

// x again, which the caller then knows to be an id.
pub fn as_id(x: [u8; 32]) -> [u8; 32]
    ensures { (result ≡ x) × IsId x }
{
    x
}

// An id's key: its first four bytes as one number, the lowest byte first.
fn key_of(x: &[u8; 32]) -> u32
    ensures { (result ≡ key_of x.now) × IsId x.now }
{
    u32::from_le_bytes([x[0], x[1], x[2], x[3]])
}

// Whether two ids have the same bytes: `==`, under the name that the definitions have.
pub fn same_id(x: &[u8; 32], y: &[u8; 32]) -> bool
    ensures { result ≡ same_id x.now y.now }
{
    x == y
}

// Whether the 28 bytes from a place on are those of x after its key. A loop without a branch: `==` of the two slices is a
// call, and with the id put together by `get_id` first, a search that finds takes half as long again.
fn same_rest(rests: &[u8], from: usize, x: &[u8; 32]) -> bool
    requires { from + 28 ≤ length rests.now }
    ensures { result ≡ same_rest rests.now from x.now }
{
    let mut same = true;
    for i in 0..REST {
        same &= rests[from + i] == x[KEY + i];
    }
    same
}

// Whether place p has the id x, whose key is at hand: the other bytes are read only where the key is the same.
fn is_at(keys: &[u32], rests: &[u8], p: usize, x: &[u8; 32], key: u32) -> bool
    requires { Places keys.now rests.now (p + 1) × (key ≡ key_of x.now) × IsId x.now }
    ensures { result ≡ same_id (id_at keys.now rests.now p) x.now }
{
    keys[p] == key && same_rest(rests, p * REST, x)
}

// The lowest place from start up to stop, counted from `from`, that has the id x. Never inlined, so that the loop over
// blocks, which seldom calls it, keeps its registers.
#[inline(never)]
fn first_between(
    keys: &[u32],
    rests: &[u8],
    from: usize,
    start: usize,
    stop: usize,
    x: &[u8; 32],
) -> Option<usize>
    requires { Places keys.now rests.now (from + stop) × (start ≤ stop) }
    ensures { result ≡ first_where (has_id keys.now rests.now from x.now) start (stop - start) }
{
    let key = key_of(x);
    for i in start..stop {
        if is_at(keys, rests, from + i, x, key) {
            return Some(i);
        }
    }
    None
}

// Whether none of a block of keys is this one. Without a branch, LLVM compares many at once. `contains` branches after
// every 16 keys: a miss among 8,192 takes 0.77 microseconds with it, and 0.61 to 0.65 with this loop.
fn block_lacks(block: &[u32; BLOCK], key: u32) -> bool
    ensures { result ≡ every (λ i. not (eqb (get_or block.now i 0) key)) 64 }
{
    let mut lacks = true;
    for k in block {
        lacks &= *k != key;
    }
    lacks
}

// The lowest of the n places from `from` on that has the id x, counted from 0. A block of keys is gone through singly
// only where one of them is x's.
pub fn find_id(keys: &[u32], rests: &[u8], from: usize, n: usize, x: &[u8; 32]) -> Option<usize>
    requires { Places keys.now rests.now (from + n) }
    ensures { result ≡ first_id keys.now rests.now from n x.now }
{
    let key = key_of(x);
    let (blocks, _) = keys[from..from + n].as_chunks::<BLOCK>();
    for (b, block) in blocks.iter().enumerate() {
        if !block_lacks(block, key) {
            let start = b * BLOCK;
            if let Some(p) = first_between(keys, rests, from, start, start + BLOCK, x) {
                return Some(p);
            }
        }
    }
    first_between(keys, rests, from, blocks.len() * BLOCK, n, x)
}

// x put at place p.
pub fn put_id(keys: &mut [u32], rests: &mut [u8], p: usize, x: &[u8; 32])
    requires { Places keys.old rests.old (p + 1) }
    ensures { (keys.new ≡ keys_put keys.old p x.now) × (rests.new ≡ rests_put rests.old p x.now) }
{
    keys[p] = key_of(x);
    let from = p * REST;
    rests[from..from + REST].copy_from_slice(&x[KEY..]);
}

// The id at place p.
pub fn get_id(keys: &[u32], rests: &[u8], p: usize) -> [u8; 32]
    requires { Places keys.now rests.now (p + 1) }
    ensures { result ≡ id_at keys.now rests.now p }
{
    let mut id = [0; 32];
    id[..KEY].copy_from_slice(&keys[p].to_le_bytes());
    let from = p * REST;
    id[KEY..].copy_from_slice(&rests[from..from + REST]);
    id
}

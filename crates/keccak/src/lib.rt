// KECCAK-p[1600, 24], the permutation of FIPS 202, on 25 lanes of 64 bits: lane (x, y) stands at 5 y + x.
//
// Six lanes are kept complemented between the rounds (`veil`), which spares most of the complements of χ: where a lane is
// complemented, an `and` becomes an `or`. specs/Lanes has the rounds so, specs/Link that their bits are FIPS 202's.
#![tactic(auto)]

ghost use Rattle.std.specs.Prelude.{◌≡◌, ◌*◌, ◌<◌};
ghost use Rattle.std.proofs.lemmas.List.Edits.{sets};
ghost use Rattle.keccak.specs.Fips202.{listed};
ghost use Rattle.keccak.specs.Lanes.{lane, rotation, parity, effects, mix, brought, mixed, round_of, constant_of, veiled, permuted};
ghost use Rattle.keccak.specs.Lanes.{moved as lanes_moved};

// How far ρ turns each lane. One computed test holds the list to the walk of FIPS 202, Algorithm 2 (proofs/rotations).
const ROTATIONS: [u32; 25] = [
    0, 1, 62, 28, 27, 36, 44, 6, 55, 20, 3, 10, 43, 25, 39, 41, 45, 15, 21, 8, 18, 2, 61, 56, 14,
];

// What ι adds to lane (0, 0) in each round. One computed test holds the list to rc(t), Algorithm 5 (proofs/round_constants).
const ROUND_CONSTANTS: [u64; 24] = [
    0x0000_0000_0000_0001,
    0x0000_0000_0000_8082,
    0x8000_0000_0000_808a,
    0x8000_0000_8000_8000,
    0x0000_0000_0000_808b,
    0x0000_0000_8000_0001,
    0x8000_0000_8000_8081,
    0x8000_0000_0000_8009,
    0x0000_0000_0000_008a,
    0x0000_0000_0000_0088,
    0x0000_0000_8000_8009,
    0x0000_0000_8000_000a,
    0x0000_0000_8000_808b,
    0x8000_0000_0000_008b,
    0x8000_0000_0000_8089,
    0x8000_0000_0000_8003,
    0x8000_0000_0000_8002,
    0x8000_0000_0000_0080,
    0x0000_0000_0000_800a,
    0x8000_0000_8000_000a,
    0x8000_0000_8000_8081,
    0x8000_0000_0000_8080,
    0x0000_0000_8000_0001,
    0x8000_0000_8000_8008,
];

// The two lists by functions with contracts, since a constant has none.
fn rotations() -> [u32; 25]
    ensures { result ≡ listed 25 0 rotation }
{
    ROTATIONS
}

fn round_constants() -> [u64; 24]
    ensures { result ≡ listed 24 0 constant_of }
{
    ROUND_CONSTANTS
}

// θ: the parity of a column of lanes.
fn column(a: &[u64; 25], x: usize) -> u64
    requires { x < 5 }
    ensures { result ≡ parity (lane a.now) x }
{
    a[x] ^ a[x + 5] ^ a[x + 10] ^ a[x + 15] ^ a[x + 20]
}

// θ: what each lane of a sheet gets from the two columns beside it.
fn from_columns(a: &[u64; 25]) -> [u64; 5]
    ensures { result ≡ effects a.now }
{
    // Filled by loops: in `array::from_fn` the closure would need what it asks written out.
    let mut c = [0u64; 5];
    for x in 0..5 {
        c[x] = column(a, x);
    }
    let mut d = [0u64; 5];
    for x in 0..5 {
        d[x] = c[(x + 4) % 5] ^ c[(x + 1) % 5].rotate_left(1);
    }
    d
}

// θ and ρ of one lane; π is where `plane` reads it from.
fn moved(a: &[u64; 25], d: [u64; 5], i: usize) -> u64
    requires { i < 25 }
    ensures { result ≡ lanes_moved (lane a.now) (lane d) i }
{
    (a[i] ^ d[i % 5]).rotate_left(rotations()[i])
}

// χ of the lane b and the next two of its row, c and e, in the forms that it has where the veil leaves some of the three
// complemented. `Not` stands before the operand that is complemented, `Other` says that it is b.
#[derive(Clone, Copy)]
enum Form {
    And,
    Or,
    NotAnd,
    NotOr,
    OrNot,
    OtherAnd,
    OtherOr,
}

use Form::{And, NotAnd, NotOr, Or, OrNot, OtherAnd, OtherOr};

// The form of each lane, a plane to a line.
const FORMS: [[Form; 5]; 5] = [
    [Or, NotOr, And, Or, And],
    [Or, And, OrNot, Or, And],
    [Or, And, NotAnd, OtherOr, And],
    [And, Or, NotOr, OtherAnd, Or],
    [NotAnd, OtherOr, And, Or, And],
];

impl Form {
    fn mix(self, b: u64, c: u64, e: u64) -> u64
        ensures { result ≡ mix self b c e }
    {
        match self {
            And => b ^ (c & e),
            Or => b ^ (c | e),
            NotAnd => b ^ (!c & e),
            NotOr => b ^ (!c | e),
            OrNot => b ^ (c | !e),
            OtherAnd => !b ^ (c & e),
            OtherOr => !b ^ (c | e),
        }
    }
}

// π and χ of the plane Y. It is a constant so that LLVM unrolls the loops and decides the forms: a loop over the planes takes
// eight times as long.
fn plane<const Y: usize>(a: &[u64; 25], d: [u64; 5], e: &mut [u64; 25])
    requires { Y < 5 }
    ensures { e.new ≡ sets e.old (5 * Y) (listed 5 (5 * Y) (mixed (brought (lane a.now) (lane d)))) }
{
    let mut b = [0u64; 5];
    for x in 0..5 {
        b[x] = moved(a, d, (x + 3 * Y) % 5 + 5 * x);
    }
    for x in 0..5 {
        e[5 * Y + x] = FORMS[Y][x].mix(b[x], b[(x + 1) % 5], b[(x + 2) % 5]);
    }
}

// One round from a to e. Two arrays by turns, so that no lane is copied.
fn round(a: &[u64; 25], e: &mut [u64; 25], constant: u64)
    ensures { e.new ≡ round_of constant a.now }
{
    let d = from_columns(a);
    plane::<0>(a, d, e);
    plane::<1>(a, d, e);
    plane::<2>(a, d, e);
    plane::<3>(a, d, e);
    plane::<4>(a, d, e);
    e[0] ^= constant;
}

// The six lanes complemented, or set right again. A loop over the six makes a permutation two per cent slower.
fn veil(a: [u64; 25]) -> [u64; 25]
    ensures { result ≡ veiled a }
{
    [
        a[0], !a[1], !a[2], a[3], a[4], a[5], a[6], a[7], !a[8], a[9], a[10], a[11], !a[12], a[13],
        a[14], a[15], a[16], !a[17], a[18], a[19], !a[20], a[21], a[22], a[23], a[24],
    ]
}

pub fn permute(a: [u64; 25]) -> [u64; 25]
    ensures { result ≡ permuted a }
{
    let mut s = veil(a);
    let mut t = [0u64; 25];
    let constants = round_constants();
    let (pairs, _) = constants.as_chunks::<2>();
    for pair in pairs {
        round(&s, &mut t, pair[0]);
        round(&t, &mut s, pair[1]);
    }
    veil(s)
}

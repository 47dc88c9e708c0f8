// Bytes go into a block of the sponge, byte by byte or a lane at a time, and come out of the state.
ghost use Rattle.std.specs.Prelude.{◌≡◌, ℕ, ◌+◌, ◌%◌, ◌<◌, ◌≤◌, length};
ghost use Rattle.sha3.specs.Hash.{plus_bytes, output};

use crate::RATE;

// The lanes and the place in the block are passed apart: handed on as one `Hasher`, by value or by `&mut`, they make a hash of 64 bytes
// take 2 to 4 % longer.

// Bytes of a part, to the block from place `at` on.
#[tactic(auto, unfolding(crate::specs::Hash::plus_bytes))]
fn add_bytes(mut lanes: [u64; 25], at: usize, part: &[u8]) -> [u64; 25]
    requires { at + length part.now ≤ 136 }
    ensures { result ≡ plus_bytes lanes at part.now }
{
    for (i, byte) in part.iter().enumerate() {
        let place = at + i;
        lanes[place / 8] ^= u64::from(*byte) << (8 * (place % 8));
    }
    lanes
}

// The same of whole lanes, with one load for each.
#[tactic(auto, unfolding(crate::specs::Hash::plus_bytes))]
fn add_lanes(mut lanes: [u64; 25], at: usize, part: &[u8]) -> [u64; 25]
    requires aligned { 0 < length part.now → at % 8 ≡ 0 }
    requires whole { length part.now % 8 ≡ 0 }
    requires room { at + length part.now ≤ 136 }
    ensures { result ≡ plus_bytes lanes at part.now }
{
    let (words, _) = part.as_chunks::<8>();
    for (i, word) in words.iter().enumerate() {
        lanes[at / 8 + i] ^= u64::from_le_bytes(*word);
    }
    lanes
}

// The same of bytes, by whole lanes where they fill one.
fn add_some(lanes: [u64; 25], at: usize, part: &[u8]) -> [u64; 25]
    requires { at + length part.now ≤ 136 }
    ensures { result ≡ plus_bytes lanes at part.now }
{
    let (head, rest) = part.split_at(part.len().min((8 - at % 8) % 8));
    let (whole, tail) = rest.split_at(rest.len() - rest.len() % 8);
    let lanes = add_bytes(lanes, at, head);
    let lanes = add_lanes(lanes, at + head.len(), whole);
    add_bytes(lanes, at + head.len() + whole.len(), tail)
}

// The same; a whole block goes in by 17 lanes with no count to work out.
pub fn add(lanes: [u64; 25], at: usize, part: &[u8]) -> [u64; 25]
    requires { at + length part.now ≤ 136 }
    ensures { result ≡ plus_bytes lanes at part.now }
{
    if part.len() == RATE {
        return add_lanes(lanes, 0, part);
    }
    add_some(lanes, at, part)
}

// The first 32 bytes of the state.
pub fn squeeze(lanes: [u64; 25]) -> [u8; 32]
    ensures { result ≡ output lanes }
{
    let mut bytes = [0u8; 32];
    for (i, lane) in lanes[..4].iter().enumerate() {
        bytes[8 * i..8 * i + 8].copy_from_slice(&lane.to_le_bytes());
    }
    bytes
}

// SHA3-256 of bytes: of a slice at once, or of parts that a hasher takes one after another.
#![tactic(auto)]

mod block;

ghost use Rattle.std.specs.Prelude.{◌≡◌, List, [], ◌++◌, ℕ, ◌+◌, ◌≤◌, length};
ghost use Rattle.keccak.specs.Fips202.{bits_of, sha3_256};
ghost use Rattle.sha3.specs.Hash.{plus_bytes, holding, taken, after, digest, sha3};

// The bytes of a block: the 1088 bits of the rate.
const RATE: usize = 136;

// A hash under way: the state with `at` bytes of the present block added. Every value is a hasher: `at` counts modulo the rate.
#[derive(Clone, Copy)]
pub struct Hasher {
    pub lanes: [u64; 25],
    pub at: usize,
}

impl Hasher {
    #[tactic(auto, unfolding(crate::specs::Hash::after, crate::specs::Hash::take_bytes))]
    pub fn new() -> Hasher
        ensures { result ≡ after [] }
    {
        Hasher {
            lanes: [0u64; 25],
            at: 0,
        }
    }

    // Bytes that go no further than the block's end. A full block is permuted, by the one call of the permutation, so that it is
    // compiled into the loop of `update`.
    #[tactic(auto, using(crate::specs::Sponge::holding_full, crate::specs::Sponge::holding_part))]
    fn fill(self, part: &[u8]) -> Hasher
        requires { self.at + length part.now ≤ 136 }
        ensures { result ≡ holding (plus_bytes self.lanes self.at part.now) (self.at + length part.now) }
    {
        let lanes = block::add(self.lanes, self.at, part);
        let at = self.at + part.len();
        if at == RATE {
            return Hasher {
                lanes: keccak::permute(lanes),
                at: 0,
            };
        }
        Hasher { lanes, at }
    }

    // All bytes come through here, those of the padding too (`finish`).
    pub fn update(self, part: &[u8]) -> Hasher
        ensures value { result ≡ taken self part.now }
        ensures of_message { (m : List ℕ) → self ≡ after m → result ≡ after (m ++ part.now) }
    {
        let mut hasher = self;
        hasher.at %= RATE;
        let mut rest = part;
        while !rest.is_empty() {
            let (now, later) = rest.split_at(rest.len().min(RATE - hasher.at));
            hasher = hasher.fill(now);
            rest = later;
        }
        hasher
    }

    // The suffix 01 and the padding fill the block.
    pub fn finish(self) -> [u8; 32]
        ensures value { result ≡ digest self }
        ensures of_message { (m : List ℕ) → self ≡ after m → result ≡ sha3 m }
        ensures of_bits { (m : List ℕ) → self ≡ after m → bits_of result ≡ sha3_256 (bits_of m) }
    {
        let at = self.at % RATE;
        let mut padding = [0u8; RATE];
        padding[at] = 0x06;
        padding[RATE - 1] |= 0x80;
        block::squeeze(self.update(&padding[at..]).lanes)
    }
}

// The hasher that has taken nothing in.
impl Default for Hasher {
    ghost is_default = { λ h. h ≡ after [] };

    fn default() -> Hasher {
        Hasher::new()
    }
}

pub fn sha3_256(message: &[u8]) -> [u8; 32]
    ensures value { result ≡ sha3 message.now }
    ensures of_bits { bits_of result ≡ sha3_256 (bits_of message.now) }
{
    Hasher::new().update(message).finish()
}

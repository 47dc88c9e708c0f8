// Epochs, nullifiers, ids and the work test: which bytes are hashed, and in which order.
#![tactic(auto)]

ghost use Rattle.std.specs.Prelude.{◌≡◌, ◌<◌, length, replicate};
ghost use Rattle.ident.specs.Ident.{key_limit, little_endian, epoch_reply, epoch_of, nullifier_of, computed_id, id_reply, id_beside, work_hash, work_of};

use sha3::Hasher;

const KEY_LIMIT: usize = 4096;

const PARENT_LIMIT: usize = 16;

// The refusal of a divisor that is 0, and of a key that is too long. A type of this crate, which stands on none that has one.
#[derive(Clone, Copy, Debug, PartialEq, Eq)]
pub struct OutOfRange;

// An epoch, a kind of its own beside the depth that it comes from.
#[derive(Clone, Copy, Debug, PartialEq, Eq, PartialOrd, Ord, Hash)]
pub struct Epoch(pub u64);

impl Epoch {
    #[tactic(auto, unfolding(crate::specs::Ident::epoch_of))]
    pub fn from_depth(depth: u64, depth_per_epoch: u64) -> Result<Epoch, OutOfRange>
        ensures { epoch_reply result ≡ epoch_of depth depth_per_epoch }
    {
        depth
            .checked_div(depth_per_epoch)
            .map(Epoch)
            .ok_or(OutOfRange)
    }

    // Little-endian.
    pub fn to_bytes(self) -> [u8; 8]
        ensures { result ≡ little_endian 8 self.0 }
    {
        self.0.to_le_bytes()
    }
}

// A nullifier, a kind of its own beside ids.
#[derive(Clone, Copy, Debug, PartialEq, Eq, Hash)]
pub struct Nullifier(pub [u8; 32]);

impl Nullifier {
    #[tactic(auto, using(crate::specs::Parts::nullifier_parts))]
    pub fn compute(secret_hash: [u8; 32], epoch: Epoch, nonce: &[u8]) -> Nullifier
        ensures { result.0 ≡ nullifier_of secret_hash epoch.0 nonce.now }
    {
        let hash = Hasher::new()
            .update(b"NULLIFIER_V2")
            .update(&secret_hash)
            .update(&epoch.to_bytes())
            .update(nonce)
            .finish();
        Nullifier(hash)
    }
}

// The hash of the tag, the key and the nullifier; a key over the limit is refused, with zeros beside the refusal.
#[tactic(auto, using(crate::specs::Parts::id_refused, crate::specs::Parts::id_refusal, crate::specs::Parts::id_served))]
pub fn compute_id(key: &[u8], nullifier: Nullifier) -> Result<[u8; 32], OutOfRange>
    ensures id { result ≡ computed_id key.now nullifier.0 }
    ensures refused { key_limit < length key.now → (id_reply result ≡ 10) × (id_beside result ≡ replicate 32 0) }
{
    if key.len() > KEY_LIMIT {
        return Err(OutOfRange);
    }
    let id = Hasher::new()
        .update(b"TX_ID_V3")
        .update(key)
        .update(&nullifier.0)
        .finish();
    Ok(id)
}

// Why the work test is refused.
#[derive(Clone, Copy, Debug, PartialEq, Eq)]
pub enum WorkRefusal {
    ListTooLong,
    OutOfRange,
}

// The hash of the header and the nonce.
#[tactic(auto, using(crate::specs::Parts::work_parts_le))]
fn work_hash(key: &[u8], parents: &[[u8; 32]], nullifier: Nullifier, nonce: u64) -> [u8; 32]
    ensures { result ≡ work_hash key.now parents.now nullifier.0 nonce }
{
    let mut hasher = Hasher::new().update(key);
    for parent in parents {
        hasher = hasher.update(parent);
    }
    hasher
        .update(&nullifier.0)
        .update(&nonce.to_le_bytes())
        .finish()
}

// Whether the hash of the header and the nonce is at most the target, both read from their first byte. Too long a list is refused before
// too long a key.
#[tactic(auto, using(crate::specs::Parts::work_long, crate::specs::Parts::work_range))]
pub fn work(
    key: &[u8],
    parents: &[[u8; 32]],
    nullifier: Nullifier,
    nonce: u64,
    target: [u8; 32],
) -> Result<bool, WorkRefusal>
    ensures { result ≡ work_of key.now parents.now nullifier.0 nonce target }
{
    if parents.len() > PARENT_LIMIT {
        return Err(WorkRefusal::ListTooLong);
    }
    if key.len() > KEY_LIMIT {
        return Err(WorkRefusal::OutOfRange);
    }
    let hash = work_hash(key, parents, nullifier, nonce);
    Ok(hash <= target)
}

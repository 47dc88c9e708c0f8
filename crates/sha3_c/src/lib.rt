// The hash for C and Rust, as a static library.
#![tactic(auto)]

ghost use Rattle.std.specs.Prelude.{◌≡◌};
ghost use Rattle.sha3.specs.Hash.{sha3};

// For C and Rust, which pass and take slices and arrays as in Rust.
#[unsafe(no_mangle)]
pub extern "C" fn marrowkey_sha3_256(message: &[u8], hash: &mut [u8; 32])
    ensures { hash.new ≡ sha3 message.now }
{
    *hash = sha3::sha3_256(message);
}

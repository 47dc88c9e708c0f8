// SHA3-256 of the messages that tools/sha3-vectors lists, a line for each: the published examples, every length from 0 to 300, lengths
// around each multiple of the rate, and messages in parts, split at every place.
#![tactic(auto)]

ghost use Rattle.std.specs.Prelude.{◌≤◌, length};

use sha3::Hasher;
use std::io::{self, Write};

const LONGEST: usize = 2048;

fn show<W: Write>(out: &mut W, hash: [u8; 32]) -> io::Result<()> {
    for byte in hash {
        write!(out, "{byte:02x}")?;
    }
    writeln!(out, "")
}

fn example<W: Write>(out: &mut W, name: &str, message: &[u8]) -> io::Result<()> {
    write!(out, "{name}")?;
    show(out, sha3::sha3_256(message))
}

// Fills a message: x is its length mod 251, each byte is x, and after byte i x becomes (29 x + i + 7) mod 251.
fn fill(message: &mut [u8])
    requires { length message.old ≤ LONGEST }
{
    let mut x = message.len() % 251;
    for (i, byte) in message.iter_mut().enumerate() {
        *byte = x as u8;
        x = (29 * x + i + 7) % 251;
    }
}

fn whole<W: Write>(out: &mut W, n: usize) -> io::Result<()>
    requires { n ≤ LONGEST }
{
    write!(out, "length {n} ")?;
    let mut buffer = [0u8; LONGEST];
    let message = &mut buffer[..n];
    fill(message);
    show(out, sha3::sha3_256(message))
}

// The first `cut` bytes, nothing, and the others.
fn in_parts<W: Write>(out: &mut W, n: usize, cut: usize) -> io::Result<()>
    requires { (cut ≤ n) × (n ≤ LONGEST) }
{
    write!(out, "split {n} {cut} ")?;
    let mut buffer = [0u8; LONGEST];
    let message = &mut buffer[..n];
    fill(message);
    let (first, others) = message.split_at(cut);
    let hasher = Hasher::new().update(first).update(b"").update(others);
    show(out, hasher.finish())
}

fn split_everywhere<W: Write>(out: &mut W, n: usize) -> io::Result<()>
    requires { n ≤ LONGEST }
{
    for cut in 0..=n {
        in_parts(out, n, cut)?;
    }
    Ok(())
}

// A million times the letter a, in parts of 625 bytes.
fn million<W: Write>(out: &mut W) -> io::Result<()> {
    let part = [b'a'; 625];
    let mut hasher = Hasher::new();
    for _ in 0..1600 {
        hasher = hasher.update(&part);
    }
    write!(out, "million ")?;
    show(out, hasher.finish())
}

fn lengths<W: Write>(out: &mut W, first: usize, last: usize) -> io::Result<()>
    requires { last ≤ LONGEST }
{
    for n in first..=last {
        whole(out, n)?;
    }
    Ok(())
}

fn around_blocks<W: Write>(out: &mut W) -> io::Result<()> {
    for blocks in 3..=15 {
        lengths(out, 136 * blocks - 2, 136 * blocks + 2)?;
    }
    Ok(())
}

fn main(rt: HostRuntime) -> io::Result<()> {
    let out = &mut rt.stdout();
    example(out, "empty ", b"")?;
    example(out, "abc ", b"abc")?;
    example(
        out,
        "448-bits ",
        b"abcdbcdecdefdefgefghfghighijhijkijkljklmklmnlmnomnopnopq",
    )?;
    example(
        out,
        "896-bits ",
        b"abcdefghbcdefghicdefghijdefghijkefghijklfghijklmghijklmnhijklmnoijklmnopjklmnopqklmnopqrlmnopqrsmnopqrstnopqrstu",
    )?;
    example(out, "1600-bits ", &[0xa3u8; 200])?;
    million(out)?;
    lengths(out, 0, 300)?;
    around_blocks(out)?;
    split_everywhere(out, 8)?;
    split_everywhere(out, 136)?;
    split_everywhere(out, 137)?;
    split_everywhere(out, 300)
}

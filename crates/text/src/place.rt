// Where things stand in a buffer.
ghost use Rattle.std.specs.Prelude.{◌≡◌};
ghost use Rattle.text.specs.Pieces.{place_of};
ghost use Rattle.text.specs.Put.{page, kept_of};

// The place of the first byte of s that is b, or s's length where there is none: no Option, since place_of of
// specs/Pieces gives the length too. Out of line, since LLVM then makes five
// instructions a byte of it, and eight inside a caller that owns the buffer.
#[inline(never)]
pub fn place_of(s: &[u8], b: u8) -> usize
    ensures { result ≡ place_of b s.now }
{
    s.iter().position(|x| *x == b).unwrap_or(s.len())
}

// Moves the bytes from `from` up to `to` to the front of buf, at most `most` of them, and gives their
// number. So what is left of one read stands before what the next read brings. The part is given by its
// ends, since a slice of it could not be moved within the buffer that it is of.
pub fn keep(buf: &mut [u8], from: usize, to: usize, most: usize) -> usize
    ensures { page buf.new result ≡ kept_of buf.old from to most }
{
    let end = to.min(buf.len());
    let start = from.min(end);
    let size = (end - start).min(most);
    buf.copy_within(start..start + size, 0);
    size
}

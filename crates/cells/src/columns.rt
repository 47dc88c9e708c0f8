// Tests over n cells of a table from a place on. A loop has no branch, so that LLVM tests many cells at once. A column is given by its place and a
// count, and not as a slice, as it is in the definitions: the store's columns (`column_right`) and the laws of `all_below` speak of cells by place.
ghost use Rattle.std.specs.Prelude.{◌≡◌, ◌+◌, ◌≤◌, ◌<◌, ◌^◌, length, get_or, ltb};
ghost use Rattle.cells.specs.Cells.{every, all_falling};

use super::Cell;

// Whether each of the cells is below the bound.
pub fn all_below<T: Cell>(s: &[T], from: usize, n: usize, bound: T) -> bool
    requires { from + n ≤ length s.now }
    ensures { result ≡ every (λ i. ltb (T.number (get_or s.now (from + i) T.zero)) (T.number bound)) n }
{
    let mut ok = true;
    for cell in &s[from..from + n] {
        ok &= *cell < bound;
    }
    ok
}

// Whether each cell is at most its own number, which is made as wide as a cell, so that no cell is widened.
pub fn all_falling(s: &[u32], from: usize, n: usize) -> bool
    requires { (from + n ≤ length s.now) × (n < 2 ^ 32) }
    ensures { result ≡ all_falling s.now from n }
{
    let mut ok = true;
    for (i, cell) in s[from..from + n].iter().enumerate() {
        ok &= *cell <= i as u32;
    }
    ok
}

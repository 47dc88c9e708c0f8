// Total reads and writes of lent tables, tests over columns of cells, and tables of ids with their search.
#![tactic(auto)]

mod columns;
mod ids;

ghost use Rattle.std.specs.Prelude.{◌≡◌, ℕ, ◌+◌, ◌<◌, ◌^◌, length, get_or, set, ltb};
ghost use Rattle.std.specs.Ordering.{partial_lt};
ghost use Rattle.cells.specs.Cells.{row_put};
ghost use Rattle.cells.specs.Columns.{numbers_ordered};

pub use columns::{all_below, all_falling};
pub use ids::{as_id, find_id, get_id, put_id, same_id};

// A number that a table has in each of its cells. The two laws say that std's default is 0, and that std's order is that of numbers.
pub trait Cell: Copy + Default + PartialOrd {
    ghost zero: { Self };

    ghost number: { Self → ℕ };

    ghost default_is_zero: { (x : Self) → Self.is_default x → x ≡ zero };

    ghost ordered: { (x y : Self) → partial_lt Self.partial_cmp x y ≡ ltb (number x) (number y) };
}

impl Cell for u16 {
    ghost zero = { 0 };

    ghost number = { λ x. x };

    ghost default_is_zero = { λ x e. e };

    ghost ordered = { numbers_ordered };
}

impl Cell for u32 {
    ghost zero = { 0 };

    ghost number = { λ x. x };

    ghost default_is_zero = { λ x e. e };

    ghost ordered = { numbers_ordered };
}

impl Cell for u64 {
    ghost zero = { 0 };

    ghost number = { λ x. x };

    ghost default_is_zero = { λ x e. e };

    ghost ordered = { numbers_ordered };
}

// What stands at i, and 0 past the end.
pub fn at<T: Cell>(s: &[T], i: usize) -> T
    ensures { result ≡ get_or s.now i T.zero }
{
    s.get(i).copied().unwrap_or_default()
}

// v put at i, and nothing done past the end.
pub fn put<T: Copy>(s: &mut [T], i: usize, v: T)
    ensures { s.new ≡ set s.old i v }
{
    if i < s.len() {
        s[i] = v;
    }
}

// The cells of row put from place `at` on, as far as the table reaches: a slice from there on would have to reach so far.
pub fn put_row<T: Cell>(s: &mut [T], at: usize, row: &[T])
    requires { at + length row.now < 2 ^ 64 }
    ensures { s.new ≡ row_put s.old at (λ j. get_or row.now j T.zero) (length row.now) }
{
    for (j, cell) in row.iter().enumerate() {
        put(s, at + j, *cell);
    }
}

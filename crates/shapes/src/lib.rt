// The extents of a node as the code holds them, and the tests of its rows. The definitions stand in specs/.
#![tactic(auto)]

ghost use Rattle.std.specs.Prelude.{◌≡◌, Bool, cond, ℕ, ◌<◌, ◌≤◌, eqb, ltb, length, take};
ghost use Rattle.laws.specs.Lists.{tab, all_below, occurrences};
ghost use Rattle.plan.specs.Words.{list_of};
ghost use Rattle.shapes.specs.Rows.{extents_of, row_of, is_shape_row, is_flag_row, is_offset_row, is_permutation};
ghost use Rattle.shapes.specs.Rules.{word_of};
ghost use Rattle.shapes.specs.Shown.{words_in, shown, Narrow};

use plan::Row;

// The extents of a node: the words before the first zero. Four words by name, as a row's: the definitions (`words_in`, `list_of`) speak of each.
#[derive(Clone, Copy, Debug, PartialEq, Eq)]
pub struct Shape {
    pub n0: u32,
    pub n1: u32,
    pub n2: u32,
    pub n3: u32,
}

impl Shape {
    // Its word for axis k, 0 past the four.
    pub fn word(self, k: usize) -> u32
        ensures { result ≡ word_of (words_in self) k }
    {
        match k {
            0 => self.n0,
            1 => self.n1,
            2 => self.n2,
            3 => self.n3,
            _ => 0,
        }
    }
}

// The number of words before a row's first zero.
pub fn rank_of(row: Row) -> usize
    ensures { result ≡ length (extents_of (list_of row)) }
{
    if row.r0 == 0 {
        return 0;
    }
    if row.r1 == 0 {
        return 1;
    }
    if row.r2 == 0 {
        return 2;
    }
    if row.r3 == 0 {
        return 3;
    }
    4
}

// The words of a shape as a row.
impl From<Shape> for Row {
    ghost from_gives = { λ s r. list_of r ≡ words_in s };

    fn from(s: Shape) -> Row {
        Row {
            r0: s.n0 as usize,
            r1: s.n1 as usize,
            r2: s.n2 as usize,
            r3: s.n3 as usize,
        }
    }
}

// The number of extents.
pub fn rank(s: Shape) -> usize
    ensures { result ≡ length (shown s) }
{
    rank_of(Row::from(s))
}

// The words of a row as a shape. No TryFrom: the rules have found that they fit, and a refusal here would never be given.
pub fn narrow(row: Row) -> Shape
    requires { Narrow row }
    ensures { words_in result ≡ list_of row }
{
    Shape {
        n0: row.r0 as u32,
        n1: row.r1 as u32,
        n2: row.r2 as u32,
        n3: row.r3 as u32,
    }
}

// The shape whose word for axis k is the function's.
pub fn shape_of<F: Fn(usize) -> u32>(word: F) -> Shape
    requires { F.IsAlwaysCallable word }
    ensures { (p : ℕ → ℕ) → ((k w : ℕ) → F.post word k w → w ≡ p k) → words_in result ≡ tab 4 p }
{
    Shape {
        n0: word(0),
        n1: word(1),
        n2: word(2),
        n3: word(3),
    }
}

// A word of a row, 0 past its four.
pub fn word(row: Row, k: usize) -> usize
    ensures { result ≡ word_of (list_of row) k }
{
    match k {
        0 => row.r0,
        1 => row.r1,
        2 => row.r2,
        3 => row.r3,
        _ => 0,
    }
}

// The test holds of each axis below n.
pub fn all_below<F: Fn(usize) -> bool>(n: usize, holds: F) -> bool
    requires { F.IsAlwaysCallable holds }
    ensures { (p : ℕ → Bool) → ((k : ℕ) (b : Bool) → k < n → F.post holds k b → b ≡ p k) → result ≡ all_below n p }
{
    for k in 0..n {
        if !holds(k) {
            return false;
        }
    }
    true
}

// A row of rank words that pass the test, then zeros.
fn row_of<F: Fn(usize) -> bool>(rank: usize, row: Row, passes: F) -> bool
    requires { F.IsAlwaysCallable passes }
    ensures { (p : ℕ → Bool) → ((w : ℕ) (b : Bool) → F.post passes w b → b ≡ p w) → result ≡ row_of p rank (list_of row) }
{
    all_below(4, |k| {
        let w = word(row, k);
        if k < rank { passes(w) } else { w == 0 }
    })
}

// Offsets of 0..1048576, then zeros.
pub fn is_offset_row(rank: usize, row: Row) -> bool
    ensures { result ≡ is_offset_row rank (list_of row) }
{
    row_of(rank, row, |offset| offset <= 1048576)
}

// Extents of 1..1048576, then zeros.
pub fn is_shape_row(row: Row) -> bool
    ensures { result ≡ is_shape_row (list_of row) }
{
    is_offset_row(rank_of(row), row)
}

// Flags, then zeros.
pub fn is_flag_row(rank: usize, row: Row) -> bool
    ensures { result ≡ is_flag_row rank (list_of row) }
{
    row_of(rank, row, |flag| flag <= 1)
}

// k is once among the first words of the row.
fn is_once(k: usize, rank: usize, row: Row) -> bool
    requires { rank ≤ 4 }
    ensures { result ≡ eqb (occurrences k (take rank (list_of row))) 1 }
{
    let mut times = 0usize;
    for j in 0..rank {
        if word(row, j) == k {
            times += 1;
        }
    }
    times == 1
}

// The axes 0..rank-1 once each, then zeros.
pub fn is_permutation(rank: usize, row: Row) -> bool
    ensures { result ≡ is_permutation rank (list_of row) }
{
    if 4 < rank {
        return false;
    }
    row_of(rank, row, |axis| axis < rank) & all_below(rank, |k| is_once(k, rank, row))
}

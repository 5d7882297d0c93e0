// Binary operations and WHERE: each element of a result from two or three views, a row at a time: its flags, its numbers whatever the flags are, then 0
// in the gaps.
#![tactic(auto)]

ghost use Rattle.std.specs.Prelude.{◌≡◌, true, ℕ, ◌+◌, ◌^◌, ◌≤◌, ◌<◌, ℤ, pos, length, get_or, if◌then◌else◌};
ghost use Rattle.laws.specs.Integers.{same_z};
ghost use Rattle.laws.specs.Store.{store};
ghost use Rattle.plan.specs.Coded.{number_of};
ghost use Rattle.views.specs.Views.{cells_of, reach};
ghost use Rattle.views.specs.Numbers.{SmallSeen};
ghost use Rattle.validity.specs.Flags.{mix_flag, mixed_flags};
ghost use Rattle.validity.specs.Lines.{Before, along, cell_place, last_place};
ghost use Rattle.elementwise.specs.Mixing.{Mixes, plain_value, mix_value, numbers_along, mixed_values, SmallAlong, Sources, Rising, lines_from};

use arithmetic::{
    ByPower, Different, Greatest, Least, Less, Mix, Product, Quotient, Remainder, Sum,
};
use plan::Operation;
use validity::Lines;
use views::{Grid, Line, View};

// How many cells of a row go through its loops together.
const PART: usize = 1024;

// WHERE: the second number where the first is not 0, else the third.
struct Chosen;

impl Mix for Chosen {
    ghost mixed = { λ x y z. if same_z x (pos 0) then z else y };

    fn mix(x: i64, y: i64, z: i64) -> i64 {
        if x == 0 { z } else { y }
    }
}

// The numbers of a row. It is called with steps written out, so that each operation has a loop of its own for them.
fn row_values<M: Mix>(values: &mut [i64], lines: Lines, n: usize, to: usize)
    requires { Sources values.old lines n to × (to + n ≤ length values.old) }
    ensures { values.new ≡ store values.old to n (λ (j : ℕ). numbers_along M.mixed values.old lines n j) }
{
    for i in 0..n {
        let (x, y, z) = lines.read(values, n, i);
        values[to + i] = M::mix(x, y, z);
    }
}

// The same, where each line goes from place to place, where only the first does and the others stay, where only the first stays, and in other ways.
fn values_by_steps<M: Mix>(values: &mut [i64], lines: Lines, n: usize, to: usize)
    requires { Sources values.old lines n to × (to + n ≤ length values.old) }
    ensures { values.new ≡ store values.old to n (λ (j : ℕ). numbers_along M.mixed values.old lines n j) }
{
    if lines.are_stepping(1, 1) {
        row_values::<M>(values, lines.stepping(1, 1), n, to);
    } else if lines.are_stepping(1, 0) {
        row_values::<M>(values, lines.stepping(1, 0), n, to);
    } else if lines.are_stepping(0, 1) {
        row_values::<M>(values, lines.stepping(0, 1), n, to);
    } else {
        row_values::<M>(values, lines, n, to);
    }
}

// The numbers along a line divided by 2^k.
fn power_values<P: ByPower>(values: &mut [i64], line: Line, k: u32, n: usize, to: usize)
    requires { (k < 32) × (last_place n line < to) × (to + n ≤ length values.old) × SmallAlong values.old n line }
    ensures { (z : ℕ → ℤ) → values.new ≡ store values.old to n (λ (j : ℕ). P.mixed (get_or values.old (cell_place n line j) (pos 0)) (pos (2 ^ k)) (z j)) }
{
    for i in 0..n {
        values[to + i] = P::by_power(values[line.at(n, i)], k);
    }
}

// The same; divided by one power of two they are shifted.
fn divided_values<P: ByPower>(values: &mut [i64], lines: Lines, n: usize, to: usize)
    requires { Sources values.old lines n to × (to + n ≤ length values.old) }
    ensures { values.new ≡ store values.old to n (λ (j : ℕ). numbers_along P.mixed values.old lines n j) }
{
    if lines.are_stepping(1, 0) {
        let k = arithmetic::exponent(values[lines.b.place]);
        if k < 32 {
            power_values::<P>(values, Line::unit(lines.a.place), k, n, to);
            return;
        }
    }
    values_by_steps::<P>(values, lines, n, to);
}

// The numbers of a row, by the operation.
#[tactic(auto, unfolding(crate::specs::Mixing::plain_value, cells::specs::Cells::binary, laws::specs::Lists::among))]
fn plain_row(values: &mut [i64], op: Operation, lines: Lines, n: usize, to: usize)
    requires { Mixes op × Sources values.old lines n to × (to + n ≤ length values.old) }
    ensures { values.new ≡ store values.old to n (λ (j : ℕ). numbers_along (plain_value (number_of op)) values.old lines n j) }
{
    match op {
        Operation::Add => values_by_steps::<Sum>(values, lines, n, to),
        Operation::Mul => values_by_steps::<Product>(values, lines, n, to),
        Operation::Max | Operation::Or => values_by_steps::<Greatest>(values, lines, n, to),
        Operation::Idiv => divided_values::<Quotient>(values, lines, n, to),
        Operation::Mod => divided_values::<Remainder>(values, lines, n, to),
        Operation::CmpLt => values_by_steps::<Less>(values, lines, n, to),
        Operation::CmpNe => values_by_steps::<Different>(values, lines, n, to),
        Operation::And => values_by_steps::<Least>(values, lines, n, to),
        _ => values_by_steps::<Chosen>(values, lines, n, to),
    }
}

// The cells of a row.
fn mix_row(values: &mut [i64], flags: &mut [u8], op: Operation, lines: Lines, n: usize, to: usize)
    requires { Mixes op × Sources values.old lines n to × (to + n ≤ length values.old) × (to + n ≤ length flags.old) }
    ensures { (values.new ≡ store values.old to n (λ (j : ℕ). along (mix_value (number_of op)) values.old flags.old lines n j)) × (flags.new ≡ store flags.old to n (λ (j : ℕ). along (mix_flag (number_of op)) values.old flags.old lines n j)) }
{
    validity::mix_row_flags(values, flags, op, lines, n, to);
    plain_row(values, op, lines, n, to);
    match op {
        Operation::Where => validity::clear_row(values, flags, lines.a, n, to),
        _ => validity::clear_own(values, flags, n, to),
    }
}

// No line goes down.
fn rising(lines: Lines) -> bool
    ensures { result ≡ true → Rising lines }
{
    (lines.a.stride.down == 0) & ((lines.b.stride.down == 0) & (lines.d.stride.down == 0))
}

// Lines of n cells from cell i on.
fn lines_from(lines: Lines, n: usize, i: usize) -> Lines
    requires { Before lines n (2 ^ 64) × (i < n) }
    ensures { result ≡ lines_from lines n i }
{
    let Lines { a, b, d } = lines;
    let k = a.at(n, i);
    let l = b.at(n, i);
    let m = d.at(n, i);
    Lines {
        a: Line {
            place: k,
            stride: a.stride,
        },
        b: Line {
            place: l,
            stride: b.stride,
        },
        d: Line {
            place: m,
            stride: d.stride,
        },
    }
}

// The cells of a row in parts: what one loop leaves in the nearest cache the next finds there.
fn mix_parts(values: &mut [i64], flags: &mut [u8], op: Operation, lines: Lines, n: usize, to: usize)
    requires { Rising lines × Mixes op × Sources values.old lines n to × (to + n ≤ length values.old) × (to + n ≤ length flags.old) }
    ensures { (values.new ≡ store values.old to n (λ (j : ℕ). along (mix_value (number_of op)) values.old flags.old lines n j)) × (flags.new ≡ store flags.old to n (λ (j : ℕ). along (mix_flag (number_of op)) values.old flags.old lines n j)) }
{
    for part in 0..n.div_ceil(PART) {
        let i = part * PART;
        let m = (n - i).min(PART);
        mix_row(values, flags, op, lines_from(lines, n, i), m, to + i);
    }
}

// The cells of a row, in parts where it is longer than one: the lines of a part are made anew, which a short row has no use for.
fn mix_long_row(
    values: &mut [i64],
    flags: &mut [u8],
    op: Operation,
    lines: Lines,
    n: usize,
    to: usize,
)
    requires { Mixes op × Sources values.old lines n to × (to + n ≤ length values.old) × (to + n ≤ length flags.old) }
    ensures { (values.new ≡ store values.old to n (λ (j : ℕ). along (mix_value (number_of op)) values.old flags.old lines n j)) × (flags.new ≡ store flags.old to n (λ (j : ℕ). along (mix_flag (number_of op)) values.old flags.old lines n j)) }
{
    if (PART < n) & rising(lines) {
        mix_parts(values, flags, op, lines, n, to);
    } else {
        mix_row(values, flags, op, lines, n, to);
    }
}

// The cells of every row of three views.
pub fn mix(
    values: &mut [i64],
    flags: &mut [u8],
    op: Operation,
    grid: Grid,
    a: View,
    b: View,
    d: View,
    start: usize,
)
    requires { Mixes op × (reach grid.extents a < start) × (reach grid.extents b < start) × (reach grid.extents d < start) × (start + cells_of grid.extents ≤ length values.old) × (start + cells_of grid.extents ≤ length flags.old) × SmallSeen values.old grid.extents a × SmallSeen values.old grid.extents b }
    ensures { (values.new ≡ mixed_values (number_of op) values.old flags.old grid.extents a b d start) × (flags.new ≡ mixed_flags (number_of op) values.old flags.old grid.extents a b d start) }
{
    let g = grid.extents;
    let n = g.r3;
    for i in 0..grid.rows {
        let lines = Lines {
            a: a.row(g, i),
            b: b.row(g, i),
            d: d.row(g, i),
        };
        mix_long_row(values, flags, op, lines, n, start + i * n);
    }
}

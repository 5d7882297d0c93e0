// The flags of binary operations and WHERE, a row at a time, from three sources; and the numbers of a row under its flags.
#![tactic(auto)]

ghost use Rattle.std.specs.Prelude.{◌≡◌, true, cond, ◌&&◌, eqb, ℕ, ◌+◌, ◌≤◌, ◌<◌, ◌^◌, ℤ, pos, length, get_or};
ghost use Rattle.laws.specs.Lists.{tab};
ghost use Rattle.laws.specs.Store.{store};
ghost use Rattle.plan.specs.Coded.{number_of};
ghost use Rattle.plan.specs.Operations.{ADD, WHERE};
ghost use Rattle.views.specs.Views.{stride_of, step, span};
ghost use Rattle.validity.specs.Flags.{mix_flag, side_of, side_flag, chosen_flag, cleared_value};
ghost use Rattle.validity.specs.Lines.{Before, along, cell_place, last_place, stepping};

use plan::Operation;
use views::{Line, Stride};

// The cells of three sources along a row; a binary operation looks at two.
#[derive(Clone, Copy)]
pub struct Lines {
    pub a: Line,
    pub b: Line,
    pub d: Line,
}

// The line steps upwards by this much.
fn steps_by(l: Line, up: usize) -> bool
    ensures { result ≡ true → l ≡ record { place = l.place; stride = stride_of up 0 } }
{
    (l.stride.up == up) & (l.stride.down == 0)
}

impl Lines {
    // From the same places, with steps of x along the first and of y along the other two.
    pub fn stepping(self, x: usize, y: usize) -> Lines
        ensures { result ≡ stepping self x y }
    {
        let Lines { a, b, d } = self;
        let first = Stride { up: x, down: 0 };
        let others = Stride { up: y, down: 0 };
        Lines {
            a: Line {
                place: a.place,
                stride: first,
            },
            b: Line {
                place: b.place,
                stride: others,
            },
            d: Line {
                place: d.place,
                stride: others,
            },
        }
    }

    // These are their steps.
    pub fn are_stepping(self, x: usize, y: usize) -> bool
        ensures { result ≡ true → self ≡ stepping self x y }
    {
        steps_by(self.a, x) & (steps_by(self.b, y) & steps_by(self.d, y))
    }

    // What stands at cell i of n.
    pub fn read<T: Copy>(self, cells: &[T], n: usize, i: usize) -> (T, T, T)
        requires { (i < n) × Before self n (length cells.now) }
        ensures { (none : T) → result ≡ (get_or cells.now (cell_place n self.a i) none, get_or cells.now (cell_place n self.b i) none, get_or cells.now (cell_place n self.d i) none) }
    {
        let k = self.a.at(n, i);
        let l = self.b.at(n, i);
        let m = self.d.at(n, i);
        (cells[k], cells[l], cells[m])
    }
}

// The flag of a result cell.
fn mix_flag(op: Operation, x: i64, f: u8, g: u8, h: u8) -> u8
    ensures { (y z : ℤ) → result ≡ mix_flag (number_of op) x f y g z h }
{
    match op {
        Operation::Where => side_flag(side(x), f, g, h),
        _ => both_flag(f, g),
    }
}

// The flags of a row.
fn row_flags(values: &[i64], flags: &mut [u8], op: Operation, lines: Lines, n: usize, to: usize)
    requires { Before lines n to × (to + n ≤ length values.now) × (to + n ≤ length flags.old) }
    ensures { flags.new ≡ store flags.old to n (λ (j : ℕ). along (mix_flag (number_of op)) values.now flags.old lines n j) }
{
    for i in 0..n {
        let x = values[lines.a.at(n, i)];
        let (f, g, h) = lines.read(flags, n, i);
        flags[to + i] = mix_flag(op, x, f, g, h);
    }
}

// The flags of a row of a binary operation, all of which have those of ADD. Each way to step is a loop of its own.
fn both_flags(values: &[i64], flags: &mut [u8], lines: Lines, n: usize, to: usize)
    requires { Before lines n to × (to + n ≤ length values.now) × (to + n ≤ length flags.old) }
    ensures { flags.new ≡ store flags.old to n (λ (j : ℕ). along (mix_flag ADD) values.now flags.old lines n j) }
{
    let op = Operation::Add;
    if lines.are_stepping(1, 1) {
        row_flags(values, flags, op, lines.stepping(1, 1), n, to);
    } else if lines.are_stepping(1, 0) {
        row_flags(values, flags, op, lines.stepping(1, 0), n, to);
    } else if lines.are_stepping(0, 1) {
        row_flags(values, flags, op, lines.stepping(0, 1), n, to);
    } else {
        row_flags(values, flags, op, lines, n, to);
    }
}

// Which source a WHERE takes: 1 is the second, 0 the third.
fn side(x: i64) -> u8
    ensures { result ≡ side_of x }
{
    if x == 0 { 0 } else { 1 }
}

// The flag of the side taken; 0 where the condition is a gap.
fn side_flag(s: u8, f: u8, g: u8, h: u8) -> u8
    ensures { result ≡ side_flag s f g h }
{
    if f != 1 {
        0
    } else if s == 0 {
        h
    } else {
        g
    }
}

// The flag of a binary operation.
fn both_flag(f: u8, g: u8) -> u8
    ensures { result ≡ cond (eqb f 1 && eqb g 1) 1 0 }
{
    if (f == 1) & (g == 1) { 1 } else { 0 }
}

// The sides of a row of a WHERE, in the places of its flags: the numbers are read in a loop of their own, and the flags after it are all of one width.
fn row_sides(values: &[i64], flags: &mut [u8], line: Line, n: usize, to: usize)
    requires { (last_place n line < to) × (to + n ≤ length values.now) × (to + n ≤ length flags.old) }
    ensures { flags.new ≡ store flags.old to n (λ (j : ℕ). side_of (get_or values.now (cell_place n line j) (pos 0))) }
{
    for i in 0..n {
        flags[to + i] = side(values[line.at(n, i)]);
    }
}

// The sides of the eight cells from place p on.
fn read_sides(values: &[i64], p: usize) -> [u8; 8]
    requires { p + 8 ≤ length values.now }
    ensures { result ≡ tab 8 (λ (j : ℕ). side_of (get_or values.now (p + j) (pos 0))) }
{
    let mut sides = [0; 8];
    for i in 0..8 {
        sides[i] = side(values[p + i]);
    }
    sides
}

// The sides of eight cells: all are read before one is written, so that the machine finds them together.
fn eight_sides(values: &[i64], flags: &mut [u8], p: usize, to: usize)
    requires { (p + 8 ≤ length values.now) × (to + 8 ≤ length flags.old) }
    ensures { flags.new ≡ store flags.old to 8 (λ (j : ℕ). side_of (get_or values.now (p + j) (pos 0))) }
{
    flags[to..to + 8].copy_from_slice(&read_sides(values, p));
}

// The sides of a row of a WHERE that goes from place to place.
fn unit_sides(values: &[i64], flags: &mut [u8], p: usize, n: usize, to: usize)
    requires { (p + span n (stride_of 1 0) < to) × (to + n ≤ length values.now) × (to + n ≤ length flags.old) }
    ensures { flags.new ≡ store flags.old to n (λ (j : ℕ). side_of (get_or values.now (p + step n (stride_of 1 0) j) (pos 0))) }
{
    for i in 0..n / 8 {
        eight_sides(values, flags, p + i * 8, to + i * 8);
    }
    let done = n / 8 * 8;
    row_sides(values, flags, Line::unit(p + done), n % 8, to + done);
}

// The flags of a row of a WHERE, where its sides are.
fn row_chosen(flags: &mut [u8], lines: Lines, n: usize, to: usize)
    requires { Before lines n to × (to + n ≤ length flags.old) }
    ensures { flags.new ≡ store flags.old to n (λ (j : ℕ). chosen_flag flags.old (to + j) (cell_place n lines.a j) (cell_place n lines.b j) (cell_place n lines.d j)) }
{
    for i in 0..n {
        let (f, g, h) = lines.read(flags, n, i);
        flags[to + i] = side_flag(flags[to + i], f, g, h);
    }
}

// The flags of a row of a WHERE. Where its three lines go from place to place, the sides are written first and then chosen by, without a branch; so too
// where the condition stays in its place along the row and the other two lines go on: what it is in one row tells nothing of the next.
fn where_flags(values: &[i64], flags: &mut [u8], lines: Lines, n: usize, to: usize)
    requires { Before lines n to × (to + n ≤ length values.now) × (to + n ≤ length flags.old) }
    ensures { flags.new ≡ store flags.old to n (λ (j : ℕ). along (mix_flag WHERE) values.now flags.old lines n j) }
{
    if lines.are_stepping(1, 1) {
        unit_sides(values, flags, lines.a.place, n, to);
        row_chosen(flags, lines.stepping(1, 1), n, to);
    } else if lines.are_stepping(0, 1) {
        let lines = lines.stepping(0, 1);
        row_sides(values, flags, lines.a, n, to);
        row_chosen(flags, lines, n, to);
    } else {
        row_flags(values, flags, Operation::Where, lines, n, to);
    }
}

// The flags of a row.
pub fn mix_row_flags(
    values: &[i64],
    flags: &mut [u8],
    op: Operation,
    lines: Lines,
    n: usize,
    to: usize,
)
    requires { Before lines n to × (to + n ≤ length values.now) × (to + n ≤ length flags.old) }
    ensures { flags.new ≡ store flags.old to n (λ (j : ℕ). along (mix_flag (number_of op)) values.now flags.old lines n j) }
{
    match op {
        Operation::Where => where_flags(values, flags, lines, n, to),
        _ => both_flags(values, flags, lines, n, to),
    }
}

// Whether n flags are from `low` to 1. Every flag is looked at, since a loop that stops at the first other one is slower: it tests one at a time.
pub fn flags_from(flags: &[u8], n: usize, p: usize, low: u8) -> bool
    requires { p + n ≤ length flags.now }
    ensures { result ≡ true → (j : ℕ) → j < n → (low ≤ get_or flags.now (p + j) 0) × (get_or flags.now (p + j) 0 ≤ 1) }
{
    let mut all = true;
    for i in 0..n {
        let f = flags[p + i];
        all &= (low <= f) & (f <= 1);
    }
    all
}

// A number under a flag.
fn cleared(f: u8, x: i64) -> i64
    ensures { result ≡ cleared_value f x }
{
    if f == 1 { x } else { 0 }
}

// The numbers of a row made 0 where the flags along a line are gaps.
fn clear_gaps(values: &mut [i64], flags: &[u8], line: Line, n: usize, to: usize)
    requires { (0 < n → last_place n line < length flags.now) × (to + n ≤ length values.old) }
    ensures { values.new ≡ store values.old to n (λ (j : ℕ). cleared_value (get_or flags.now (cell_place n line j) 0) (get_or values.old (to + j) (pos 0))) }
{
    for i in 0..n {
        values[to + i] = cleared(flags[line.at(n, i)], values[to + i]);
    }
}

// The same; where no gap is there is nothing to do.
pub fn clear_row(values: &mut [i64], flags: &[u8], line: Line, n: usize, to: usize)
    requires { (last_place n line < length flags.now) × (to + n ≤ length values.old) }
    ensures { values.new ≡ store values.old to n (λ (j : ℕ). cleared_value (get_or flags.now (cell_place n line j) 0) (get_or values.old (to + j) (pos 0))) }
{
    if !steps_by(line, 1) {
        clear_gaps(values, flags, line, n, to);
    } else if !flags_from(flags, n, line.place, 1) {
        clear_gaps(values, flags, Line::unit(line.place), n, to);
    }
}

// The same by the row's own flags.
pub fn clear_own(values: &mut [i64], flags: &[u8], n: usize, to: usize)
    requires { (to + n ≤ length values.old) × (to + n ≤ length flags.now) }
    ensures { values.new ≡ store values.old to n (λ (j : ℕ). cleared_value (get_or flags.now (to + j) 0) (get_or values.old (to + j) (pos 0))) }
{
    if !flags_from(flags, n, to, 1) {
        clear_gaps(values, flags, Line::unit(to), n, to);
    }
}

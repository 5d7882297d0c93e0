// Views: where each element of a result finds its source in a buffer, by strides.
#![tactic(auto)]

ghost use Rattle.std.specs.Prelude.{◌≡◌, cond, ◌++◌, ℕ, ◌+◌, ◌*◌, ◌-◌, ◌^◌, ◌≤◌, ◌<◌, length, take, replicate, get_or};
ghost use Rattle.plan.specs.Words.{list_of};
ghost use Rattle.shapes.specs.Shown.{shown};
ghost use Rattle.views.specs.Views.{stride_of, step, span, row_place, row_reach, reach, rows_of};
ghost use Rattle.views.specs.Strides.{Extents, strides_of, dot_of, up_by, masked_view, spread_view, flip_stride, flip_view, shrink_view, permute_view, kept_view, gathered_view, axes_in_front};
ghost use Rattle.views.specs.Merging.{as_long, can_merge, merged_grid, merged_view};

use plan::Row;
use shapes::Shape;

mod grids;

pub use grids::Grid;

// What one step along an axis adds: upwards, or from the far end.
#[derive(Clone, Copy)]
pub struct Stride {
    pub up: usize,
    pub down: usize,
}

// The place of the first element, and the strides of four axes.
#[derive(Clone, Copy)]
pub struct View {
    pub base: usize,
    pub s0: Stride,
    pub s1: Stride,
    pub s2: Stride,
    pub s3: Stride,
}

// What coordinate c adds along an axis of extent n.
pub fn step_at(n: usize, s: Stride, c: usize) -> usize
    requires { (c < n) × (span n s < 2 ^ 64) }
    ensures { (result ≡ step n s c) × (result ≤ span n s) }
{
    c * s.up + (n - 1 - c) * s.down
}

// Cells along one axis: the place of the first, and what a step adds.
#[derive(Clone, Copy)]
pub struct Line {
    pub place: usize,
    pub stride: Stride,
}

impl Line {
    // One cell after another.
    pub fn unit(place: usize) -> Line
        ensures { result ≡ record { place = place; stride = stride_of 1 0 } }
    {
        Line {
            place,
            stride: Stride { up: 1, down: 0 },
        }
    }

    // One cell again and again.
    pub fn still(place: usize) -> Line
        ensures { result ≡ record { place = place; stride = stride_of 0 0 } }
    {
        Line {
            place,
            stride: Stride { up: 0, down: 0 },
        }
    }

    // The place of cell i of n.
    pub fn at(self, n: usize, i: usize) -> usize
        requires { (i < n) × (self.place + span n self.stride < 2 ^ 64) }
        ensures { (result ≡ self.place + step n self.stride i) × (result ≤ self.place + span n self.stride) }
    {
        self.place + step_at(n, self.stride, i)
    }
}

// The place of row i: what the coordinates along the first three axes add.
pub fn row_place(g: Row, v: View, i: usize) -> usize
    requires { (i < rows_of g) × (row_reach g v < 2 ^ 64) }
    ensures { (result ≡ row_place g v i) × (result ≤ row_reach g v) }
{
    let n1 = g.r1;
    let n2 = g.r2;
    let outer = i / n2;
    let p0 = step_at(g.r0, v.s0, outer / n1);
    let p1 = step_at(n1, v.s1, outer % n1);
    let p2 = step_at(n2, v.s2, i % n2);
    v.base + (p0 + (p1 + p2))
}

impl View {
    // The cells of row i.
    pub fn row(self, g: Row, i: usize) -> Line
        requires { (i < rows_of g) × (row_reach g self < 2 ^ 64) }
        ensures { (result ≡ record { place = row_place g self i; stride = self.s3 }) × (result.place ≤ row_reach g self) }
    {
        Line {
            place: row_place(g, self, i),
            stride: self.s3,
        }
    }
}

// A row of the given rank with x in front, so that its last word is the fourth.
fn in_front(row: Row, rank: usize, x: usize) -> Row
    requires { rank ≤ 4 }
    ensures { list_of result ≡ replicate (4 - rank) x ++ take rank (list_of row) }
{
    match rank {
        0 => Row {
            r0: x,
            r1: x,
            r2: x,
            r3: x,
        },
        1 => Row {
            r0: x,
            r1: x,
            r2: x,
            r3: row.r0,
        },
        2 => Row {
            r0: x,
            r1: x,
            r2: row.r0,
            r3: row.r1,
        },
        3 => Row {
            r0: x,
            r1: row.r0,
            r2: row.r1,
            r3: row.r2,
        },
        _ => row,
    }
}

// The grid of a shape: its extents, with 1s in front.
pub fn grid(s: Shape) -> Row
    ensures { list_of result ≡ replicate (4 - length (shown s)) 1 ++ shown s }
{
    in_front(Row::from(s), shapes::rank(s), 1)
}

// Flags or offsets over a grid: those of a row, with 0s in front.
pub fn words(row: Row, rank: usize) -> Row
    requires { rank ≤ 4 }
    ensures { list_of result ≡ replicate (4 - rank) 0 ++ take rank (list_of row) }
{
    in_front(row, rank, 0)
}

// The axes of a permutation over a grid: the axes in front stay.
pub fn axes(row: Row, rank: usize) -> Row
    requires { (rank ≤ 4) × (row.r0 < 4) × (row.r1 < 4) × (row.r2 < 4) × (row.r3 < 4) }
    ensures { list_of result ≡ axes_in_front (4 - rank) (take rank (list_of row)) }
{
    match rank {
        0 => Row {
            r0: 0,
            r1: 1,
            r2: 2,
            r3: 3,
        },
        1 => Row {
            r0: 0,
            r1: 1,
            r2: 2,
            r3: row.r0 + 3,
        },
        2 => Row {
            r0: 0,
            r1: 1,
            r2: row.r0 + 2,
            r3: row.r1 + 2,
        },
        3 => Row {
            r0: 0,
            r1: row.r0 + 1,
            r2: row.r1 + 1,
            r3: row.r2 + 1,
        },
        _ => row,
    }
}

// Row-major strides.
pub fn strides(g: Row) -> Row
    requires { Extents g }
    ensures { result ≡ strides_of g }
{
    let plane = g.r2 * g.r3;
    Row {
        r0: g.r1 * plane,
        r1: plane,
        r2: g.r3,
        r3: 1,
    }
}

// Upwards only.
fn up_by(n: usize) -> Stride
    ensures { result ≡ up_by n }
{
    Stride { up: n, down: 0 }
}

// Upwards, and not at all where it is off.
fn up_if(on: bool, n: usize) -> Stride
    ensures { result ≡ up_by (cond on n 0) }
{
    if on { up_by(n) } else { up_by(0) }
}

// The axes that are on; the others add nothing.
fn masked_view(base: usize, s: Row, o0: bool, o1: bool, o2: bool, o3: bool) -> View
    requires { Extents s }
    ensures { result ≡ masked_view base s o0 o1 o2 o3 }
{
    let t = strides(s);
    View {
        base: base,
        s0: up_if(o0, t.r0),
        s1: up_if(o1, t.r1),
        s2: up_if(o2, t.r2),
        s3: up_if(o3, t.r3),
    }
}

// A source that is broadcast: an extent of 1 serves every coordinate.
pub fn spread_view(base: usize, s: Row) -> View
    requires { Extents s }
    ensures { result ≡ spread_view base s }
{
    masked_view(base, s, s.r0 != 1, s.r1 != 1, s.r2 != 1, s.r3 != 1)
}

// REDUCE: the axes that are kept, where each element of the result begins.
pub fn kept_view(base: usize, s: Row, flags: Row) -> View
    requires { Extents s }
    ensures { result ≡ kept_view base s flags }
{
    masked_view(
        base,
        s,
        flags.r0 != 1,
        flags.r1 != 1,
        flags.r2 != 1,
        flags.r3 != 1,
    )
}

// REDUCE: the axes that are gathered over.
pub fn gathered_view(s: Row, flags: Row) -> View
    requires { Extents s }
    ensures { result ≡ gathered_view s flags }
{
    masked_view(
        0,
        s,
        flags.r0 == 1,
        flags.r1 == 1,
        flags.r2 == 1,
        flags.r3 == 1,
    )
}

// Downwards where it is flagged.
fn flip_stride(flag: usize, n: usize) -> Stride
    ensures { result ≡ flip_stride flag n }
{
    if flag == 1 {
        return Stride { up: 0, down: n };
    }
    up_by(n)
}

// FLIP.
pub fn flip_view(base: usize, s: Row, flags: Row) -> View
    requires { Extents s }
    ensures { result ≡ flip_view base s flags }
{
    let t = strides(s);
    View {
        base: base,
        s0: flip_stride(flags.r0, t.r0),
        s1: flip_stride(flags.r1, t.r1),
        s2: flip_stride(flags.r2, t.r2),
        s3: flip_stride(flags.r3, t.r3),
    }
}

// What coordinates o add, by strides t.
fn dot(o: Row, t: Row) -> usize
    requires { dot_of o t < 2 ^ 63 }
    ensures { result ≡ dot_of o t }
{
    o.r0 * t.r0 + (o.r1 * t.r1 + (o.r2 * t.r2 + o.r3 * t.r3))
}

// SHRINK: it begins at the offsets.
pub fn shrink_view(base: usize, s: Row, o: Row) -> View
    requires { Extents s × (base + dot_of o (strides_of s) < 2 ^ 63) }
    ensures { result ≡ shrink_view base s o }
{
    let first = base + dot(o, strides(s));
    masked_view(first, s, true, true, true, true)
}

// Word k of a row; 0 past its end.
fn word(row: Row, k: usize) -> usize
    ensures { result ≡ get_or (list_of row) k 0 }
{
    match k {
        0 => row.r0,
        1 => row.r1,
        2 => row.r2,
        3 => row.r3,
        _ => 0,
    }
}

// PERMUTE: result axis k is source axis k of the row.
pub fn permute_view(base: usize, s: Row, row: Row) -> View
    requires { Extents s }
    ensures { result ≡ permute_view base s row }
{
    let t = strides(s);
    View {
        base: base,
        s0: up_by(word(t, row.r0)),
        s1: up_by(word(t, row.r1)),
        s2: up_by(word(t, row.r2)),
        s3: up_by(word(t, row.r3)),
    }
}

// A step of a is as long as n steps of b.
fn as_long(n: usize, a: Stride, b: Stride) -> bool
    requires { (n * b.up < 2 ^ 64) × (n * b.down < 2 ^ 64) }
    ensures { result ≡ as_long n a b }
{
    (a.up == n * b.up) & (a.down == n * b.down)
}

// The last two axes are one for this view.
pub fn can_merge(g: Row, v: View) -> bool
    requires { reach g v < 2 ^ 63 }
    ensures { result ≡ can_merge g v }
{
    if g.r3 == 1 {
        return true;
    }
    if g.r2 == 1 {
        return true;
    }
    as_long(g.r3, v.s2, v.s3)
}

// The last two axes as one, and a 1 in front.
pub fn merged_grid(g: Row) -> Row
    requires { g.r2 * g.r3 < 2 ^ 63 }
    ensures { result ≡ merged_grid g }
{
    Row {
        r0: 1,
        r1: g.r0,
        r2: g.r1,
        r3: g.r2 * g.r3,
    }
}

pub fn merged_view(g: Row, v: View) -> View
    ensures { result ≡ merged_view g v }
{
    let none = up_by(0);
    if g.r3 == 1 {
        let s0 = v.s0;
        let s1 = v.s1;
        let s2 = v.s2;
        return View {
            base: v.base,
            s0: none,
            s1: s0,
            s2: s1,
            s3: s2,
        };
    }
    let s0 = v.s0;
    let s1 = v.s1;
    let s3 = v.s3;
    View {
        base: v.base,
        s0: none,
        s1: s0,
        s2: s1,
        s3: s3,
    }
}

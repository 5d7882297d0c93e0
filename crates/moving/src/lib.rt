// Movement: cells copied by a view, and cells laid within gaps. A cell is a number or a flag.
#![tactic(auto)]

ghost use Rattle.std.specs.Prelude.{◌≡◌, true, ℕ, ◌+◌, ◌^◌, ◌≤◌, ◌<◌, length, get_or};
ghost use Rattle.laws.specs.Store.{store};
ghost use Rattle.views.specs.Views.{step, span, rows_of, cells_of, reach};
ghost use Rattle.views.specs.Walks.{in_band, row_inside, row_start};
ghost use Rattle.moving.specs.Moved.{moved, padded, band_cell, row_cell, Laid};

use plan::Row;
use views::{Grid, Line, Stride, View};

// n cells of a line, one after another. By copy_from_slice it would call memmove, and docs/FORMAT.md allows memcpy and memset alone;
// copy_within takes half as long again on rows of 16.
fn copy<T: Copy>(cells: &mut [T], n: usize, from: Line, to: usize)
    requires { (from.place + span n from.stride < to) × (to + n ≤ length cells.old) }
    ensures { (d : T) → cells.new ≡ store cells.old to n (λ (j : ℕ). get_or cells.old (from.place + step n from.stride j) d) }
{
    for i in 0..n {
        cells[to + i] = cells[from.at(n, i)];
    }
}

// The same, where one place after another is a loop of its own, and one place for all is a fill.
fn copy_row<T: Copy>(cells: &mut [T], n: usize, from: Line, to: usize)
    requires { (from.place + span n from.stride < to) × (to + n ≤ length cells.old) }
    ensures { (d : T) → cells.new ≡ store cells.old to n (λ (j : ℕ). get_or cells.old (from.place + step n from.stride j) d) }
{
    match from.stride {
        Stride { up: 1, down: 0 } => copy(cells, n, Line::unit(from.place), to),
        Stride { up: 0, down: 0 } => {
            let cell = cells[from.place];
            fill(cells, n, to, cell);
        }
        _ => copy(cells, n, from, to),
    }
}

// The cells that a view walks over.
pub fn move_cells<T: Copy>(cells: &mut [T], grid: Grid, v: View, start: usize)
    requires { (reach grid.extents v < start) × (start + cells_of grid.extents ≤ length cells.old) }
    ensures { (d : T) → cells.new ≡ moved d cells.old grid.extents v start }
{
    let g = grid.extents;
    for i in 0..grid.rows {
        copy_row(cells, g.r3, v.row(g, i), start + i * g.r3);
    }
}

// Coordinate c lies among the n from o on.
pub fn in_band(o: usize, n: usize, c: usize) -> bool
    requires { o + n < 2 ^ 63 }
    ensures { result ≡ in_band o n c }
{
    (o <= c) & (c < o + n)
}

// Row i of a result of grid r has cells of a source of grid s laid at offsets o.
pub fn row_inside(r: Row, o: Row, s: Row, i: usize) -> bool
    requires { Laid r o s × (i < rows_of r) }
    ensures { result ≡ row_inside r o s i }
{
    let n1 = r.r1;
    let n2 = r.r2;
    let outer = i / n2;
    let in0 = in_band(o.r0, s.r0, outer / n1);
    let in1 = in_band(o.r1, s.r1, outer % n1);
    let in2 = in_band(o.r2, s.r2, i % n2);
    in0 & (in1 & in2)
}

// Where the source's cells of row i begin.
pub fn row_start(r: Row, o: Row, s: Row, base: usize, i: usize) -> usize
    requires { Laid r o s × (i < rows_of r) × (row_inside r o s i ≡ true) × (base + cells_of s < 2 ^ 64) }
    ensures { (result ≡ row_start r o s base i) × (result + s.r3 ≤ base + cells_of s) }
{
    let n1 = r.r1;
    let n2 = r.r2;
    let outer = i / n2;
    let t = views::strides(s);
    let p0 = (outer / n1 - o.r0) * t.r0;
    let p1 = (outer % n1 - o.r1) * t.r1;
    let p2 = (i % n2 - o.r2) * t.r2;
    base + (p0 + (p1 + p2))
}

// n cells that are all the same. A slice's fill asks what a clone of the cell is, which T: Copy does not say.
pub fn fill<T: Copy>(cells: &mut [T], n: usize, to: usize, cell: T)
    requires { to + n ≤ length cells.old }
    ensures { cells.new ≡ store cells.old to n (λ (j : ℕ). cell) }
{
    for i in 0..n {
        cells[to + i] = cell;
    }
}

// n cells from p on, among width of which the others are gaps.
fn lay_band<T: Copy>(
    cells: &mut [T],
    gap: T,
    before: usize,
    n: usize,
    width: usize,
    p: usize,
    to: usize,
)
    requires { (before + n ≤ width) × (p + n ≤ to) × (0 < n) × (to + width ≤ length cells.old) }
    ensures { cells.new ≡ store cells.old to width (band_cell gap cells.old before n p) }
{
    fill(cells, before, to, gap);
    copy(cells, n, Line::unit(p), to + before);
    fill(cells, width - before - n, to + before + n, gap);
}

// Row i of a source laid within gaps.
fn lay_row<T: Copy>(
    cells: &mut [T],
    gap: T,
    r: Row,
    o: Row,
    s: Row,
    base: usize,
    i: usize,
    to: usize,
)
    requires { Laid r o s × (i < rows_of r) × (base + cells_of s ≤ to) × (to + r.r3 ≤ length cells.old) }
    ensures { cells.new ≡ store cells.old to r.r3 (row_cell gap cells.old r o s base i) }
{
    if !row_inside(r, o, s, i) {
        fill(cells, r.r3, to, gap);
        return;
    }
    let p = row_start(r, o, s, base, i);
    lay_band(cells, gap, o.r3, s.r3, r.r3, p, to);
}

// A source laid within gaps.
pub fn lay_cells<T: Copy>(
    cells: &mut [T],
    gap: T,
    grid: Grid,
    o: Row,
    s: Row,
    base: usize,
    start: usize,
)
    requires { Laid grid.extents o s × (base + cells_of s ≤ start) × (start + cells_of grid.extents ≤ length cells.old) }
    ensures { cells.new ≡ padded gap cells.old grid.extents o s base start }
{
    let r = grid.extents;
    for i in 0..grid.rows {
        lay_row(cells, gap, r, o, s, base, i, start + i * r.r3);
    }
}

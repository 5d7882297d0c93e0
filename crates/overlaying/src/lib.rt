// FILL and KNOWN: one view's cells laid over another's, and flags as numbers.
#![tactic(auto)]

ghost use Rattle.std.specs.Prelude.{◌≡◌, ℕ, ◌+◌, ◌≤◌, ◌<◌, pos, length, get_or};
ghost use Rattle.laws.specs.Store.{store};
ghost use Rattle.views.specs.Views.{step, span, cells_of, place, reach};
ghost use Rattle.overlaying.specs.Overlay.{over, over_cell, overlaid_values, overlaid_flags};

use views::{Grid, Line, Stride, View};

// The cell that is known, else the one below it.
fn upper<T: Copy>(f: u8, x: T, y: T) -> T
    ensures { result ≡ over f x y }
{
    if f == 1 { x } else { y }
}

// n cells of a line laid over those of another.
fn overlay_line<T: Copy>(
    out: &mut [T],
    cells: &[T],
    flags: &[u8],
    n: usize,
    a: Line,
    b: Line,
    to: usize,
)
    requires { (a.place + span n a.stride < length cells.now) × (b.place + span n b.stride < length cells.now) × (length cells.now ≤ length flags.now) × (to + n ≤ length out.old) }
    ensures { (d : T) → out.new ≡ store out.old to n (λ (j : ℕ). over_cell d cells.now flags.now (a.place + step n a.stride j) (b.place + step n b.stride j)) }
{
    for i in 0..n {
        let k = a.at(n, i);
        out[to + i] = upper(flags[k], cells[k], cells[b.at(n, i)]);
    }
}

// The same, where one place after another over one place after another, or over one place for all, is a loop of its own.
fn overlay_row<T: Copy>(
    out: &mut [T],
    cells: &[T],
    flags: &[u8],
    n: usize,
    a: Line,
    b: Line,
    to: usize,
)
    requires { (a.place + span n a.stride < length cells.now) × (b.place + span n b.stride < length cells.now) × (length cells.now ≤ length flags.now) × (to + n ≤ length out.old) }
    ensures { (d : T) → out.new ≡ store out.old to n (λ (j : ℕ). over_cell d cells.now flags.now (a.place + step n a.stride j) (b.place + step n b.stride j)) }
{
    match (a.stride, b.stride) {
        (Stride { up: 1, down: 0 }, Stride { up: 1, down: 0 }) => {
            overlay_line(
                out,
                cells,
                flags,
                n,
                Line::unit(a.place),
                Line::unit(b.place),
                to,
            )
        }
        (Stride { up: 1, down: 0 }, Stride { up: 0, down: 0 }) => {
            overlay_line(
                out,
                cells,
                flags,
                n,
                Line::unit(a.place),
                Line::still(b.place),
                to,
            )
        }
        _ => overlay_line(out, cells, flags, n, a, b, to),
    }
}

// The cells of view a laid over those of view b.
fn overlay<T: Copy>(out: &mut [T], cells: &[T], flags: &[u8], grid: Grid, a: View, b: View)
    requires { (reach grid.extents a < length cells.now) × (reach grid.extents b < length cells.now) × (length cells.now ≤ length flags.now) × (cells_of grid.extents ≤ length out.old) }
    ensures { (d : T) → out.new ≡ store out.old 0 (cells_of grid.extents) (λ (j : ℕ). over_cell d cells.now flags.now (place grid.extents a j) (place grid.extents b j)) }
{
    let g = grid.extents;
    for i in 0..grid.rows {
        overlay_row(out, cells, flags, g.r3, a.row(g, i), b.row(g, i), i * g.r3);
    }
}

// The numbers of view a laid over those of view b.
pub fn overlay_values(values: &mut [i64], flags: &[u8], grid: Grid, a: View, b: View, start: usize)
    requires { (reach grid.extents a < start) × (reach grid.extents b < start) × (start + cells_of grid.extents ≤ length values.old) × (start + cells_of grid.extents ≤ length flags.now) }
    ensures { values.new ≡ overlaid_values values.old flags.now grid.extents a b start }
{
    let (cells, out) = values.split_at_mut(start);
    overlay(out, cells, flags, grid, a, b);
}

// The flags of view a laid over those of view b: where one is known, it is 1.
pub fn overlay_flags(flags: &mut [u8], grid: Grid, a: View, b: View, start: usize)
    requires { (reach grid.extents a < start) × (reach grid.extents b < start) × (start + cells_of grid.extents ≤ length flags.old) }
    ensures { flags.new ≡ overlaid_flags flags.old grid.extents a b start }
{
    let (cells, out) = flags.split_at_mut(start);
    overlay(out, cells, cells, grid, a, b);
}

// n flags from p on, as numbers. Written by place: along `iter_mut().zip(..)` the loop's invariant sees the iterator alone, and the proof did not close.
pub fn known_values(values: &mut [i64], flags: &[u8], n: usize, p: usize, to: usize)
    requires { (p + n ≤ length flags.now) × (to + n ≤ length values.old) }
    ensures { values.new ≡ store values.old to n (λ (j : ℕ). pos (get_or flags.now (p + j) 0)) }
{
    for i in 0..n {
        values[to + i] = i64::from(flags[p + i]);
    }
}

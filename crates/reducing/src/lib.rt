// REDUCE: sums and maxima over the gathered axes. Numbers and flags are folded apart, each buffer in its own loops; then the numbers of gaps
// become 0.
#![tactic(auto)]

ghost use Rattle.std.specs.Prelude.{◌≡◌, ℕ, ◌+◌, ◌*◌, ◌^◌, ◌≤◌, ◌<◌, pos, length, get_or};
ghost use Rattle.laws.specs.Store.{store};
ghost use Rattle.views.specs.Numbers.{SmallIn};
ghost use Rattle.views.specs.Views.{cells_of, place, reach};
ghost use Rattle.reducing.specs.Folding.{fold_from, combine_of, first, source, reduced_flags, reduced_values};
ghost use Rattle.reducing.specs.Gathering.{along, far, taken, runs, AllIn, Room};

use folding::{Fold, Larger, Smaller, Sum};
use views::{Line, Stride};

mod folding;
mod grids;

pub use grids::GridView;

// A run of n cells along a line folded into acc.
fn fold_along<F: Fold>(cells: &[F::Cell], acc: F::Cell, n: usize, line: Line) -> F::Cell
    requires { (far n line < length cells.now) × AllIn F.Fits F.blank cells.now line.place (far n line + 1) × F.HasRoom n acc }
    ensures { result ≡ fold_from F.op acc (λ (i : ℕ). get_or cells.now (along n line i) F.blank) n }
{
    let mut folded = acc;
    for i in 0..n {
        folded = F::combine(folded, cells[line.at(n, i)]);
    }
    folded
}

// The same, where one place after another is a loop of its own.
fn fold_run<F: Fold>(cells: &[F::Cell], acc: F::Cell, n: usize, line: Line) -> F::Cell
    requires { (far n line < length cells.now) × AllIn F.Fits F.blank cells.now line.place (far n line + 1) × F.HasRoom n acc }
    ensures { result ≡ fold_from F.op acc (λ (i : ℕ). get_or cells.now (along n line i) F.blank) n }
{
    match line.stride {
        Stride { up: 1, down: 0 } => fold_along::<F>(cells, acc, n, Line::unit(line.place)),
        _ => fold_along::<F>(cells, acc, n, line),
    }
}

// The line that begins further on.
fn shifted(line: Line, by: usize) -> Line
    requires { line.place + by < 2 ^ 64 }
    ensures { result ≡ record { place = line.place + by; stride = line.stride } }
{
    Line {
        place: line.place + by,
        stride: line.stride,
    }
}

// Each cell of a row of n takes in a run of m.
fn fold_runs<F: Fold>(
    cells: &mut [F::Cell],
    n: usize,
    kept: Line,
    m: usize,
    gathered: Line,
    to: usize,
)
    requires { (far n kept + far m gathered < to) × (to + n ≤ length cells.old) × AllIn F.Fits F.blank cells.old (kept.place + gathered.place) (far n kept + far m gathered + 1) × Room F.HasRoom F.blank cells.old to n m }
    ensures { cells.new ≡ taken F.op F.blank cells.old to n (runs n kept m gathered) m }
{
    for c in 0..n {
        let run = shifted(gathered, kept.at(n, c));
        cells[to + c] = fold_run::<F>(cells, cells[to + c], m, run);
    }
}

// Each cell of a row of n takes in one of a line.
fn take_along<F: Fold>(cells: &mut [F::Cell], n: usize, line: Line, to: usize)
    requires { (far n line < to) × (to + n ≤ length cells.old) × AllIn F.Fits F.blank cells.old line.place (far n line + 1) × Room F.HasRoom F.blank cells.old to n 1 }
    ensures { cells.new ≡ taken F.op F.blank cells.old to n (λ (c i : ℕ). along n line c) 1 }
{
    for c in 0..n {
        cells[to + c] = F::combine(cells[to + c], cells[line.at(n, c)]);
    }
}

// The same, where one place after another is a loop of its own.
fn take_each<F: Fold>(cells: &mut [F::Cell], n: usize, line: Line, to: usize)
    requires { (far n line < to) × (to + n ≤ length cells.old) × AllIn F.Fits F.blank cells.old line.place (far n line + 1) × Room F.HasRoom F.blank cells.old to n 1 }
    ensures { cells.new ≡ taken F.op F.blank cells.old to n (λ (c i : ℕ). along n line c) 1 }
{
    match line.stride {
        Stride { up: 1, down: 0 } => take_along::<F>(cells, n, Line::unit(line.place), to),
        _ => take_along::<F>(cells, n, line, to),
    }
}

// A row of the result and a row of m of what is gathered: where m is 1, cell by cell.
fn fold_row<F: Fold>(
    cells: &mut [F::Cell],
    n: usize,
    kept: Line,
    m: usize,
    gathered: Line,
    to: usize,
)
    requires { (far n kept + far m gathered < to) × (to + n ≤ length cells.old) × AllIn F.Fits F.blank cells.old (kept.place + gathered.place) (far n kept + far m gathered + 1) × Room F.HasRoom F.blank cells.old to n m }
    ensures { cells.new ≡ taken F.op F.blank cells.old to n (runs n kept m gathered) m }
{
    if m == 1 {
        take_each::<F>(cells, n, shifted(kept, gathered.place), to);
        return;
    }
    fold_runs::<F>(cells, n, kept, m, gathered, to);
}

// All rows of the result, and one row of what is gathered.
fn fold_rows<F: Fold>(cells: &mut [F::Cell], kept: GridView, m: usize, gathered: Line, start: usize)
    requires { (reach kept.grid.extents kept.view + far m gathered < start) × (start + cells_of kept.grid.extents ≤ length cells.old) × AllIn F.Fits F.blank cells.old kept.view.base (reach kept.grid.extents kept.view + far m gathered + 1) × Room F.HasRoom F.blank cells.old start (cells_of kept.grid.extents) m }
    ensures { cells.new ≡ taken F.op F.blank cells.old start (cells_of kept.grid.extents) (λ (e i : ℕ). place kept.grid.extents kept.view e + along m gathered i) m }
{
    let n = kept.grid.extents.r3;
    for i in 0..kept.grid.rows {
        let row = kept.row(i);
        fold_row::<F>(cells, n, row, m, gathered, start + i * n);
    }
}

// All rows of what is gathered, one after another.
fn fold_blocks<F: Fold>(cells: &mut [F::Cell], kept: GridView, gathered: GridView, start: usize)
    requires { (reach kept.grid.extents kept.view + reach gathered.grid.extents gathered.view < start) × (start + cells_of kept.grid.extents ≤ length cells.old) × AllIn F.Fits F.blank cells.old kept.view.base (reach kept.grid.extents kept.view + reach gathered.grid.extents gathered.view + 1) × Room F.HasRoom F.blank cells.old start (cells_of kept.grid.extents) (cells_of gathered.grid.extents) }
    ensures { cells.new ≡ taken F.op F.blank cells.old start (cells_of kept.grid.extents) (source kept.grid.extents kept.view gathered.grid.extents gathered.view) (cells_of gathered.grid.extents) }
{
    let m = gathered.grid.extents.r3;
    for j in 0..gathered.grid.rows {
        let run = gathered.row(j);
        fold_rows::<F>(cells, kept, m, run, start);
    }
}

// A sum begins with 0, a maximum with its first number.
fn fold_values(values: &mut [i64], how: usize, kept: GridView, gathered: GridView, start: usize)
    requires { (cells_of gathered.grid.extents ≤ 1048576) × (reach kept.grid.extents kept.view + reach gathered.grid.extents gathered.view < start) × (start + cells_of kept.grid.extents ≤ length values.old) × SmallIn values.old kept.view.base (reach kept.grid.extents kept.view + reach gathered.grid.extents gathered.view + 1) }
    ensures { values.new ≡ store values.old start (cells_of kept.grid.extents) (λ (e : ℕ). fold_from (combine_of how) (first how values.old (place kept.grid.extents kept.view e)) (λ (i : ℕ). get_or values.old (source kept.grid.extents kept.view gathered.grid.extents gathered.view e i) (pos 0)) (cells_of gathered.grid.extents)) }
{
    if how == 0 {
        moving::fill(values, kept.grid.rows * kept.grid.extents.r3, start, 0);
        fold_blocks::<Sum>(values, kept, gathered, start);
        return;
    }
    moving::move_cells(values, kept.grid, kept.view, start);
    fold_blocks::<Larger>(values, kept, gathered, start);
}

// REDUCE. The parameter `how` stays a number: the definition `reduced_values` and the node's word speak of it, and fold_values alone chooses by it.
pub fn reduce(
    values: &mut [i64],
    flags: &mut [u8],
    how: usize,
    kept: GridView,
    gathered: GridView,
    start: usize,
)
    requires { (gathered.view.base ≡ 0) × (0 < cells_of gathered.grid.extents) × (cells_of gathered.grid.extents ≤ 1048576) × (reach kept.grid.extents kept.view + reach gathered.grid.extents gathered.view < start) × (start + cells_of kept.grid.extents ≤ length values.old) × (start + cells_of kept.grid.extents ≤ length flags.old) × SmallIn values.old kept.view.base (reach kept.grid.extents kept.view + reach gathered.grid.extents gathered.view + 1) }
    ensures values_after { values.new ≡ reduced_values how values.old flags.old kept.grid.extents kept.view gathered.grid.extents gathered.view start }
    ensures flags_after { flags.new ≡ reduced_flags flags.old kept.grid.extents kept.view gathered.grid.extents gathered.view start }
{
    moving::move_cells(flags, kept.grid, kept.view, start);
    fold_blocks::<Smaller>(flags, kept, gathered, start);
    fold_values(values, how, kept, gathered, start);
    validity::clear_own(values, flags, kept.grid.rows * kept.grid.extents.r3, start);
}

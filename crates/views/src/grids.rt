// A grid and its rows.
ghost use Rattle.std.specs.Prelude.{◌≡◌, ◌^◌, ◌<◌};
ghost use Rattle.views.specs.Views.{rows_of, cells_of};

use plan::Row;

// Four extents, and how many rows of the last there are.
#[derive(Clone, Copy)]
pub struct Grid {
    pub extents: Row,
    pub rows: usize,
    ghost all_rows: { rows ≡ rows_of extents },
}

impl Grid {
    // The grid of these extents.
    pub fn of(extents: Row) -> Grid
        requires { (0 < cells_of extents) × (cells_of extents < 2 ^ 63) }
        ensures { result.extents ≡ extents }
    {
        let rows = extents.r0 * extents.r1 * extents.r2;
        Grid { extents, rows }
    }
}

// The cells of a grid as a view finds them in a buffer.
ghost use Rattle.std.specs.Prelude.{◌≡◌, ◌^◌, ◌≤◌, ◌<◌};
ghost use Rattle.views.specs.Views.{row_place, row_reach, reach};

use views::{Grid, Line, View};

#[derive(Clone, Copy)]
pub struct GridView {
    pub grid: Grid,
    pub view: View,
}

impl GridView {
    // The cells of row i.
    pub fn row(self, i: usize) -> Line
        requires { (i < self.grid.rows) × (reach self.grid.extents self.view < 2 ^ 64) }
        ensures { (result ≡ record { place = row_place self.grid.extents self.view i; stride = self.view.s3 }) × (result.place ≤ row_reach self.grid.extents self.view) }
    {
        self.view.row(self.grid.extents, i)
    }
}

// Views walked together, and the view of each movement operation.
#![tactic(auto)]

ghost use Rattle.std.specs.Prelude.{◌≡◌, [], ℕ, ◌+◌, ◌*◌, ◌^◌, ◌≤◌, ◌<◌};
ghost use Rattle.laws.specs.Numbering.{count};
ghost use Rattle.plan.specs.Words.{list_of};
ghost use Rattle.shapes.specs.Rules.{result_extents};
ghost use Rattle.shapes.specs.Shown.{shown};
ghost use Rattle.views.specs.Walks.{InFront, Walks};
ghost use Rattle.walking.specs.Alike.{Still, Reaches};
ghost use Rattle.walking.specs.Movements.{viewed_from, Viewed};

use plan::{Node, Operation, Row};
use shapes::Shape;
use views::View;

// Three views over one grid.
#[derive(Clone, Copy)]
pub struct Walk {
    pub grid: Row,
    pub a: View,
    pub b: View,
    pub d: View,
}

// The last two axes as one, where each view lets them be.
fn merge(w: Walk) -> Walk
    requires { Reaches w (2 ^ 63) }
    ensures { Still w result }
{
    if !views::can_merge(w.grid, w.a) {
        return w;
    }
    if !views::can_merge(w.grid, w.b) {
        return w;
    }
    if !views::can_merge(w.grid, w.d) {
        return w;
    }
    Walk {
        grid: views::merged_grid(w.grid),
        a: views::merged_view(w.grid, w.a),
        b: views::merged_view(w.grid, w.b),
        d: views::merged_view(w.grid, w.d),
    }
}

// As few axes as the views let there be.
pub fn settle(w: Walk) -> Walk
    requires { Reaches w (2 ^ 63) }
    ensures { Still w result }
{
    merge(merge(merge(w)))
}

// The view of a PERMUTE, FLIP, EXPAND or SHRINK whose source has shape s and begins at base.
pub fn view_of(x: Node, s: Shape, base: usize) -> View
    requires { Viewed x (shown s) × (base + count (shown s) < 2 ^ 63) }
    ensures { (R : Row) → InFront 1 (result_extents x (shown s) [] []) R → Walks R result base (count (result_extents x (shown s) [] [])) (count (shown s)) (viewed_from x (shown s) (result_extents x (shown s) [] [])) }
{
    let g = views::grid(s);
    let rank = shapes::rank(s);
    match Operation::try_from(x.op) {
        Ok(Operation::Permute) => views::permute_view(base, g, views::axes(x.rowa, rank)),
        Ok(Operation::Flip) => views::flip_view(base, g, views::words(x.rowa, rank)),
        Ok(Operation::Expand) => views::spread_view(base, g),
        _ => views::shrink_view(base, g, views::words(x.rowb, rank)),
    }
}

// The cells of one node, from its sources' cells in the buffers.
#![tactic(auto)]

ghost use Rattle.std.specs.Prelude.{◌≡◌, true, cond, List, [], ℕ, ◌+◌, ◌≤◌, ◌<◌, pos, length, get_or, eqb};
ghost use Rattle.laws.specs.Store.{store};
ghost use Rattle.overlaying.specs.Overlay.{overlaid_values, overlaid_flags};
ghost use Rattle.laws.specs.Lists.{among};
ghost use Rattle.laws.specs.Numbering.{count};
ghost use Rattle.shapes.specs.Rules.{result_extents, gathered_extents};
ghost use Rattle.shapes.specs.Shown.{shown};
ghost use Rattle.views.specs.Views.{cells_of, reach};
ghost use Rattle.moving.specs.Moved.{moved};
ghost use Rattle.plan.specs.Operations.{WHERE, FILL, KNOWN};
ghost use Rattle.plan.specs.Coded.{number_of};
ghost use Rattle.plan.specs.Words.{list_of, reads};
ghost use Rattle.shapes.proofs.Broadcast.{Spreads};
ghost use Rattle.shapes.proofs.Extents.{Positive};
ghost use Rattle.views.specs.Walks.{InFront};
ghost use Rattle.elementwise.specs.Mixing.{mixed_values};
ghost use Rattle.validity.specs.Flags.{mixed_flags};
ghost use Rattle.views.specs.Numbers.{SmallIn, SmallSeen};
ghost use Rattle.walking.specs.Alike.{Near};
ghost use Rattle.evaluation.specs.Ready.{Proper, Right, Ready, Reads};
ghost use Rattle.cells.specs.Nodes.{Operands};
ghost use Rattle.walking.specs.Movements.{Viewed};
ghost use Rattle.evaluation.specs.Standing.{Source, Evaluates, Room, Given, copied, Padded, Reduced, Stacked};
ghost use Rattle.evaluation.specs.Spread.{Spreading, Spread};

use plan::{Node, Operation, Row};
use reducing::GridView;
use shapes::Shape;
use views::{Grid, Stride, View};
use walking::Walk;

// The cells that a view walks over.
fn move_cells(g: Row, v: View, values: &mut [i64], flags: &mut [u8], start: usize)
    requires { (0 < cells_of g) × (reach g v < start) × (start + cells_of g ≤ length values.old) × (start + cells_of g ≤ length flags.old) }
    ensures { (values.new ≡ moved (pos 0) values.old g v start) × (flags.new ≡ moved 0 flags.old g v start) }
{
    let w = walking::settle(Walk {
        grid: g,
        a: v,
        b: v,
        d: v,
    });
    let grid = Grid::of(w.grid);
    moving::move_cells(values, grid, w.a, start);
    moving::move_cells(flags, grid, w.a, start);
}

// PERMUTE, FLIP, EXPAND and SHRINK.
pub fn eval_viewed(
    x: Node,
    s: Shape,
    r: Shape,
    base: usize,
    values: &mut [i64],
    flags: &mut [u8],
    start: usize,
)
    requires { Viewed x (shown s) × (shown r ≡ result_extents x (shown s) [] []) × Room (shown r) start values.old flags.old × (base + count (shown s) ≤ start) }
    ensures { (o : Operands) → Source values.old flags.old base (shown s) o.a → Evaluates x (shown r) o values.old flags.old start values.new flags.new }
{
    let v = walking::view_of(x, s, base);
    move_cells(views::grid(r), v, values, flags, start);
}

// n cells from p on, one after another.
fn copy_cells(n: usize, p: usize, values: &mut [i64], flags: &mut [u8], to: usize)
    requires { (0 < n) × (p + n ≤ to) × (to + n ≤ length values.old) × (to + n ≤ length flags.old) }
    ensures { (values.new ≡ store values.old to n (λ (j : ℕ). get_or values.old (p + j) (pos 0))) × (flags.new ≡ store flags.old to n (λ (j : ℕ). get_or flags.old (p + j) 0)) }
{
    let none = Stride { up: 0, down: 0 };
    let one = Stride { up: 1, down: 0 };
    let g = Row {
        r0: 1,
        r1: 1,
        r2: 1,
        r3: n,
    };
    let v = View {
        base: p,
        s0: none,
        s1: none,
        s2: none,
        s3: one,
    };
    move_cells(g, v, values, flags, to);
}

// RESHAPE, CAST and LOAD: the cells of the source, one after another.
pub fn eval_copied(
    x: Node,
    s: Shape,
    r: Shape,
    base: usize,
    values: &mut [i64],
    flags: &mut [u8],
    start: usize,
)
    requires { (among x.op copied ≡ true) × (count (shown s) ≡ count (shown r)) × (count (shown r) ≤ 1048576) × Room (shown r) start values.old flags.old × (base + count (shown s) ≤ start) }
    ensures { (o : Operands) → Source values.old flags.old base (shown s) o.a → Evaluates x (shown r) o values.old flags.old start values.new flags.new }
{
    copy_cells(shaping::count(r), base, values, flags, start);
}

// PAD.
pub fn eval_padded(
    x: Node,
    s: Shape,
    r: Shape,
    base: usize,
    values: &mut [i64],
    flags: &mut [u8],
    start: usize,
)
    requires { Padded x (shown s) (shown r) × Room (shown r) start values.old flags.old × (base + count (shown s) ≤ start) }
    ensures { (o : Operands) → Source values.old flags.old base (shown s) o.a → Evaluates x (shown r) o values.old flags.old start values.new flags.new }
{
    let g = views::grid(r);
    let inner = views::grid(s);
    let offsets = views::words(x.rowb, shapes::rank(s));
    let grid = Grid::of(g);
    moving::lay_cells(values, 0, grid, offsets, inner, base, start);
    moving::lay_cells(flags, 0, grid, offsets, inner, base, start);
}

// CONST: its number.
pub fn eval_const(x: Node, r: Shape, values: &mut [i64], flags: &mut [u8], start: usize)
    requires { (x.op ≡ 0) × (shown r ≡ []) × Room (shown r) start values.old flags.old }
    ensures { (o : Operands) → Evaluates x (shown r) o values.old flags.old start values.new flags.new }
{
    let number = x.number;
    values[start] = number;
    flags[start] = 1;
}

// PARAM: its input, from place `from` on.
pub fn eval_param(
    x: Node,
    r: Shape,
    given: &[i64],
    known: &[u8],
    from: usize,
    values: &mut [i64],
    flags: &mut [u8],
    start: usize,
)
    requires { (x.op ≡ 1) × (count (shown r) ≤ 1048576) × Room (shown r) start values.old flags.old × (from + count (shown r) ≤ length given.now) × (from + count (shown r) ≤ length known.now) }
    ensures { (o : Operands) → Given given.now known.now from (shown r) o.input → Evaluates x (shown r) o values.old flags.old start values.new flags.new }
{
    let n = shaping::count(r);
    inputs::param_values(values, given, known, from, n, start);
    inputs::param_flags(flags, known, from, n, start);
}

// A source: its shape, and where its cells begin.
#[derive(Clone, Copy)]
pub struct Operand {
    pub shape: Shape,
    pub base: usize,
}

// The view of an operand that is broadcast.
fn operand_view(a: Operand) -> View
    requires { Proper (shown a.shape) }
    ensures { (r : List ℕ) (R : Row) → InFront 1 r R → Positive r → Spreads (shown a.shape) r → Spreading R result a.base (shown a.shape) r }
{
    views::spread_view(a.base, views::grid(a.shape))
}

// The cells of three views, mixed.
fn mix_cells(op: Operation, w: Walk, values: &mut [i64], flags: &mut [u8], start: usize)
    requires { (9 ≤ number_of op) × (number_of op < 19) × Near w start × (0 < cells_of w.grid) × (start + cells_of w.grid ≤ length values.old) × (start + cells_of w.grid ≤ length flags.old) × SmallSeen values.old w.grid w.a × SmallSeen values.old w.grid w.b }
    ensures { (values.new ≡ mixed_values (number_of op) values.old flags.old w.grid w.a w.b w.d start) × (flags.new ≡ mixed_flags (number_of op) values.old flags.old w.grid w.a w.b w.d start) }
{
    let t = walking::settle(w);
    let grid = Grid::of(t.grid);
    elementwise::mix(values, flags, op, grid, t.a, t.b, t.d, start);
}

// The views of the sources of a binary operation or WHERE, over the grid of its result; a binary operation has its second twice.
fn mixed_walk(x: Node, r: Shape, a: Operand, b: Operand, d: Operand) -> Walk
    requires { (9 ≤ x.op) × (x.op < 19) × Right x (shown a.shape) (shown b.shape) (shown d.shape) (shown r) }
    ensures { Spread x (shown a.shape) (shown b.shape) (shown d.shape) (shown r) a.base b.base d.base result }
{
    let grid = views::grid(r);
    let va = operand_view(a);
    let vb = operand_view(b);
    if x.op == Operation::Where as usize {
        let vd = operand_view(d);
        return Walk {
            grid: grid,
            a: va,
            b: vb,
            d: vd,
        };
    }
    Walk {
        grid: grid,
        a: va,
        b: vb,
        d: vb,
    }
}

// ADD to OR, and WHERE.
fn eval_mixed(
    op: Operation,
    x: Node,
    r: Shape,
    a: Operand,
    b: Operand,
    d: Operand,
    values: &mut [i64],
    flags: &mut [u8],
    start: usize,
)
    requires { (number_of op ≡ x.op) × (9 ≤ x.op) × (x.op < 19) × Right x (shown a.shape) (shown b.shape) (shown d.shape) (shown r) × Room (shown r) start values.old flags.old × SmallIn values.old a.base (a.base + count (shown a.shape)) × SmallIn values.old b.base (b.base + count (shown b.shape)) × (a.base + count (shown a.shape) ≤ start) × (b.base + count (shown b.shape) ≤ start) × (x.op ≡ WHERE → d.base + count (shown d.shape) ≤ start) }
    ensures { (o : Operands) → Source values.old flags.old a.base (shown a.shape) o.a → Source values.old flags.old b.base (shown b.shape) o.b → (x.op ≡ WHERE → Source values.old flags.old d.base (shown d.shape) o.c) → Evaluates x (shown r) o values.old flags.old start values.new flags.new }
{
    let w = mixed_walk(x, r, a, b, d);
    mix_cells(op, w, values, flags, start);
}

// An extent that is gathered over; 1 along an axis that is kept.
fn gathered_extent(flag: usize, n: usize) -> usize
    ensures { result ≡ cond (eqb flag 1) n 1 }
{
    if flag == 1 { n } else { 1 }
}

// The grid of what REDUCE gathers into one element.
fn gathered_grid(s: Row, flags: Row) -> Row
    ensures { list_of result ≡ gathered_extents (list_of s) (list_of flags) }
{
    Row {
        r0: gathered_extent(flags.r0, s.r0),
        r1: gathered_extent(flags.r1, s.r1),
        r2: gathered_extent(flags.r2, s.r2),
        r3: gathered_extent(flags.r3, s.r3),
    }
}

// REDUCE. The axes that are kept become as few as they can be, so that its rows are long.
pub fn eval_reduced(
    x: Node,
    s: Shape,
    r: Shape,
    base: usize,
    values: &mut [i64],
    flags: &mut [u8],
    start: usize,
)
    requires { Reduced x (shown s) (shown r) × Room (shown r) start values.old flags.old × (base + count (shown s) ≤ start) × SmallIn values.old base (base + count (shown s)) }
    ensures { (o : Operands) → Source values.old flags.old base (shown s) o.a → Evaluates x (shown r) o values.old flags.old start values.new flags.new }
{
    let inner = views::grid(s);
    let axes = views::words(x.rowa, shapes::rank(s));
    let kept = views::kept_view(base, inner, axes);
    let gathered = views::gathered_view(inner, axes);
    let g = gathered_grid(inner, axes);
    let w = walking::settle(Walk {
        grid: views::grid(r),
        a: kept,
        b: kept,
        d: kept,
    });
    let how = plan::size_of_word(x.number);
    let from = GridView {
        grid: Grid::of(w.grid),
        view: w.a,
    };
    let over = GridView {
        grid: Grid::of(g),
        view: gathered,
    };
    reducing::reduce(values, flags, how, from, over, start);
}

// The cells of a view laid over those of another.
fn overlay_cells(w: Walk, values: &mut [i64], flags: &mut [u8], start: usize)
    requires { Near w start × (0 < cells_of w.grid) × (start + cells_of w.grid ≤ length values.old) × (start + cells_of w.grid ≤ length flags.old) }
    ensures { (values.new ≡ overlaid_values values.old flags.old w.grid w.a w.b start) × (flags.new ≡ overlaid_flags flags.old w.grid w.a w.b start) }
{
    let t = walking::settle(w);
    let grid = Grid::of(t.grid);
    overlaying::overlay_values(values, flags, grid, t.a, t.b, start);
    overlaying::overlay_flags(flags, grid, t.a, t.b, start);
}

// FILL.
fn eval_filled(
    x: Node,
    r: Shape,
    a: Operand,
    b: Operand,
    values: &mut [i64],
    flags: &mut [u8],
    start: usize,
)
    requires { (x.op ≡ FILL) × Proper (shown a.shape) × Proper (shown b.shape) × Positive (shown r) × Spreads (shown a.shape) (shown r) × Spreads (shown b.shape) (shown r) × Room (shown r) start values.old flags.old × (a.base + count (shown a.shape) ≤ start) × (b.base + count (shown b.shape) ≤ start) }
    ensures { (o : Operands) → Source values.old flags.old a.base (shown a.shape) o.a → Source values.old flags.old b.base (shown b.shape) o.b → Evaluates x (shown r) o values.old flags.old start values.new flags.new }
{
    let grid = views::grid(r);
    let va = operand_view(a);
    let vb = operand_view(b);
    overlay_cells(
        Walk {
            grid: grid,
            a: va,
            b: vb,
            d: vb,
        },
        values,
        flags,
        start,
    );
}

// KNOWN.
fn eval_known(x: Node, r: Shape, base: usize, values: &mut [i64], flags: &mut [u8], start: usize)
    requires { (x.op ≡ KNOWN) × (count (shown r) ≤ 1048576) × Room (shown r) start values.old flags.old × (base + count (shown r) ≤ start) }
    ensures { (o : Operands) → Source values.old flags.old base (shown r) o.a → Evaluates x (shown r) o values.old flags.old start values.new flags.new }
{
    let n = shaping::count(r);
    overlaying::known_values(values, flags, n, base, start);
    moving::fill(flags, n, start, 1);
}

// STACK: one source after another.
fn eval_stacked(
    x: Node,
    r: Shape,
    a: Operand,
    b: Operand,
    d: Operand,
    values: &mut [i64],
    flags: &mut [u8],
    start: usize,
)
    requires { Stacked x (shown a.shape) (shown b.shape) (shown d.shape) (shown r) × Room (shown r) start values.old flags.old × (a.base + count (shown a.shape) ≤ start) × (b.base + count (shown b.shape) ≤ start) × (reads x 3 ≡ true → d.base + count (shown d.shape) ≤ start) }
    ensures { (o : Operands) → Source values.old flags.old a.base (shown a.shape) o.a → Source values.old flags.old b.base (shown b.shape) o.b → (reads x 3 ≡ true → Source values.old flags.old d.base (shown d.shape) o.c) → Evaluates x (shown r) o values.old flags.old start values.new flags.new }
{
    let n = shaping::count(a.shape);
    copy_cells(n, a.base, values, flags, start);
    copy_cells(n, b.base, values, flags, start + n);
    if !plan::in_number(x, 3) {
        return;
    }
    copy_cells(n, d.base, values, flags, start + n + n);
}

// The cells of a node of shape r.
pub fn eval_node(
    x: Node,
    r: Shape,
    a: Operand,
    b: Operand,
    d: Operand,
    given: &[i64],
    known: &[u8],
    from: usize,
    values: &mut [i64],
    flags: &mut [u8],
    start: usize,
)
    requires { Ready x (shown a.shape) (shown b.shape) (shown d.shape) (shown r) a.base b.base d.base from start given.now known.now values.old flags.old }
    ensures { (o : Operands) → Reads x (shown a.shape) (shown b.shape) (shown d.shape) (shown r) a.base b.base d.base from given.now known.now values.old flags.old o → Evaluates x (shown r) o values.old flags.old start values.new flags.new }
{
    let Ok(op) = Operation::try_from(x.op) else {
        return;
    };
    match op {
        Operation::Const => eval_const(x, r, values, flags, start),
        Operation::Param => eval_param(x, r, given, known, from, values, flags, start),
        Operation::Pad => eval_padded(x, a.shape, r, a.base, values, flags, start),
        Operation::Reshape | Operation::Cast | Operation::Load => {
            eval_copied(x, a.shape, r, a.base, values, flags, start)
        }
        Operation::Permute | Operation::Flip | Operation::Expand | Operation::Shrink => {
            eval_viewed(x, a.shape, r, a.base, values, flags, start)
        }
        Operation::Reduce => eval_reduced(x, a.shape, r, a.base, values, flags, start),
        Operation::Fill => eval_filled(x, r, a, b, values, flags, start),
        Operation::Known => eval_known(x, r, a.base, values, flags, start),
        Operation::Stack => eval_stacked(x, r, a, b, d, values, flags, start),
        Operation::Add
        | Operation::Mul
        | Operation::Max
        | Operation::Idiv
        | Operation::Mod
        | Operation::CmpLt
        | Operation::CmpNe
        | Operation::And
        | Operation::Or
        | Operation::Where => eval_mixed(op, x, r, a, b, d, values, flags, start),
    }
}

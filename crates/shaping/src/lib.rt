// The shape rules: counts, broadcasts, rule 8 and the shape of a result.
#![tactic(auto)]

ghost use Rattle.std.specs.Prelude.{◌≡◌, Bool, true, ◌||◌, cond, List, ◌∷◌, ◌++◌, ℕ, ◌+◌, ◌<◌, ◌≤◌, max, eqb, leb, length, replicate};
ghost use Rattle.laws.specs.Lists.{tab};
ghost use Rattle.laws.specs.Numbering.{count};
ghost use Rattle.plan.specs.Operations.{PERMUTE, STACK};
ghost use Rattle.plan.specs.Words.{list_of};
ghost use Rattle.shapes.specs.Rows.{extents_of, is_permutation};
ghost use Rattle.shapes.specs.Rules.{extent, word_of, same_rank, equal_or_one, can_broadcast, broadcast, permuted, reduced, gathered_extents, same_shape, shapes_agree, result_extents};
ghost use Rattle.shapes.specs.Shown.{words_in, shown, capped, Tested};
ghost use Rattle.shaping.specs.RightAligned.{RightAligned};

use plan::{Instruction, Node, Operation, Row};
use shapes::Shape;

// The count of an extent and those after it, whose count is rest.
fn times(n: u32, rest: usize) -> usize
    requires { rest ≤ 1048577 }
    ensures by_index { (ns : List ℕ) → rest ≡ capped (count (extents_of ns)) → result ≡ capped (count (extents_of (n ∷ ns))) }
    ensures small { result ≤ 1048577 }
{
    if n == 0 {
        return 1;
    }
    let product = n as usize * rest;
    if product <= 1048576 {
        return product;
    }
    1048577
}

// The number of elements, 1048577 where it is over the limit.
pub fn count(s: Shape) -> usize
    ensures { result ≡ capped (count (shown s)) }
{
    times(s.n0, times(s.n1, times(s.n2, times(s.n3, 1))))
}

// Two extents are equal or one of them is 1.
fn equal_or_one(n: u32, m: u32) -> bool
    ensures { result ≡ equal_or_one n m }
{
    (n == m) | ((n == 1) | (m == 1))
}

// d extents of 1 in front.
fn ones_in_front(s: Shape, d: usize) -> Shape
    requires { d + length (shown s) ≤ 4 }
    ensures { shown result ≡ replicate d 1 ++ shown s }
{
    shapes::shape_of(|k| if k < d { 1 } else { s.word(k - d) })
}

// Two operands of one rank.
#[derive(Clone, Copy)]
struct Operands {
    left: Shape,
    right: Shape,
    rank: usize,
}

// The operands of a broadcast, right-aligned.
fn aligned(s: Shape, t: Shape) -> Operands
    ensures { RightAligned result (shown s) (shown t) }
{
    let n = shapes::rank(s);
    let m = shapes::rank(t);
    if n == m {
        return Operands {
            left: s,
            right: t,
            rank: n,
        };
    }
    if n < m {
        let left = ones_in_front(s, m - n);
        return Operands {
            left: left,
            right: t,
            rank: m,
        };
    }
    let right = ones_in_front(t, n - m);
    Operands {
        left: s,
        right: right,
        rank: n,
    }
}

// Each axis equal or 1.
pub fn can_broadcast(s: Shape, t: Shape) -> bool
    ensures { result ≡ can_broadcast (shown s) (shown t) }
{
    let o = aligned(s, t);
    shapes::all_below(o.rank, |k| equal_or_one(o.left.word(k), o.right.word(k)))
}

// The larger extent of each axis.
pub fn broadcast(s: Shape, t: Shape) -> Shape
    ensures { shown result ≡ broadcast (shown s) (shown t) }
{
    let o = aligned(s, t);
    shapes::shape_of(|k| o.left.word(k).max(o.right.word(k)))
}

// The same rank, and the test holds of each axis.
fn same_rank<F: Fn(usize) -> bool>(s: Shape, r: Shape, holds: F) -> bool
    requires { F.IsAlwaysCallable holds }
    ensures { (p : ℕ → Bool) → ((k : ℕ) (b : Bool) → k < length (shown s) → k < length (shown r) → F.post holds k b → b ≡ p k) → result ≡ same_rank (shown s) (shown r) p }
{
    let n = shapes::rank(s);
    let m = shapes::rank(r);
    if n != m {
        return false;
    }
    shapes::all_below(n, holds)
}

// An extent is 1 or the other.
fn expands(n: u32, m: u32) -> bool
    ensures { result ≡ (eqb n 1 || eqb n m) }
{
    (n == 1) | (n == m)
}

// EXPAND: the same rank, each extent 1 or that of the result.
pub fn expand_agrees(s: Shape, r: Shape) -> bool
    ensures { result ≡ same_rank (shown s) (shown r) (λ (k : ℕ). eqb (extent (shown s) k) 1 || eqb (extent (shown s) k) (extent (shown r) k)) }
{
    same_rank(s, r, |k| expands(s.word(k), r.word(k)))
}

// An extent at an offset lies within another.
fn within(o: u32, n: u32, m: u32) -> bool
    ensures { result ≡ leb (o + n) m }
{
    o as usize + n as usize <= m as usize
}

// The same rank, and at the offsets o each extent lies within that of outer.
pub fn fits(inner: Shape, outer: Shape, o: Shape) -> bool
    ensures { result ≡ same_rank (shown inner) (shown outer) (λ (k : ℕ). leb (word_of (words_in o) k + extent (shown inner) k) (extent (shown outer) k)) }
{
    same_rank(
        inner,
        outer,
        |k| within(o.word(k), inner.word(k), outer.word(k)),
    )
}

// PERMUTE: axis k of the result is axis k of the row.
pub fn permuted(s: Shape, row: Row) -> Shape
    requires { is_permutation (length (shown s)) (list_of row) ≡ true }
    ensures { shown result ≡ permuted (shown s) (list_of row) }
{
    let n = shapes::rank(s);
    shapes::shape_of(|k| if n <= k {
        0
    } else {
        s.word(shapes::word(row, k))
    })
}

// An extent, or 1 in its place.
fn kept(n: u32, one: bool) -> u32
    ensures { result ≡ cond (eqb n 0) 0 (cond one 1 n) }
{
    if n == 0 {
        return 0;
    }
    if one {
        return 1;
    }
    n
}

// The extents, 1 in place of those along the axes that the test holds of.
fn ones_along<F: Fn(usize) -> bool>(s: Shape, one: F) -> Shape
    requires { F.IsAlwaysCallable one }
    ensures { (p : ℕ → Bool) → ((k : ℕ) (b : Bool) → F.post one k b → b ≡ p k) → shown result ≡ tab (length (shown s)) (λ (k : ℕ). cond (p k) 1 (extent (shown s) k)) }
{
    shapes::shape_of(|k| kept(s.word(k), one(k)))
}

// REDUCE: flagged axes become 1.
pub fn reduced(s: Shape, flags: Row) -> Shape
    ensures { shown result ≡ reduced (shown s) (list_of flags) }
{
    ones_along(s, |k| shapes::word(flags, k) == 1)
}

// How many elements REDUCE gathers into one, 1048577 where they are over the limit.
pub fn gathered_count(s: Shape, flags: Row) -> usize
    ensures { result ≡ capped (count (gathered_extents (shown s) (list_of flags))) }
{
    count(ones_along(s, |k| shapes::word(flags, k) != 1))
}

// The same extents.
fn same_shape(s: Shape, r: Shape) -> bool
    ensures { result ≡ same_shape (shown s) (shown r) }
{
    same_rank(s, r, |k| s.word(k) == r.word(k))
}

// Rule 8 of a STACK: the shapes of its two or three sources are equal, and there is an axis left.
fn stack_agrees(x: Node, a: Shape, b: Shape, c: Shape) -> bool
    requires { x.op ≡ STACK }
    ensures { result ≡ shapes_agree x (shown a) (shown b) (shown c) }
{
    same_shape(a, b) & ((!plan::in_number(x, 3) | same_shape(a, c)) & (shapes::rank(a) <= 3))
}

// The shape of a STACK: its number of sources in front of their shape.
fn stacked(x: Node, s: Shape) -> Shape
    requires op_value { x.op ≡ STACK }
    requires tested { Tested x (shown s) }
    requires s_len_bound { length (shown s) ≤ 3 }
    ensures { (t u : List ℕ) → shown result ≡ result_extents x (shown s) t u }
{
    let number = x.number;
    let m = plan::size_of_word(number);
    Shape {
        n0: m as u32,
        n1: s.n0,
        n2: s.n1,
        n3: s.n2,
    }
}

// Rule 8, without its limit on the result's count.
pub fn shapes_agree(x: Instruction, a: Shape, b: Shape, c: Shape) -> bool
    requires { Tested x.node (shown a) }
    ensures { result ≡ shapes_agree x.node (shown a) (shown b) (shown c) }
{
    match x.op {
        Operation::Const
        | Operation::Param
        | Operation::Permute
        | Operation::Flip
        | Operation::Cast
        | Operation::Reduce
        | Operation::Load
        | Operation::Known => true,
        Operation::Reshape => count(a) == count(shapes::narrow(x.node.rowa)),
        Operation::Expand => expand_agrees(a, shapes::narrow(x.node.rowa)),
        Operation::Pad => fits(a, shapes::narrow(x.node.rowa), shapes::narrow(x.node.rowb)),
        Operation::Shrink => fits(shapes::narrow(x.node.rowa), a, shapes::narrow(x.node.rowb)),
        Operation::Add
        | Operation::Mul
        | Operation::Max
        | Operation::Idiv
        | Operation::Mod
        | Operation::CmpLt
        | Operation::CmpNe
        | Operation::And
        | Operation::Or
        | Operation::Fill => can_broadcast(a, b),
        Operation::Where => can_broadcast(a, b) & can_broadcast(broadcast(a, b), c),
        Operation::Stack => stack_agrees(x.node, a, b, c),
    }
}

// The shape of a result.
pub fn result_shape(x: Instruction, a: Shape, b: Shape, c: Shape) -> Shape
    requires tested { Tested x.node (shown a) }
    requires rowa_value { x.node.op ≡ PERMUTE → is_permutation (length (shown a)) (list_of x.node.rowa) ≡ true }
    requires a_len_bound { x.node.op ≡ STACK → length (shown a) ≤ 3 }
    ensures { shown result ≡ result_extents x.node (shown a) (shown b) (shown c) }
{
    match x.op {
        Operation::Const => Shape {
            n0: 0,
            n1: 0,
            n2: 0,
            n3: 0,
        },
        Operation::Param
        | Operation::Reshape
        | Operation::Expand
        | Operation::Pad
        | Operation::Shrink => shapes::narrow(x.node.rowa),
        Operation::Permute => permuted(a, x.node.rowa),
        Operation::Flip | Operation::Cast | Operation::Load | Operation::Known => a,
        Operation::Add
        | Operation::Mul
        | Operation::Max
        | Operation::Idiv
        | Operation::Mod
        | Operation::CmpLt
        | Operation::CmpNe
        | Operation::And
        | Operation::Or
        | Operation::Fill => broadcast(a, b),
        Operation::Where => broadcast(broadcast(a, b), c),
        Operation::Reduce => reduced(a, x.node.rowa),
        Operation::Stack => stacked(x.node, a),
    }
}

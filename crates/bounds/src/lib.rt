// Interval rules.
#![tactic(auto)]

ghost use Rattle.std.specs.Prelude.{◌≡◌, true, ◌<◌, ◌≤◌, ℤ, pos, ◌*ℤ◌};
ghost use Rattle.std.specs.Int.Signed.{mag};
ghost use Rattle.laws.specs.Integers.{min_z, max_z, floor_div, floor_mod};
ghost use Rattle.laws.proofs.Machine.{Small};
ghost use Rattle.plan.specs.Types.{between, holds, contains, range_of};
ghost use Rattle.bounds.specs.Rules.{corners, add_bounds, mul_bounds, max_bounds, min_bounds, idiv_bounds, mod_bounds, where_bounds, cmplt_bounds, cmpne_bounds, reduce_bounds, stack_bounds};
ghost use Rattle.bounds.specs.Narrow.{wide_of, Held, Narrow, Result};

use plan::{Instruction, Interval, Operation};

// Bounds that lie in a type, in 32 bits: a record is kept for each node, and what is computed needs Interval's 64.
#[derive(Clone, Copy, Debug, PartialEq, Eq)]
pub struct Bounds {
    pub low: i32,
    pub high: i32,
}

// The smaller of two. By the definition's own words: std's `min` is said over an order of its own, and each corner would have to be led back to `min_z`.
pub fn least(a: i64, b: i64) -> i64
    ensures { result ≡ min_z a b }
{
    if b < a { b } else { a }
}

// The larger of two.
pub fn greatest(a: i64, b: i64) -> i64
    ensures { result ≡ max_z a b }
{
    if a < b { b } else { a }
}

// How far a number lies from 0, and a negative one from -1.
fn distance(a: i64) -> u32
    requires { Small a }
    ensures { result ≡ mag a }
{
    if a < 0 { (-1 - a) as u32 } else { a as u32 }
}

// The floor of a / b by one division of 32 bits, the fastest that the machine has.
fn floor_by(a: i64, b: u32) -> i64
    requires { (Small a) × (0 < b) }
    ensures { result ≡ floor_div a (pos b) }
{
    let q = (distance(a) / b) as i64;
    if a < 0 {
        return -1 - q;
    }
    q
}

// The floor of a / b.
pub fn floor_div(a: i64, b: i64) -> i64
    requires { (Small a) × (Small b) × (b ≡ pos 0 → ⊥) }
    ensures { result ≡ floor_div a b }
{
    if b < 0 {
        return floor_by(-a, (-b) as u32);
    }
    floor_by(a, b as u32)
}

// What the floor leaves of a.
pub fn floor_mod(a: i64, b: i64) -> i64
    requires { (Small a) × (Small b) }
    ensures { result ≡ floor_mod a b }
{
    a - b * quotient(a, b)
}

// The floor of a corner. An interval with 0 as an end is no divisor's; the definition's value at 0 stands for it.
pub fn quotient(a: i64, b: i64) -> i64
    requires { (Small a) × (Small b) }
    ensures { result ≡ floor_div a b }
{
    if b == 0 {
        if a < 0 {
            return -1;
        }
        return 0;
    }
    floor_div(a, b)
}

// The least and the greatest of the four corners.
fn corners<F: Fn(i64, i64) -> i64>(corner: F, x: Interval, y: Interval) -> Interval
    requires called { (a b : ℤ) → Small a → Small b → F.pre corner a b }
    requires ends { (Held x) × (Held y) }
    ensures { (f : ℤ → ℤ → ℤ) → ((a b r : ℤ) → Small a → Small b → F.post corner a b r → r ≡ f a b) → result ≡ corners f x y }
{
    let p = corner(x.low, y.low);
    let q = corner(x.low, y.high);
    let r = corner(x.high, y.low);
    let s = corner(x.high, y.high);
    Interval {
        low: least(least(p, q), least(r, s)),
        high: greatest(greatest(p, q), greatest(r, s)),
    }
}

// A product: the least and the greatest of its four corners.
pub fn mul_bounds(x: Interval, y: Interval) -> Interval
    requires { (Held x) × (Held y) }
    ensures { result ≡ mul_bounds x y }
{
    let product = |a: i64, b: i64|
        requires { (Small a) × (Small b) }
        ensures { result ≡ a *ℤ b }
    { a * b };
    corners(product, x, y)
}

// A floored quotient: the least and the greatest of its four corners.
pub fn idiv_bounds(x: Interval, y: Interval) -> Interval
    requires { (Held x) × (Held y) }
    ensures { result ≡ idiv_bounds x y }
{
    corners(|a, b| quotient(a, b), x, y)
}

// Whether less: 1 where always, 0 where never, else either.
pub fn cmplt_bounds(x: Interval, y: Interval) -> Interval
    ensures { result ≡ cmplt_bounds x y }
{
    let a = x.low;
    let aa = x.high;
    let b = y.low;
    let bb = y.high;
    if aa < b {
        return Interval { low: 1, high: 1 };
    }
    if bb <= a {
        return Interval { low: 0, high: 0 };
    }
    Interval { low: 0, high: 1 }
}

// A floored remainder: from 0 up to the divisor, or down to it.
pub fn mod_bounds(y: Interval) -> Interval
    requires { Held y }
    ensures { result ≡ mod_bounds y }
{
    let low = y.low;
    let high = y.high;
    if 0 < low {
        return Interval {
            low: 0,
            high: high - 1,
        };
    }
    Interval {
        low: low + 1,
        high: 0,
    }
}

// A sum: low with low, high with high. It and the next three differ in what they call for each end: a function of two closures would have a call as long as each.
pub fn add_bounds(x: Interval, y: Interval) -> Interval
    requires { (Held x) × (Held y) }
    ensures { result ≡ add_bounds x y }
{
    Interval {
        low: x.low + y.low,
        high: x.high + y.high,
    }
}

// The larger of both lows and of both highs: MAX and OR.
pub fn max_bounds(x: Interval, y: Interval) -> Interval
    ensures { result ≡ max_bounds x y }
{
    Interval {
        low: greatest(x.low, y.low),
        high: greatest(x.high, y.high),
    }
}

// The smaller of both lows and of both highs: AND.
pub fn min_bounds(x: Interval, y: Interval) -> Interval
    ensures { result ≡ min_bounds x y }
{
    Interval {
        low: least(x.low, y.low),
        high: least(x.high, y.high),
    }
}

// Both sides of a choice together.
pub fn where_bounds(x: Interval, y: Interval) -> Interval
    ensures { result ≡ where_bounds x y }
{
    Interval {
        low: least(x.low, y.low),
        high: greatest(x.high, y.high),
    }
}

// Whether not equal: 1 where apart, 0 where both are one and the same number, else either.
pub fn cmpne_bounds(x: Interval, y: Interval) -> Interval
    ensures { result ≡ cmpne_bounds x y }
{
    let a = x.low;
    let aa = x.high;
    let b = y.low;
    let bb = y.high;
    if (aa < b) | (bb < a) {
        return Interval { low: 1, high: 1 };
    }
    if ((a <= aa) & (aa <= a)) & (((b <= bb) & (bb <= b)) & ((a <= b) & (b <= a))) {
        return Interval { low: 0, high: 0 };
    }
    Interval { low: 0, high: 1 }
}

// n times an interval.
pub fn sum_bounds(n: usize, x: Interval) -> Interval
    requires { (n ≤ 1048576) × (Held x) }
    ensures { result ≡ between (pos n *ℤ x.low) (pos n *ℤ x.high) }
{
    let k = n as i64;
    Interval {
        low: k * x.low,
        high: k * x.high,
    }
}

// Rule 10 asks whether a divisor's bounds hold 0.
pub fn holds_zero(x: Interval) -> bool
    ensures { result ≡ holds x (pos 0) }
{
    let low = x.low;
    let high = x.high;
    (low <= 0) & (0 <= high)
}

// Rule 11: bounds lie in a type.
pub fn in_type(t: usize, x: Interval) -> bool
    ensures { result ≡ contains (range_of t) x }
{
    let range = plan::type_range(t);
    let from = range.low;
    let to = range.high;
    let low = x.low;
    let high = x.high;
    ((from <= low) & (low <= to)) & ((from <= high) & (high <= to))
}

// An interval as 64-bit numbers.
impl From<Bounds> for Interval {
    ghost from_gives = { λ b r. (r ≡ wide_of b) × (Held r) };

    fn from(b: Bounds) -> Interval {
        Interval {
            low: b.low as i64,
            high: b.high as i64,
        }
    }
}

// The bounds of a REDUCE of n elements: 0 is their sum, else their greatest.
fn reduce_bounds(number: i64, n: usize, a: Interval) -> Interval
    requires { (n ≤ 1048576) × (Held a) }
    ensures { result ≡ reduce_bounds number n a }
{
    if plan::size_of_word(number) == 0 {
        return sum_bounds(n, a);
    }
    a
}

// The bounds of a STACK of two or three.
fn stack_bounds(third: bool, a: Interval, b: Interval, c: Interval) -> Interval
    ensures { result ≡ stack_bounds third a b c }
{
    let two = where_bounds(a, b);
    if third {
        return where_bounds(two, c);
    }
    two
}

// The bounds of a node's result, from its sources' bounds; n elements are gathered where it is a REDUCE.
pub fn result_bounds(x: Instruction, n: usize, a: Interval, b: Interval, c: Interval) -> Interval
    requires { (n ≤ 1048576) × (Held a) × (Held b) }
    ensures { Result x.node n a b c result }
{
    match x.op {
        Operation::Const => Interval {
            low: x.node.number,
            high: x.node.number,
        },
        Operation::Param => Interval {
            low: x.node.low,
            high: x.node.high,
        },
        Operation::Permute
        | Operation::Flip
        | Operation::Reshape
        | Operation::Expand
        | Operation::Pad
        | Operation::Shrink
        | Operation::Cast
        | Operation::Load => a,
        Operation::Add => add_bounds(a, b),
        Operation::Mul => mul_bounds(a, b),
        Operation::Max | Operation::Or => max_bounds(a, b),
        Operation::Idiv => idiv_bounds(a, b),
        Operation::Mod => mod_bounds(b),
        Operation::CmpLt => cmplt_bounds(a, b),
        Operation::CmpNe => cmpne_bounds(a, b),
        Operation::And => min_bounds(a, b),
        Operation::Where => where_bounds(b, c),
        Operation::Reduce => reduce_bounds(x.node.number, n, a),
        Operation::Fill => where_bounds(a, b),
        Operation::Known => Interval { low: 0, high: 1 },
        Operation::Stack => stack_bounds(plan::in_number(x.node, 3), a, b, c),
    }
}

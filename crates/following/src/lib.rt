// The lookup: an element of an accepted plan, followed back to where it comes from.
#![tactic(auto)]

ghost use Rattle.std.specs.Prelude.{◌≡◌, true, List, [], ℕ, ◌+◌, ◌*◌, ◌≤◌, ◌<◌, length};
ghost use Rattle.laws.specs.Lists.{among};
ghost use Rattle.laws.specs.Numbering.{count};
ghost use Rattle.plan.specs.Operations.{followed};
ghost use Rattle.plan.specs.Answers.{accepted};
ghost use Rattle.plan.specs.Coded.{outcome_of};
ghost use Rattle.plan.specs.Words.{list_of};
ghost use Rattle.shapes.specs.Rules.{result_extents};
ghost use Rattle.shapes.specs.Shown.{shown};
ghost use Rattle.shapes.specs.Sources.{pad_source, source_element};
ghost use Rattle.rules.specs.Rules.{Derived};
ghost use Rattle.verifier.specs.Check.{verdict};
ghost use Rattle.lookup.specs.Following.{follow, lookup};
ghost use Rattle.walking.specs.Movements.{viewed_from, Viewed};
ghost use Rattle.evaluation.specs.Standing.{Padded};
ghost use Rattle.evaluation.specs.Ready.{Right};
ghost use Rattle.following.specs.Origins.{element_in, There};

use lookup::{Found, Place};
use plan::{ElementNumber, Fault, Node, NodeNumber, Operation, Refusal};
use rules::Record;
use shapes::Shape;

// Operations 2 to 7 and LOAD are followed back.
fn is_followed(op: usize) -> bool
    ensures { result ≡ among op followed }
{
    matches!(
        Operation::try_from(op),
        Ok(
            Operation::Permute
                | Operation::Flip
                | Operation::Reshape
                | Operation::Expand
                | Operation::Pad
                | Operation::Shrink
                | Operation::Load
        )
    )
}

// PERMUTE, FLIP, EXPAND and SHRINK: by the view that the run walks.
fn viewed_origin(x: Node, s: Shape, r: Shape, e: usize) -> usize
    requires { Viewed x (shown s) × (shown r ≡ result_extents x (shown s) [] []) × (e < count (shown r)) }
    ensures { result ≡ viewed_from x (shown s) (shown r) e }
{
    let v = walking::view_of(x, s, 0);
    let g = views::grid(r);
    let width = g.r3;
    let begins = views::row_place(g, v, e / width);
    begins + views::step_at(width, v.s3, e % width)
}

// PAD: none outside the source's cells.
fn padded_origin(x: Node, s: Shape, r: Shape, e: usize) -> Option<ElementNumber>
    requires { Padded x (shown s) (shown r) × (e < count (shown r)) }
    ensures { element_in result ≡ pad_source (shown s) (shown r) (list_of x.rowb) e }
{
    let g = views::grid(r);
    let inner = views::grid(s);
    let offsets = views::words(x.rowb, shapes::rank(s));
    let width = g.r3;
    let row = e / width;
    let column = e % width;
    if !moving::row_inside(g, offsets, inner, row) {
        return None;
    }
    if !moving::in_band(offsets.r3, inner.r3, column) {
        return None;
    }
    let begins = moving::row_start(g, offsets, inner, 0, row);
    Some(ElementNumber(begins + (column - offsets.r3)))
}

// The element of its source, of shape s, that element e of a node of shape r is; none where it is a gap.
fn source_element(x: Node, s: Shape, r: Shape, e: ElementNumber) -> Option<ElementNumber>
    requires { (among x.op followed ≡ true) × Right x (shown s) [] [] (shown r) × (e.0 < count (shown r)) }
    ensures { element_in result ≡ source_element x (shown s) (shown r) e }
{
    let op = x.op;
    if op == Operation::Pad as usize {
        return padded_origin(x, s, r, e.0);
    }
    if (op == Operation::Reshape as usize) | (op == Operation::Load as usize) {
        return Some(e);
    }
    Some(ElementNumber(viewed_origin(x, s, r, e.0)))
}

// An element that is there, followed back to the first node that is not followed.
fn follow(table: &[i64], records: &[Record], n: NodeNumber, e: ElementNumber) -> Found
    requires { There table.now records.now n e }
    ensures { (ds : List Derived) (k : ℕ) → verdict table.now ≡ accepted ds → n.0 < k → result ≡ follow k table.now ds n e }
{
    let at = n.0;
    let x = plan::node_at(table, at);
    if !is_followed(x.op) {
        return Found::At(Place {
            node: n,
            element: e,
        });
    }
    let source = x.source1;
    let s = records[source.0];
    let r = records[at];
    let origin = source_element(x, s.extents, r.extents, e);
    match origin {
        None => Found::Gap,
        Some(o) => follow(table, records, source, o),
    }
}

// The place that an element comes from, or a gap: the check's refusals, then 17 where there is no such node or element.
pub fn lookup(table: &[i64], node: NodeNumber, element: ElementNumber) -> Result<Found, Refusal>
    ensures { outcome_of (λ f. f) result ≡ lookup table.now node element }
{
    let derivation = verifier::verdict(table)?;
    let records = derivation.nodes();
    let n = node.0;
    if records.len() <= n {
        return Err(Fault::NoElement.at(0));
    }
    let r = records[n];
    if shaping::count(r.extents) <= element.0 {
        return Err(Fault::NoElement.at(0));
    }
    Ok(follow(table, records, node, element))
}

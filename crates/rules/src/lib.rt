// The rules of one node, and what is derived of it.
#![tactic(auto)]

ghost use Rattle.std.specs.Prelude.{◌≡◌, true, ℕ, ◌+◌, ◌*◌, ◌≤◌, ◌<◌, length};
ghost use Rattle.rules.specs.Rules.{types_agree, one_device, join_device, devices_agree, device_named, param_right, sources_earlier, type_named, rows_right, stack_number, no_source, divisor_right};
ghost use Rattle.plan.specs.Coded.{number_of};
ghost use Rattle.rules.specs.Code.{TypeOf, DeviceOf, view_of, Shapes, Gathers, Ready, Values, Judges, Early};
ghost use Rattle.laws.specs.Numbering.{count};
ghost use Rattle.shapes.specs.Shown.{shown};
ghost use Rattle.bounds.specs.Narrow.{wide_of, Narrow};

use bounds::Bounds;
use plan::{Fault, Instruction, Interval, Node, Operation};
use shapes::Shape;

// Rule 6: the sources' types suit the operation. 0 is bool.
fn types_agree(x: Instruction, a: u8, b: u8, c: u8) -> bool
    ensures { result ≡ types_agree x.node a b c }
{
    match x.op {
        Operation::Const
        | Operation::Param
        | Operation::Permute
        | Operation::Flip
        | Operation::Reshape
        | Operation::Expand
        | Operation::Pad
        | Operation::Shrink
        | Operation::Cast
        | Operation::Load
        | Operation::Known => true,
        Operation::Add
        | Operation::Mul
        | Operation::Max
        | Operation::Idiv
        | Operation::Mod
        | Operation::CmpLt => (a == b) & (a != 0),
        Operation::CmpNe | Operation::Fill => a == b,
        Operation::And | Operation::Or => (a == b) & (a == 0),
        Operation::Where => (a == 0) & (b == c),
        Operation::Reduce => a != 0,
        Operation::Stack => (a == b) & (!plan::in_number(x.node, 3) | (b == c)),
    }
}

// At most one of two devices is not 0, or they are the same.
fn one_device(d: u8, e: u8) -> bool
    ensures { result ≡ one_device d e }
{
    (d == 0) | ((e == 0) | (d == e))
}

// The device that is not 0, or 0.
fn join_device(d: u8, e: u8) -> u8
    ensures { result ≡ join_device d e }
{
    if d == 0 { e } else { d }
}

// Rule 9: no two devices.
fn devices_agree(d: u8, e: u8, f: u8) -> bool
    ensures { result ≡ devices_agree d e f }
{
    one_device(d, e) & one_device(join_device(d, e), f)
}

// The device of a result.
fn result_device(x: Instruction, d: u8, e: u8, f: u8) -> usize
    ensures { DeviceOf x.node d e f result }
{
    match x.op {
        Operation::Const => 0,
        Operation::Param | Operation::Load => x.node.device,
        _ => join_device(join_device(d, e), f) as usize,
    }
}

// The type of a result.
fn result_type(x: Instruction, a: u8, b: u8) -> usize
    ensures { TypeOf x.node a b result }
{
    match x.op {
        Operation::Const | Operation::Param | Operation::Cast => x.node.dtype,
        Operation::CmpLt | Operation::CmpNe | Operation::And | Operation::Or | Operation::Known =>
            0,
        Operation::Where => b as usize,
        Operation::Permute
        | Operation::Flip
        | Operation::Reshape
        | Operation::Expand
        | Operation::Pad
        | Operation::Shrink
        | Operation::Add
        | Operation::Mul
        | Operation::Max
        | Operation::Idiv
        | Operation::Mod
        | Operation::Reduce
        | Operation::Load
        | Operation::Fill
        | Operation::Stack => a as usize,
    }
}

// Rule 7: a device named is 1..255.
fn device_named(x: Node) -> bool
    ensures { result ≡ device_named x }
{
    let d = x.device;
    (1 <= d) & (d <= 255)
}

// Rule 7: the k-th PARAM has slot k, at most 15, and low at most high.
fn param_right(x: Node, k: usize) -> bool
    ensures { result ≡ param_right x k }
{
    let slot = x.number;
    let low = x.low;
    let high = x.high;
    ((plan::size_of_word(slot) == k) & (k <= 15)) & (low <= high)
}

// Rule 4: the sources that are read are numbers of earlier nodes.
fn sources_earlier(x: Node, n: usize) -> bool
    ensures { result ≡ sources_earlier x n }
{
    let s1 = x.source1;
    let s2 = x.source2;
    let s3 = x.source3;
    let first = !plan::reads(x, 1) | (s1.0 < n);
    let second = !plan::reads(x, 2) | (s2.0 < n);
    let third = !plan::reads(x, 3) | (s3.0 < n);
    first & (second & third)
}

// Rule 5: a type that is named is one of the four.
fn type_named(x: Instruction) -> bool
    ensures { result ≡ type_named x.node }
{
    !plan::uses_word(plan::used_mask(x.op.number()), 4) | (x.node.dtype <= 3)
}

// What is derived of a node. Its type is the number 0..3 of the tables, which the listing and the check's words write as it is.
#[derive(Clone, Copy)]
pub struct Record {
    pub dtype: u8,
    pub device: u8,
    pub bounds: Bounds,
    pub extents: Shape,
}

// The records of a node's three sources, blank where it reads none.
#[derive(Clone, Copy)]
pub struct Sources {
    pub first: Record,
    pub second: Record,
    pub third: Record,
}

// A shape with its count of elements.
#[derive(Clone, Copy)]
pub struct Shaped {
    pub extents: Shape,
    pub count: usize,
}

// A record with its count of elements.
#[derive(Clone, Copy)]
pub struct Judged {
    pub record: Record,
    pub count: usize,
}

// What stands for a source that is not used.
pub fn blank() -> Record
    ensures { view_of result ≡ no_source }
{
    Record {
        dtype: 0,
        device: 0,
        bounds: Bounds { low: 0, high: 0 },
        extents: Shape {
            n0: 0,
            n1: 0,
            n2: 0,
            n3: 0,
        },
    }
}

// A STACK's number is 2 or 3, and a third source is 0 where it has two.
fn stack_number(x: Node) -> bool
    ensures { result ≡ stack_number x }
{
    let sources = plan::size_of_word(x.number);
    (sources == 3) | ((sources == 2) & (x.source3.0 == 0))
}

// Rule 7: rows and numbers.
fn rows_right(x: Instruction, params: usize, rank: usize) -> bool
    ensures { result ≡ rows_right x.node params rank }
{
    let node = x.node;
    let a = node.rowa;
    match x.op {
        Operation::Const
        | Operation::Cast
        | Operation::Add
        | Operation::Mul
        | Operation::Max
        | Operation::Idiv
        | Operation::Mod
        | Operation::CmpLt
        | Operation::CmpNe
        | Operation::And
        | Operation::Or
        | Operation::Where
        | Operation::Fill
        | Operation::Known => true,
        Operation::Param => {
            param_right(node, params) & (device_named(node) & shapes::is_shape_row(a))
        }
        Operation::Permute => shapes::is_permutation(rank, a),
        Operation::Flip => shapes::is_flag_row(rank, a),
        Operation::Reshape | Operation::Expand => shapes::is_shape_row(a),
        Operation::Pad | Operation::Shrink => {
            shapes::is_shape_row(a) & shapes::is_offset_row(rank, node.rowb)
        }
        Operation::Reduce => {
            (plan::size_of_word(node.number) <= 1) & shapes::is_flag_row(rank, a)
        }
        Operation::Load => device_named(node),
        Operation::Stack => stack_number(node),
    }
}

// Rules 5 to 8, and the shape of the result.
fn shape_node(x: Instruction, params: usize, sources: Sources) -> Result<Shaped, Fault>
    requires { count (shown sources.first.extents) ≤ 1048576 }
    ensures { Shapes x.node params (view_of sources.first) (view_of sources.second) (view_of sources.third) result }
{
    let a = sources.first;
    let b = sources.second;
    let c = sources.third;
    if !type_named(x) {
        return Err(Fault::TypeNumber);
    }
    if !types_agree(x, a.dtype, b.dtype, c.dtype) {
        return Err(Fault::OperandTypes);
    }
    if !rows_right(x, params, shapes::rank(a.extents)) {
        return Err(Fault::RowOrNumber);
    }
    if !shaping::shapes_agree(x, a.extents, b.extents, c.extents) {
        return Err(Fault::Shapes);
    }
    let extents = shaping::result_shape(x, a.extents, b.extents, c.extents);
    let count = shaping::count(extents);
    if 1048576 < count {
        return Err(Fault::Shapes);
    }
    Ok(Shaped { extents, count })
}

// How many elements a REDUCE gathers; 1 for any other operation.
fn gathers(x: Instruction, s: Shape) -> usize
    requires { count (shown s) ≤ 1048576 }
    ensures { Gathers x.node (shown s) result }
{
    match x.op {
        Operation::Reduce => shaping::gathered_count(s, x.node.rowa),
        _ => 1,
    }
}

// Rule 10: a divisor's bounds do not hold 0.
fn divisor_right(op: Operation, b: Interval) -> bool
    ensures { result ≡ divisor_right (number_of op) b }
{
    match op {
        Operation::Idiv | Operation::Mod => !bounds::holds_zero(b),
        _ => true,
    }
}

// An interval that fits 32 bits, as such. No TryFrom: rule 11 has found that it fits, and a refusal here would never be given.
fn narrow(x: Interval) -> Bounds
    requires { Narrow x }
    ensures { wide_of result ≡ x }
{
    let low = x.low;
    let high = x.high;
    Bounds {
        low: low as i32,
        high: high as i32,
    }
}

// Rules 9 to 11, and the record of a node of these extents.
fn value_node(
    x: Instruction,
    params: usize,
    sources: Sources,
    extents: Shape,
) -> Result<Record, Fault>
    requires { Ready x.node params (view_of sources.first) (view_of sources.second) (view_of sources.third) extents }
    ensures { Values x.node (view_of sources.first) (view_of sources.second) (view_of sources.third) result }
{
    let a = sources.first;
    let b = sources.second;
    let c = sources.third;
    if !devices_agree(a.device, b.device, c.device) {
        return Err(Fault::Devices);
    }
    let divisor = Interval::from(b.bounds);
    if !divisor_right(x.op, divisor) {
        return Err(Fault::ZeroDivisor);
    }
    let gathered = gathers(x, a.extents);
    let first = Interval::from(a.bounds);
    let third = Interval::from(c.bounds);
    let range = bounds::result_bounds(x, gathered, first, divisor, third);
    let dtype = result_type(x, a.dtype, b.dtype);
    if !bounds::in_type(dtype, range) {
        return Err(Fault::ResultRange);
    }
    let device = result_device(x, a.device, b.device, c.device);
    Ok(Record {
        dtype: dtype as u8,
        device: device as u8,
        bounds: narrow(range),
        extents,
    })
}

// Rules 5 to 11 of a node with these sources, with `params` PARAMs before it.
pub fn judge(x: Instruction, params: usize, sources: Sources) -> Result<Judged, Fault>
    requires { count (shown sources.first.extents) ≤ 1048576 }
    ensures { Judges x.node params (view_of sources.first) (view_of sources.second) (view_of sources.third) result }
{
    let shaped = shape_node(x, params, sources)?;
    let record = value_node(x, params, sources, shaped.extents)?;
    Ok(Judged {
        record,
        count: shaped.count,
    })
}

// Rules 2 to 4 of node i: the node with its operation.
pub fn early(table: &[i64], i: usize) -> Result<Instruction, Fault>
    requires { 17 * i + 17 ≤ length table.now }
    ensures { Early table.now i result }
{
    let x = match Instruction::try_from(plan::node_at(table, i)) {
        Ok(x) => x,
        Err(_) => return Err(Fault::NoOperation),
    };
    let start = 17 * i;
    let end = start + 17;
    if !plan::unused_zero(x.op, &table[start..end]) {
        return Err(Fault::UnusedWord);
    }
    if !sources_earlier(x.node, i) {
        return Err(Fault::Source);
    }
    Ok(x)
}

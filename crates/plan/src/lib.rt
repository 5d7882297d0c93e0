// The vocabulary of plans: number kinds, rows, nodes, intervals and answers, and what decodes them.
#![tactic(auto)]

mod faults;
mod instructions;
mod operations;

ghost use Rattle.std.specs.Prelude.{◌≡◌, cond, pos, ◌+◌, ◌*◌, ◌/◌, ◌%◌, ◌^◌, ◌<◌, ◌≤◌, eqb, length, get_or};
ghost use Rattle.plan.specs.Operations.{is_operation, masks};
ghost use Rattle.plan.specs.Types.{range_of};
ghost use Rattle.plan.specs.Coded.{number_of};
ghost use Rattle.plan.specs.Words.{size_of, size_at, row_at, node_of, node_at, length_right, in_number, reads, unused_zero};

pub use faults::{Fault, Refusal};
pub use instructions::Instruction;
pub use operations::{Operation, UnknownOperation};

// The number of a node in its plan. Never taken for an element number.
#[derive(Clone, Copy, Debug, PartialEq, Eq)]
pub struct NodeNumber(pub usize);

// The number of an element in its node, row-major. A type of its own, not one with NodeNumber: neither is ever taken for the other.
#[derive(Clone, Copy, Debug, PartialEq, Eq)]
pub struct ElementNumber(pub usize);

// Four words of a node: row A or row B.
#[derive(Clone, Copy, Debug, PartialEq, Eq)]
pub struct Row {
    pub r0: usize,
    pub r1: usize,
    pub r2: usize,
    pub r3: usize,
}

// The whole numbers low..high.
#[derive(Clone, Copy, Debug, PartialEq, Eq)]
pub struct Interval {
    pub low: i64,
    pub high: i64,
}

// A node's seventeen words by name. A count that is negative in the table is 2^64 - 1 here.
#[derive(Clone, Copy, Debug, PartialEq, Eq)]
pub struct Node {
    pub op: usize,
    pub source1: NodeNumber,
    pub source2: NodeNumber,
    pub source3: NodeNumber,
    pub dtype: usize,
    pub number: i64,
    pub device: usize,
    pub low: i64,
    pub high: i64,
    pub rowa: Row,
    pub rowb: Row,
}

// What a call answers: 0 or the refusal's number, its place, and what the call counts. Three numbers, since C reads them.
#[repr(C)]
#[derive(Clone, Copy, Debug, PartialEq, Eq)]
pub struct Answer {
    pub number: u64,
    pub place: u64,
    pub count: u64,
}

// The answer of a call that accepts.
pub fn accepted(count: u64) -> Answer
    ensures { result ≡ record { number = 0; place = 0; count = count } }
{
    Answer {
        number: 0,
        place: 0,
        count,
    }
}

// The answer of a call that refuses.
pub fn refused(number: u64, place: u64) -> Answer
    ensures { result ≡ record { number = number; place = place; count = 0 } }
{
    Answer {
        number,
        place,
        count: 0,
    }
}

// The words that each operation uses, by its number: bit k for word k.
const MASKS: [usize; 24] = [
    48, 8176, 7682, 7682, 7682, 7682, 130562, 130562, 18, 6, 6, 6, 6, 6, 6, 6, 6, 6, 14, 7714, 66,
    6, 2, 46,
];

// An operation has this number.
pub fn is_operation(op: usize) -> bool
    ensures { result ≡ is_operation op }
{
    op < MASKS.len()
}

// The mask of an operation, 0 where there is no such operation.
pub fn used_mask(op: usize) -> usize
    ensures { result ≡ get_or masks op 0 }
{
    if op < MASKS.len() {
        return MASKS[op];
    }
    0
}

// A mask's bit for word k.
pub fn uses_word(mask: usize, k: usize) -> bool
    requires { k < 17 }
    ensures { result ≡ eqb (mask / 2 ^ k % 2) 1 }
{
    (mask >> k) % 2 == 1
}

// The whole numbers of a type, by its number: the definition `range_of` has a range for every number, and word 4 of a node may be any.
pub fn type_range(t: usize) -> Interval
    ensures { result ≡ range_of t }
{
    match t {
        0 => Interval { low: 0, high: 1 },
        1 => Interval { low: 0, high: 255 },
        2 => Interval {
            low: -32767,
            high: 32767,
        },
        3 => Interval {
            low: -2147483648,
            high: 2147483647,
        },
        _ => Interval { low: 0, high: 0 },
    }
}

// A word as a count, the largest number where it is negative.
pub fn size_of_word(w: i64) -> usize
    ensures { result ≡ size_of w }
{
    if w < 0 {
        return 18446744073709551615;
    }
    w as usize
}

// Source k is one of as many as a STACK's number says; of other operations always.
pub fn in_number(x: Node, k: usize) -> bool
    ensures { result ≡ in_number x k }
{
    let third_of_stack = (x.op == Operation::Stack as usize) & (k == 3);
    !third_of_stack | (size_of_word(x.number) == 3)
}

// A node reads source k: its operation uses word k, and a STACK has so many sources.
pub fn reads(x: Node, k: usize) -> bool
    requires { k < 17 }
    ensures { result ≡ reads x k }
{
    uses_word(used_mask(x.op), k) & in_number(x, k)
}

// The word at a place of a table, as a count.
fn size_at(table: &[i64], at: usize) -> usize
    requires { at < length table.now }
    ensures { result ≡ size_at table.now at }
{
    size_of_word(table[at])
}

// The four words from a place of a table on.
pub fn row_at(table: &[i64], at: usize) -> Row
    requires { at + 4 ≤ length table.now }
    ensures { result ≡ row_at table.now at }
{
    Row {
        r0: size_at(table, at),
        r1: size_at(table, at + 1),
        r2: size_at(table, at + 2),
        r3: size_at(table, at + 3),
    }
}

// The node that seventeen words are.
fn node_of(words: &[i64]) -> Node
    requires { length words.now ≡ 17 }
    ensures { result ≡ node_of words.now }
{
    let first = row_at(words, 0);
    let rowa = row_at(words, 9);
    let rowb = row_at(words, 13);
    Node {
        op: first.r0,
        source1: NodeNumber(first.r1),
        source2: NodeNumber(first.r2),
        source3: NodeNumber(first.r3),
        dtype: size_at(words, 4),
        number: words[5],
        device: size_at(words, 6),
        low: words[7],
        high: words[8],
        rowa: rowa,
        rowb: rowb,
    }
}

// Node n of a table.
pub fn node_at(table: &[i64], n: usize) -> Node
    requires { 17 * n + 17 ≤ length table.now }
    ensures { result ≡ node_at table.now n }
{
    let start = 17 * n;
    let end = start + 17;
    node_of(&table[start..end])
}

// Rule 1: 1 to 256 nodes of 17 words.
pub fn length_right(table: &[i64]) -> bool
    ensures { result ≡ length_right table.now }
{
    let words = table.len();
    let count = words / 17;
    (words % 17 == 0) & ((1 <= count) & (count <= 256))
}

// A word that is not used, 0 in place of one that is.
fn if_unused(used: bool, word: i64) -> i64
    ensures { result ≡ cond used (pos 0) word }
{
    if used {
        return 0;
    }
    word
}

// Rule 3: the words that the operation does not use are zero. Their bits are put together and tested once.
pub fn unused_zero(op: Operation, words: &[i64]) -> bool
    requires { length words.now ≡ 17 }
    ensures { result ≡ unused_zero (number_of op) words.now }
{
    let mask = used_mask(op.number());
    let mut bits = 0i64;
    for k in 1..17 {
        let used = uses_word(mask, k);
        bits |= if_unused(used, words[k]);
    }
    bits == 0
}

// Packed plans: the seven-bit reader and unpack.
#![tactic(auto)]

ghost use Rattle.std.specs.Prelude.{◌≡◌, cond, ◌+◌, ◌*◌, ◌≤◌, ◌<◌, length, get_or};
ghost use Rattle.plan.specs.Coded.{number_of, outcome_of};
ghost use Rattle.plan.specs.Operations.{is_new, in_file};
ghost use Rattle.codec.specs.Numbers.{number_at, word_of};
ghost use Rattle.codec.specs.Plans.{header_of, edition_at, none_new, read_node, unpack, unpack_answer, table_after};
ghost use Rattle.codec.specs.Steps.{read_of, edition_number, opened_of, count_in, Stands, Wrote, one_word, node_words, nodes_at, count_at, opening_at, all_nodes};

use plan::{Answer, Fault, Operation, Refusal};

// The edition of a packed plan. The second has operations that the first does not know.
#[derive(Clone, Copy, Debug, PartialEq, Eq)]
pub enum Edition {
    First,
    Second,
}

// An operation of the second edition.
#[tactic(auto, unfolding(plan::specs::Operations::is_new, laws::specs::Lists::among))]
fn is_new(op: Operation) -> bool
    ensures { result ≡ is_new (number_of op) }
{
    matches!(op, Operation::Fill | Operation::Known | Operation::Stack)
}

impl Edition {
    // How many bytes name it at the head of a file.
    fn header_length(self) -> usize
        ensures { result ≡ length (header_of (edition_number self)) }
    {
        match self {
            Edition::First => 0,
            Edition::Second => 2,
        }
    }

    // Its files may hold this operation.
    #[tactic(auto, using(plan::proofs::Coded::number_known), unfolding(plan::specs::Operations::in_file))]
    fn holds(self, op: Operation) -> bool
        ensures { result ≡ in_file (edition_number self) (number_of op) }
    {
        (self == Edition::Second) | !is_new(op)
    }
}

// A packed number that was read, and the position after it.
#[derive(Clone, Copy, Debug, PartialEq, Eq)]
pub struct Number {
    pub value: usize,
    pub next: usize,
}

// What a file begins with: its edition, its node count and the position after them.
#[derive(Clone, Copy, Debug, PartialEq, Eq)]
struct Opening {
    edition: Edition,
    count: usize,
    next: usize,
}

// The number at `from` whose first byte has its high bit: the groups after the first.
fn groups(bytes: &[u8], from: usize, first: usize) -> Result<Number, Refusal>
    requires { (from < length bytes.now) × (first ≡ get_or bytes.now from 0) × (128 ≤ first) }
    ensures { outcome_of read_of result ≡ number_at bytes.now from }
{
    let mut value = first % 128;
    let mut scale = 128;
    // Counted from 1, so that the compiler knows how many there are.
    for i in 1..5 {
        let at = from + i;
        if bytes.len() <= at {
            return Err(Fault::CutShort.at(from));
        }
        let byte = usize::from(bytes[at]);
        if byte < 128 {
            if byte == 0 {
                return Err(Fault::NumberTooLong.at(from));
            }
            return Ok(Number {
                value: value + scale * byte,
                // In brackets, since the compiler then keeps this position apart from the one after a number of one byte, which is faster.
                next: from + (i + 1),
            });
        }
        value += scale * (byte % 128);
        scale *= 128;
    }
    Err(Fault::NumberTooLong.at(from))
}

// The number at a position; most take one byte.
#[tactic(auto, using(crate::proofs::Reading::one_byte))]
pub fn number_at(bytes: &[u8], at: usize) -> Result<Number, Refusal>
    ensures { outcome_of read_of result ≡ number_at bytes.now at }
{
    if bytes.len() <= at {
        return Err(Fault::CutShort.at(at));
    }
    let first = usize::from(bytes[at]);
    if first < 128 {
        return Ok(Number {
            value: first,
            next: at + 1,
        });
    }
    groups(bytes, at, first)
}

// The word that a packed number stands for.
pub fn word_of(m: usize) -> i64
    ensures { result ≡ word_of m }
{
    let half = (m / 2) as i64;
    if m % 2 == 0 { half } else { -1 - half }
}

// One word of a node into the table at `to`, 0 where the operation does not use it; the position after it.
fn word(bytes: &[u8], at: usize, used: bool, table: &mut [i64], to: usize) -> Result<usize, Refusal>
    requires { to < length table.old }
    ensures { Wrote (one_word used bytes.now at) result table.old to table.new }
{
    if used {
        let number = number_at(bytes, at)?;
        table[to] = word_of(number.value);
        return Ok(number.next);
    }
    table[to] = 0;
    Ok(at)
}

// A node into the table from `to` on: its operation, which is read, and then each of its other words; the position after them.
fn words(
    bytes: &[u8],
    start: usize,
    op: Operation,
    table: &mut [i64],
    to: usize,
) -> Result<usize, Refusal>
    requires { to + 17 ≤ length table.old }
    ensures { Wrote (node_words (number_of op) bytes.now start) result table.old to table.new }
{
    let number = op.number();
    let mask = plan::used_mask(number);
    table[to] = number as i64;
    let mut at = start;
    for k in 0..16 {
        let used = plan::uses_word(mask, k + 1);
        at = word(bytes, at, used, table, to + k + 1)?;
    }
    Ok(at)
}

// A node into the table from `to` on; the position after it.
fn node(
    bytes: &[u8],
    edition: Edition,
    at: usize,
    table: &mut [i64],
    to: usize,
) -> Result<usize, Refusal>
    requires { to + 17 ≤ length table.old }
    ensures { Wrote (read_node (edition_number edition) bytes.now at) result table.old to table.new }
{
    let number = number_at(bytes, at)?;
    match Operation::try_from(number.value) {
        Ok(op) if edition.holds(op) => words(bytes, number.next, op, table, to),
        _ => Err(Fault::FileOperation.at(at)),
    }
}

// The nodes after the opening into the table; the position after them.
fn nodes(bytes: &[u8], opening: Opening, table: &mut [i64]) -> Result<usize, Refusal>
    requires { 17 * opening.count ≤ length table.old }
    ensures { Wrote (nodes_at (edition_number opening.edition) opening.count bytes.now opening.next) result table.old 0 table.new }
{
    let mut at = opening.next;
    for n in 0..opening.count {
        at = node(bytes, opening.edition, at, table, 17 * n)?;
    }
    Ok(at)
}

// The edition of a table's first `count` nodes: the second where one of them is new.
pub fn edition_of(table: &[i64], count: usize) -> Edition
    requires { 17 * count ≤ length table.now }
    ensures { edition_number result ≡ cond (none_new table.now count) 1 2 }
{
    for i in 0..count {
        let op = Operation::try_from(plan::size_of_word(table[17 * i]));
        if op.is_ok_and(is_new) {
            return Edition::Second;
        }
    }
    Edition::First
}

// All nodes into the table, with no byte left over, of the plan's own edition; the position after them.
fn all_nodes(bytes: &[u8], opening: Opening, table: &mut [i64]) -> Result<usize, Refusal>
    requires { 17 * opening.count ≤ length table.old }
    ensures { Wrote (all_nodes (edition_number opening.edition) opening.count bytes.now opening.next) result table.old 0 table.new }
{
    let end = nodes(bytes, opening, table)?;
    if end < bytes.len() {
        return Err(Fault::BytesLeft.at(end));
    }
    if edition_of(table, opening.count) != opening.edition {
        return Err(Fault::Edition.at(0));
    }
    Ok(end)
}

// The edition at the head of a file.
#[tactic(auto, unfolding(crate::specs::Plans::edition_at))]
fn edition_at(bytes: &[u8]) -> Result<Edition, Refusal>
    ensures { outcome_of edition_number result ≡ edition_at bytes.now }
{
    match bytes {
        [0, 2, ..] => Ok(Edition::Second),
        [0, ..] => Err(Fault::FileHead.at(0)),
        _ => Ok(Edition::First),
    }
}

// The node count.
#[tactic(auto, unfolding(crate::specs::Steps::count_at))]
fn count_at(bytes: &[u8], at: usize) -> Result<Number, Refusal>
    ensures { outcome_of read_of result ≡ count_at bytes.now at }
{
    let count = number_at(bytes, at)?;
    if count.value < 1 {
        return Err(Fault::FileHead.at(0));
    }
    if 256 < count.value {
        return Err(Fault::FileHead.at(0));
    }
    Ok(count)
}

// What a file begins with.
#[tactic(auto, unfolding(crate::specs::Steps::opening_at, crate::specs::Steps::head_at))]
fn opening_at(bytes: &[u8]) -> Result<Opening, Refusal>
    ensures { outcome_of opened_of result ≡ opening_at bytes.now }
{
    let edition = edition_at(bytes)?;
    let count = count_at(bytes, edition.header_length())?;
    Ok(Opening {
        edition,
        count: count.value,
        next: count.next,
    })
}

// A plan into a table that has room for every plan, and its node count. Where the plan is refused, what the table holds is not said.
pub fn read_plan(bytes: &[u8], table: &mut [i64]) -> Result<usize, Refusal>
    requires { 4352 ≤ length table.old }
    ensures { (outcome_of (λ n. n) result ≡ count_in (unpack bytes.now 4352)) × Stands (unpack bytes.now 4352) table.old 0 table.new }
{
    let opening = opening_at(bytes)?;
    all_nodes(bytes, opening, table)?;
    Ok(opening.count)
}

// A packed plan into a table, which stays as it was where the plan is refused; the node count.
fn try_unpack(bytes: &[u8], table: &mut [i64]) -> Result<u64, Refusal>
    ensures { (outcome_of (λ n. n) result ≡ count_in (unpack bytes.now (length table.old))) × (table.new ≡ table_after (unpack bytes.now (length table.old)) table.old) }
{
    let opening = opening_at(bytes)?;
    let words = 17 * opening.count;
    if table.len() < words {
        return Err(Fault::Room.at(0));
    }
    let mut local = [0i64; 4352];
    all_nodes(bytes, opening, &mut local)?;
    table[..words].copy_from_slice(&local[..words]);
    Ok(opening.count as u64)
}

// As `try_unpack`, answered as C reads it.
pub fn unpack(bytes: &[u8], table: &mut [i64]) -> Answer
    ensures { (result ≡ unpack_answer (unpack bytes.now (length table.old))) × (table.new ≡ table_after (unpack bytes.now (length table.old)) table.old) }
{
    Answer::from(try_unpack(bytes, table))
}

// Packed plans: the seven-bit writer and pack.
#![tactic(auto)]

ghost use Rattle.std.specs.Prelude.{◌≡◌, cond, ◌++◌, ◌+◌, ◌*◌, ◌≤◌, length, take};
ghost use Rattle.laws.specs.Pieces.{Writes};
ghost use Rattle.plan.specs.Answers.{in_turn};
ghost use Rattle.plan.specs.Coded.{number_of, outcome_of};
ghost use Rattle.plan.specs.Types.{holds};
ghost use Rattle.plan.specs.Words.{size_at, node_count};
ghost use Rattle.codec.specs.Plans.{header_of, edition_of};
ghost use Rattle.packing.specs.Bytes.{groups_of, bytes_of, packed_word};
ghost use Rattle.packing.specs.Packing.{word_range, words_to, node_bytes, pack_node, pack, pack_answer, bytes_after};
ghost use Rattle.packing.specs.Writing.{word_bytes, all_in_range, Judged, Ended, length_in};

use codec::Edition;
use plan::{Answer, Fault, Operation, Refusal};

// A number in at most k groups of seven bits from place `at` on; the place after it.
fn groups(k: usize, m: usize, bytes: &mut [u8], at: usize) -> usize
    requires { at + k ≤ length bytes.old }
    ensures { Writes (groups_of k m) k bytes.old at bytes.new result }
{
    let mut rest = m;
    // Counted from 0, so that the compiler knows how many there are: a range of places packs more slowly.
    for i in 0..k {
        let to = at + i;
        if rest < 128 {
            bytes[to] = rest as u8;
            return to + 1;
        }
        bytes[to] = (rest % 128 + 128) as u8;
        rest /= 128;
    }
    at + k
}

// A word that can be packed.
fn in_range(w: i64) -> bool
    ensures { result ≡ holds word_range w }
{
    (-17179869184 <= w) & (w <= 17179869183)
}

// The number that a word is written as.
fn number_for(w: i64) -> usize
    ensures { result ≡ packed_word w }
{
    if w < 0 {
        let below = (-1 - w) as usize;
        return 2 * below + 1;
    }
    2 * (w as usize)
}

// A word from place `at` on, where it is used; the place after it.
fn word(w: i64, used: bool, bytes: &mut [u8], at: usize) -> usize
    requires { at + 5 * cond used 1 0 ≤ length bytes.old }
    ensures { Writes (word_bytes used w) (5 * cond used 1 0) bytes.old at bytes.new result }
{
    if used {
        return groups(5, number_for(w), bytes, at);
    }
    at
}

// The used words of a node from place `at` on, the last of which the mask's highest bit names; the place after them.
fn words(w: &[i64], op: Operation, bytes: &mut [u8], at: usize) -> usize
    requires { (length w.now ≡ 17) × (at + 45 ≤ length bytes.old) }
    ensures { Writes (words_to (number_of op) w.now 16) 45 bytes.old at bytes.new result }
{
    let mask = plan::used_mask(op.number());
    let last = mask.ilog2() as usize;
    let mut to = at;
    for k in 0..last {
        let used = plan::uses_word(mask, k + 1);
        to = word(w[k + 1], used, bytes, to);
    }
    to
}

// A node from place `at` on; the place after it.
fn node(w: &[i64], op: Operation, bytes: &mut [u8], at: usize) -> usize
    requires { (length w.now ≡ 17) × (number_of op ≡ size_at w.now 0) × (at + 46 ≤ length bytes.old) }
    ensures { Writes (node_bytes w.now) 46 bytes.old at bytes.new result }
{
    let next = groups(1, op.number(), bytes, at);
    words(w, op, bytes, next)
}

// All words of a node can be packed. All are looked at, without a branch.
fn all_in_range(w: &[i64]) -> bool
    requires { length w.now ≡ 17 }
    ensures { result ≡ all_in_range w.now }
{
    let mut all = true;
    for k in 0..17 {
        all &= in_range(w[k]);
    }
    all
}

// The operation of the words of node n, or the first of rules 2, 3 and 25 that they break. Where 2 and 3 hold, the words that are not used can be
// packed, so that 25 is asked of all.
fn operation_of(w: &[i64], n: usize) -> Result<Operation, Refusal>
    requires { length w.now ≡ 17 }
    ensures { Judged w.now n result }
{
    let number = plan::size_of_word(w[0]);
    let Ok(op) = Operation::try_from(number) else {
        return Err(Fault::NoOperation.at(n));
    };
    if !plan::unused_zero(op, w) {
        return Err(Fault::UnusedWord.at(n));
    }
    if !all_in_range(w) {
        return Err(Fault::PackedRange.at(n));
    }
    Ok(op)
}

// The first `count` nodes from place `start` on; the place after them.
fn nodes(table: &[i64], count: usize, bytes: &mut [u8], start: usize) -> Result<usize, Refusal>
    requires { (17 * count ≤ length table.now) × (start + 46 * count ≤ length bytes.old) }
    ensures { Ended (in_turn (pack_node table.now) (take start bytes.old) count) bytes.new result }
{
    let mut at = start;
    for n in 0..count {
        let from = 17 * n;
        let end = from + 17;
        let words = &table[from..end];
        let op = operation_of(words, n)?;
        at = node(words, op, bytes, at);
    }
    Ok(at)
}

// The bytes that name the edition, and the count; the place after them.
fn opening(table: &[i64], count: usize, bytes: &mut [u8]) -> usize
    requires { (node_count table.now ≡ count) × (17 * count ≤ length table.now) × (count ≤ 256) × (4 ≤ length bytes.old) }
    ensures { Writes (header_of (edition_of table.now) ++ bytes_of count) 4 bytes.old 0 bytes.new result }
{
    if codec::edition_of(table, count) == Edition::Second {
        let one = groups(1, 0, bytes, 0);
        let two = groups(1, 2, bytes, one);
        return groups(2, count, bytes, two);
    }
    groups(2, count, bytes, 0)
}

// A table into packed bytes, which stay as they were where it is refused; the number of bytes.
fn try_pack(table: &[i64], bytes: &mut [u8]) -> Result<u64, Refusal>
    ensures { (outcome_of (λ n. n) result ≡ length_in (pack table.now (length bytes.old))) × (bytes.new ≡ bytes_after (pack table.now (length bytes.old)) bytes.old) }
{
    if !plan::length_right(table) {
        return Err(Fault::Length.at(0));
    }
    let count = table.len() / 17;
    let mut local = [0u8; 11780];
    let start = opening(table, count, &mut local);
    let end = nodes(table, count, &mut local, start)?;
    if bytes.len() < end {
        return Err(Fault::Room.at(0));
    }
    bytes[..end].copy_from_slice(&local[..end]);
    Ok(end as u64)
}

// As `try_pack`, answered as C reads it.
pub fn pack(table: &[i64], bytes: &mut [u8]) -> Answer
    ensures { (result ≡ pack_answer (pack table.now (length bytes.old))) × (bytes.new ≡ bytes_after (pack table.now (length bytes.old)) bytes.old) }
{
    Answer::from(try_pack(table, bytes))
}

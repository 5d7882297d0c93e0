// The check of a plan: its answer and what it writes.
#![tactic(auto)]

ghost use Rattle.std.specs.Prelude.{ℕ, ◌+◌, ◌*◌, ◌≤◌, ◌<◌, ◌/◌, ◌≡◌, cond, map, eqb, length, take, MatchResult};
ghost use Rattle.std.proofs.lemmas.List.Edits.{sets};
ghost use Rattle.laws.specs.Lists.{concat};
ghost use Rattle.plan.specs.Words.{reads};
ghost use Rattle.plan.specs.Answers.{answer_of};
ghost use Rattle.plan.specs.Coded.{fault_number, outcome_of};
ghost use Rattle.rules.specs.Rules.{no_source};
ghost use Rattle.rules.specs.Code.{view_of};
ghost use Rattle.verifier.specs.Check.{derived_words, check, check_answer, derived_after, unpack_check, code_of};
ghost use Rattle.verifier.specs.Verdicts.{Derives, Ends, code_in};

use plan::{Fault, Interval, Node, NodeNumber, Refusal};
use rules::{Record, Sources};

// Rule 12: all nodes together have at most so many elements.
const TOTAL_LIMIT: usize = 4194304;

// The records of an accepted plan, the first `count` of them, and the total of their elements.
#[derive(Clone, Copy)]
pub struct Derivation {
    pub count: usize,
    pub total: usize,
    pub records: [Record; 256],
}

impl Derivation {
    // What was derived of the nodes.
    pub fn nodes(&self) -> &[Record]
        requires { self.now.count ≤ length self.now.records }
        ensures { result.now ≡ take self.now.count self.now.records }
    {
        &self.records[..self.count]
    }
}

// Where the record of a source stands; 0 where it is no earlier node.
pub fn source_place(s: NodeNumber, i: usize) -> usize
    requires { i < 256 }
    ensures { (result < 256) × (s.0 < i → result ≡ s.0) × (result ≤ i) }
{
    let n = s.0;
    if n < i { n } else { 0 }
}

// A source's record, or what stands for one that is not read.
fn source_record(x: Node, k: usize, r: Record) -> Record
    requires { k < 17 }
    ensures { view_of result ≡ cond (reads x k) (view_of r) no_source }
{
    if plan::reads(x, k) {
        return r;
    }
    rules::blank()
}

// 1 for a PARAM, else 0. By the number, as the definition `if_param` asks.
fn one_if_param(op: usize) -> usize
    ensures { result ≡ cond (eqb op 1) 1 0 }
{
    if op == 1 { 1 } else { 0 }
}

// Rules 2 to 11 of the first `count` nodes in turn.
pub fn derive(table: &[i64], count: usize) -> Result<Derivation, Refusal>
    requires { (17 * count ≤ length table.now) × (count ≤ 256) }
    ensures { Derives table.now count result }
{
    let none = rules::blank();
    let mut records = [none; 256];
    let mut params = 0;
    let mut total = 0;
    for i in 0..count {
        let x = match rules::early(table, i) {
            Ok(x) => x,
            Err(fault) => return Err(fault.at(i)),
        };
        let node = x.node;
        let place1 = source_place(node.source1, i);
        let place2 = source_place(node.source2, i);
        let place3 = source_place(node.source3, i);
        let sources = Sources {
            first: source_record(node, 1, records[place1]),
            second: source_record(node, 2, records[place2]),
            third: source_record(node, 3, records[place3]),
        };
        let judged = match rules::judge(x, params, sources) {
            Ok(judged) => judged,
            Err(fault) => return Err(fault.at(i)),
        };
        records[i] = judged.record;
        total += judged.count;
        params += one_if_param(node.op);
    }
    Ok(Derivation {
        count,
        total,
        records,
    })
}

// Rules 1 to 12.
pub fn verdict(table: &[i64]) -> Result<Derivation, Refusal>
    ensures { Ends table.now result }
{
    if !plan::length_right(table) {
        return Err(Fault::Length.at(0));
    }
    let derivation = derive(table, table.len() / 17)?;
    if TOTAL_LIMIT < derivation.total {
        return Err(Fault::TotalElements.at(0));
    }
    Ok(derivation)
}

// A word of a shape row: 0 after a 0.
fn after(before: u32, n: u32) -> u32
    ensures { result ≡ cond (eqb before 0) 0 n }
{
    if before == 0 { 0 } else { n }
}

// A node's record as eight words from place `at` on.
fn write_record(r: Record, derived: &mut [i64], at: usize)
    requires { at + 8 ≤ length derived.old }
    ensures { derived.new ≡ sets derived.old at (derived_words (view_of r)) }
{
    let n0 = r.extents.n0;
    let n1 = after(n0, r.extents.n1);
    let n2 = after(n1, r.extents.n2);
    let n3 = after(n2, r.extents.n3);
    let ends = Interval::from(r.bounds);
    derived[at..at + 8].copy_from_slice(&[
        r.dtype as i64,
        r.device as i64,
        ends.low,
        ends.high,
        n0 as i64,
        n1 as i64,
        n2 as i64,
        n3 as i64,
    ]);
}

// Records, eight words each.
fn write_records(records: &[Record], derived: &mut [i64])
    requires { (length records.now ≤ 256) × (8 * length records.now ≤ length derived.old) }
    ensures { derived.new ≡ sets derived.old 0 (concat (map derived_words (map view_of records.now))) }
{
    for (i, r) in records.iter().enumerate() {
        write_record(*r, derived, 8 * i);
    }
}

// The check of a plan, and what was derived of its nodes, eight words each. It counts nothing.
fn checked(table: &[i64], derived: &mut [i64]) -> Result<u64, Refusal>
    ensures { (answer_of (λ n. n) (outcome_of (λ n. n) result) ≡ check_answer (check table.now (length derived.old))) × (derived.new ≡ derived_after (check table.now (length derived.old)) derived.old) }
{
    let derivation = verdict(table)?;
    if derived.len() < 8 * derivation.count {
        return Err(Fault::Room.at(0));
    }
    write_records(derivation.nodes(), derived);
    Ok(0)
}

// The check of a plan, and what was derived of its nodes, eight words each; where it is refused, `derived` stays as it was.
pub fn check(table: &[i64], derived: &mut [i64]) -> plan::Answer
    ensures { (result ≡ check_answer (check table.now (length derived.old))) × (derived.new ≡ derived_after (check table.now (length derived.old)) derived.old) }
{
    plan::Answer::from(checked(table, derived))
}

// The node count or, refused, 65536 times the number plus the place.
fn code(r: Result<Derivation, Refusal>) -> u64
    requires { MatchResult r (λ d. d.count ≤ 256) (λ e. e.place < 9223372036854775808) }
    ensures { result ≡ code_in r }
{
    match r {
        Ok(derivation) => derivation.count as u64,
        Err(refusal) => 65536 * (refusal.fault as u64) + (refusal.place as u64),
    }
}

// A packed plan, unpacked and checked in one call.
pub fn unpack_check(bytes: &[u8]) -> u64
    ensures { result ≡ code_of (unpack_check bytes.now) }
{
    let mut table = [0i64; 4352];
    match codec::read_plan(bytes, &mut table) {
        Err(refusal) => code(Err(refusal)),
        Ok(count) => code(verdict(&table[0..17 * count])),
    }
}

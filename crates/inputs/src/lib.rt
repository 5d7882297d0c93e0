// The input of a run: the numbers and flags of all PARAMs, end to end in node order.
#![tactic(auto)]

ghost use Rattle.std.specs.Prelude.{◌≡◌, ℕ, ◌+◌, ◌*◌, ◌^◌, ◌<◌, ◌≤◌, true, length, take, pos, ◌+ℤ◌, ◌≤ℤ◌, if◌then◌else◌, nat_eq, slice_index, IfSome};
ghost use Rattle.laws.specs.Numbering.{count};
ghost use Rattle.laws.specs.Store.{store};
ghost use Rattle.plan.specs.Types.{between};
ghost use Rattle.shapes.specs.Shown.{shown};
ghost use Rattle.verifier.specs.Check.{total_of};
ghost use Rattle.plan.specs.Answers.{accepted};
ghost use Rattle.runner.specs.Inputs.{input_start, input_limits, input_cell, test_input, test_inputs};
ghost use Rattle.runner.specs.Run.{value_of};
ghost use Rattle.inputs.specs.Nodes.{nodes_of, Limited, test_part};
ghost use Rattle.inputs.specs.Scanning.{cell_in, gaps_from, wrong_at, InputFault, Scans};

use plan::{Fault, Operation, Refusal};
use rules::Record;

// The elements of a node that are input: all of a PARAM's, none of another's.
pub fn input_size(op: usize, r: Record) -> usize
    requires { count (shown r.extents) ≤ 1048576 }
    ensures { result ≡ (if nat_eq op 1 then count (shown r.extents) else 0) }
{
    if op == Operation::Param as usize {
        return shaping::count(r.extents);
    }
    0
}

// The PARAM total: how long the input is.
pub fn input_total(table: &[i64], records: &[Record]) -> usize
    requires { (length records.now ≤ 256) × (17 * length records.now ≤ length table.now) × Limited (nodes_of records.now) (length records.now) }
    ensures { (result ≡ length (input_limits table.now (nodes_of records.now))) × (result ≡ input_start table.now (nodes_of records.now) (length records.now)) }
{
    let mut total = 0;
    for (i, r) in records.iter().enumerate() {
        let x = plan::node_at(table, i);
        total += input_size(x.op, *r);
    }
    total
}

// Where each node's elements begin, all nodes end to end.
pub fn starts(records: &[Record]) -> [usize; 256]
    requires { (length records.now ≤ 256) × Limited (nodes_of records.now) (length records.now) }
    ensures { (length result ≡ 256) × ((j : ℕ) → j < length records.now → slice_index result j ≡ total_of (take j (nodes_of records.now))) }
{
    let mut starts = [0usize; 256];
    let mut total = 0;
    for (i, r) in records.iter().enumerate() {
        starts[i] = total;
        total += shaping::count(r.extents);
    }
    starts
}

// What is wrong at one position: a flag neither 0 nor 1, or a known number outside low..high. The number under a gap is not looked at.
fn fault(flag: u8, value: i64, low: i64, high: i64) -> Option<Fault>
    ensures { ((p : ℕ) → test_input (between low high) value flag p ≡ wrong_at p result) × IfSome result InputFault }
{
    if flag != 1 {
        if flag == 0 {
            return None;
        }
        return Some(Fault::Flag);
    }
    if (low <= value) & (value <= high) {
        return None;
    }
    Some(Fault::Limits)
}

// How far a number lies above the least one of 64 bits.
fn lifted(x: i64) -> u64
    ensures { pos result ≡ x +ℤ pos 9223372036854775808 }
{
    if x < 0 {
        return (x + 9223372036854775807 + 1) as u64;
    }
    x as u64 + 9223372036854775808
}

// Below 2^63 only where the cell is a gap or its number lies in low..high: both differences from the limits are, which the machine finds for
// several cells at once, as it does not for comparisons of 64 bits. The number under a gap decides nothing.
fn miss(flag: u8, value: i64, low: i64, high: i64) -> u64
    requires { low ≤ℤ high }
    ensures { result < 2 ^ 63 → flag ≤ 1 → (p : ℕ) → test_input (between low high) value flag p ≡ accepted tt }
{
    let first = lifted(low);
    let width = lifted(high) - first;
    let over = std::num::wrapping_sub_u64(lifted(value), first);
    let left = if flag == 0 { 0 } else { over };
    left | std::num::wrapping_sub_u64(width, left)
}

// Nothing is wrong at n positions of one PARAM whose flags are 0 or 1.
fn values_good(values: &[i64], flags: &[u8], from: usize, n: usize, low: i64, high: i64) -> bool
    requires { (from + n ≤ length values.now) × (from + n ≤ length flags.now) × (low ≤ℤ high) × ((k : ℕ) → k < n → slice_index flags.now (from + k) ≤ 1) }
    ensures { result ≡ true → test_part (between low high) values.now flags.now from n ≡ accepted tt }
{
    let mut found = 0u64;
    for i in 0..n {
        let p = from + i;
        let here = miss(flags[p], values[p], low, high);
        found = found | here;
    }
    found < 9223372036854775808
}

// Nothing is wrong at n positions of one PARAM, told without a branch at any of them.
fn all_good(values: &[i64], flags: &[u8], from: usize, n: usize, low: i64, high: i64) -> bool
    requires { (from + n ≤ length values.now) × (from + n ≤ length flags.now) }
    ensures { result ≡ true → test_part (between low high) values.now flags.now from n ≡ accepted tt }
{
    if high < low {
        return false;
    }
    if validity::flags_from(flags, n, from, 0) {
        return values_good(values, flags, from, n, low, high);
    }
    false
}

// The first bad one of n positions of one PARAM, sought one by one.
fn first_fault(
    values: &[i64],
    flags: &[u8],
    from: usize,
    n: usize,
    low: i64,
    high: i64,
) -> Result<(), Refusal>
    requires { (from + n ≤ length values.now) × (from + n ≤ length flags.now) }
    ensures { Scans (test_part (between low high) values.now flags.now from n) result }
{
    for i in 0..n {
        let p = from + i;
        if let Some(fault) = fault(flags[p], values[p], low, high) {
            return Err(fault.at(p));
        }
    }
    Ok(())
}

// The first bad one of n positions of one PARAM: sought only where not all are good.
fn scan_param(
    values: &[i64],
    flags: &[u8],
    from: usize,
    n: usize,
    low: i64,
    high: i64,
) -> Result<(), Refusal>
    requires { (from + n ≤ length values.now) × (from + n ≤ length flags.now) }
    ensures { Scans (test_part (between low high) values.now flags.now from n) result }
{
    if all_good(values, flags, from, n, low, high) {
        return Ok(());
    }
    first_fault(values, flags, from, n, low, high)
}

// The first bad position of the whole input.
pub fn scan(table: &[i64], records: &[Record], values: &[i64], flags: &[u8]) -> Result<(), Refusal>
    requires { (length records.now ≤ 256) × (17 * length records.now ≤ length table.now) × Limited (nodes_of records.now) (length records.now) × (length values.now ≡ length (input_limits table.now (nodes_of records.now))) × (length flags.now ≡ length (input_limits table.now (nodes_of records.now))) }
    ensures { Scans (test_inputs (input_limits table.now (nodes_of records.now)) values.now flags.now) result }
{
    let mut from = 0;
    for (i, r) in records.iter().enumerate() {
        let x = plan::node_at(table, i);
        let n = input_size(x.op, *r);
        scan_param(values, flags, from, n, x.low, x.high)?;
        from += n;
    }
    Ok(())
}

// A number of the input as it is written: 0 under a gap.
fn known_value(flag: u8, value: i64) -> i64
    ensures { result ≡ value_of (input_cell value flag) }
{
    if flag == 1 { value } else { 0 }
}

// The numbers of one PARAM.
pub fn param_values(
    values: &mut [i64],
    given: &[i64],
    known: &[u8],
    from: usize,
    n: usize,
    to: usize,
)
    requires { (from + n ≤ length given.now) × (from + n ≤ length known.now) × (to + n ≤ length values.old) }
    ensures { values.new ≡ store values.old to n (λ (j : ℕ). value_of (cell_in given.now known.now (from + j))) }
{
    for i in 0..n {
        let p = from + i;
        values[to + i] = known_value(known[p], given[p]);
    }
}

// A flag of the input as it is written.
fn known_flag(flag: u8) -> u8
    ensures { result ≡ (if nat_eq flag 1 then 1 else 0) }
{
    if flag == 1 { 1 } else { 0 }
}

// The flags of one PARAM.
pub fn param_flags(flags: &mut [u8], known: &[u8], from: usize, n: usize, to: usize)
    requires { (from + n ≤ length known.now) × (to + n ≤ length flags.old) }
    ensures { flags.new ≡ store flags.old to n (λ (j : ℕ). (if nat_eq (slice_index known.now (from + j)) 1 then 1 else 0)) }
{
    for i in 0..n {
        flags[to + i] = known_flag(known[from + i]);
    }
}

// 1 for a gap, 0 for a known cell: `known_flag` the other way round, and a parameter for which of the two would be no plainer.
fn one_if_gap(flag: u8) -> u8
    ensures { result ≡ (if nat_eq flag 1 then 0 else 1) }
{
    if flag == 1 { 0 } else { 1 }
}

// The gaps among a few flags, counted in the width of a flag: sixteen at once.
fn few_gaps(flags: &[u8], from: usize, n: usize) -> u8
    requires { (n ≤ 192) × (from + n ≤ length flags.now) }
    ensures { result ≡ gaps_from flags.now from n }
{
    let mut gaps = 0;
    for i in 0..n {
        gaps += one_if_gap(flags[from + i]);
    }
    gaps
}

// The gaps among n flags, 192 at a time.
pub fn count_gaps(flags: &[u8], from: usize, n: usize) -> usize
    requires { from + n ≤ length flags.now }
    ensures { result ≡ gaps_from flags.now from n }
{
    let mut gaps = 0;
    for part in 0..n.div_ceil(192) {
        let i = part * 192;
        let few = (n - i).min(192);
        gaps += few_gaps(flags, from + i, few) as usize;
    }
    gaps
}

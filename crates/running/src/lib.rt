// The run of a plan: every node's cells, end to end, into two result buffers.
#![tactic(auto)]

ghost use Rattle.std.specs.Prelude.{◌≡◌, cond, [], ◌+◌, ◌/◌, ◌-◌, ◌≤◌, ◌<◌, length, get_or};
ghost use Rattle.plan.specs.Words.{node_at, if_param, reads};
ghost use Rattle.shapes.specs.Shown.{shown};
ghost use Rattle.rules.specs.Rules.{no_source};
ghost use Rattle.verifier.specs.Check.{count_of, total_of};
ghost use Rattle.cells.specs.Nodes.{Operands};
ghost use Rattle.runner.specs.Inputs.{input_cells};
ghost use Rattle.runner.specs.Run.{run, run_answer, values_after, flags_after, value_of, flag_of};
ghost use Rattle.inputs.specs.Nodes.{nodes_of};
ghost use Rattle.inputs.specs.Scanning.{gaps_from};
ghost use Rattle.evaluation.specs.Standing.{Evaluates};
ghost use Rattle.running.specs.Running.{node_extents, node_start, laid_to, Checked, Fed, Places, Turning, NodeReads, Runs};

use evaluation::Operand;
use plan::{Fault, Node, Refusal};
use rules::Record;

// Source k, of record r, whose cells begin at `start`; no extents where the node does not read it.
fn operand(x: Node, k: usize, r: Record, start: usize) -> Operand
    requires { k < 17 }
    ensures { (shown result.shape ≡ cond (reads x k) (shown r.extents) []) × (result.base ≡ cond (reads x k) start 0) }
{
    if plan::reads(x, k) {
        let e = r.extents;
        return Operand {
            shape: e,
            base: start,
        };
    }
    let none = rules::blank();
    let e = none.extents;
    Operand { shape: e, base: 0 }
}

// The cells of node i, from those of its sources in the buffers, or of a PARAM from the input from place `from` on; it answers how many of the input it took.
pub fn run_node(
    table: &[i64],
    records: &[Record],
    starts: &[usize; 256],
    i: usize,
    given: &[i64],
    known: &[u8],
    from: usize,
    values: &mut [i64],
    flags: &mut [u8],
) -> usize
    requires { Turning table.now records.now starts.now i given.now known.now from values.old flags.old }
    ensures { (result ≡ if_param table.now i (count_of (get_or (nodes_of records.now) i no_source))) × ((o : Operands) → NodeReads table.now (nodes_of records.now) i given.now known.now from values.old flags.old o → Evaluates (node_at table.now i) (node_extents (nodes_of records.now) i) o values.old flags.old (node_start (nodes_of records.now) i) values.new flags.new) }
{
    let x = plan::node_at(table, i);
    let place1 = verifier::source_place(x.source1, i);
    let place2 = verifier::source_place(x.source2, i);
    let place3 = verifier::source_place(x.source3, i);
    let a = operand(x, 1, records[place1], starts[place1]);
    let b = operand(x, 2, records[place2], starts[place2]);
    let d = operand(x, 3, records[place3], starts[place3]);
    let r = records[i];
    let e = r.extents;
    evaluation::eval_node(x, e, a, b, d, given, known, from, values, flags, starts[i]);
    inputs::input_size(x.op, r)
}

// The cells of all nodes, one after another.
fn run_nodes(
    table: &[i64],
    records: &[Record],
    starts: &[usize; 256],
    given: &[i64],
    known: &[u8],
    values: &mut [i64],
    flags: &mut [u8],
)
    requires { Checked table.now records.now × Fed table.now (nodes_of records.now) given.now known.now × Places (nodes_of records.now) starts.now values.old flags.old }
    ensures { (values.new ≡ laid_to value_of table.now (nodes_of records.now) (input_cells given.now known.now) (length records.now) values.old) × (flags.new ≡ laid_to flag_of table.now (nodes_of records.now) (input_cells given.now known.now) (length records.now) flags.old) }
{
    let mut from = 0;
    for i in 0..records.len() {
        from += run_node(table, records, starts, i, given, known, from, values, flags);
    }
}

// The gaps of the last node.
fn output_gaps(records: &[Record], starts: &[usize; 256], flags: &[u8]) -> usize
    requires { (0 < length records.now) × (length records.now ≤ 256) × (count_of (get_or (nodes_of records.now) (length records.now - 1) no_source) ≤ 1048576) × (get_or starts.now (length records.now - 1) 0 + count_of (get_or (nodes_of records.now) (length records.now - 1) no_source) ≤ length flags.now) }
    ensures { result ≡ gaps_from flags.now (get_or starts.now (length records.now - 1) 0) (count_of (get_or (nodes_of records.now) (length records.now - 1) no_source)) }
{
    let last = records.len() - 1;
    let r = records[last];
    let n = shaping::count(r.extents);
    inputs::count_gaps(flags, starts[last], n)
}

// 13 to 16 and the run of a plan that the check has accepted, with `total` elements: it counts the gaps of the output.
fn run_accepted(
    table: &[i64],
    records: &[Record],
    total: usize,
    given: &[i64],
    known: &[u8],
    values: &mut [i64],
    flags: &mut [u8],
) -> Result<u64, Refusal>
    requires { Checked table.now records.now × (total ≡ total_of (nodes_of records.now)) }
    ensures { Runs (run table.now given.now known.now (length values.old) (length flags.old)) result values.old flags.old values.new flags.new }
{
    let size = inputs::input_total(table, records);
    if given.len() != size {
        return Err(Fault::InputLength.at(0));
    }
    if known.len() != size {
        return Err(Fault::InputLength.at(0));
    }
    if values.len() < total {
        return Err(Fault::Room.at(0));
    }
    if flags.len() < total {
        return Err(Fault::Room.at(0));
    }
    inputs::scan(table, records, given, known)?;
    let starts = inputs::starts(records);
    run_nodes(table, records, &starts, given, known, values, flags);
    let gaps = output_gaps(records, &starts, flags);
    Ok(gaps as u64)
}

// The check of a plan, and its run on an input.
fn run_checked(
    table: &[i64],
    given: &[i64],
    known: &[u8],
    values: &mut [i64],
    flags: &mut [u8],
) -> Result<u64, Refusal>
    ensures { Runs (run table.now given.now known.now (length values.old) (length flags.old)) result values.old flags.old values.new flags.new }
{
    let derivation = verifier::verdict(table)?;
    let records = derivation.nodes();
    run_accepted(
        table,
        records,
        derivation.total,
        given,
        known,
        values,
        flags,
    )
}

// The run of a plan on an input: its answer, and the cells of all nodes; where it is refused, both buffers stay as they were.
pub fn run(
    table: &[i64],
    values: &[i64],
    flags: &[u8],
    out_values: &mut [i64],
    out_flags: &mut [u8],
) -> plan::Answer
    ensures { (result ≡ run_answer (run table.now values.now flags.now (length out_values.old) (length out_flags.old))) × (out_values.new ≡ values_after (run table.now values.now flags.now (length out_values.old) (length out_flags.old)) out_values.old) × (out_flags.new ≡ flags_after (run table.now values.now flags.now (length out_values.old) (length out_flags.old)) out_flags.old) }
{
    plan::Answer::from(run_checked(table, values, flags, out_values, out_flags))
}

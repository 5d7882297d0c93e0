// The C library: each export calls the proved crate behind it. `include/lupetzarin.h` declares them.
#![tactic(auto)]

ghost use Rattle.std.specs.Prelude.{◌+◌, ◌*◌, ◌≡◌, length};
ghost use Rattle.codec.specs.Plans.{unpack, unpack_answer, table_after};
ghost use Rattle.lookup.specs.Following.{lookup, reply_of};
ghost use Rattle.packing.specs.Packing.{pack, pack_answer, bytes_after};
ghost use Rattle.runner.specs.Run.{run, run_answer, values_after, flags_after};
ghost use Rattle.verifier.specs.Check.{check, check_answer, derived_after, unpack_check, code_of};

// The version of this library, 5.1.0: 1000000 times the major number, 1000 times the minor one, and the patch. The macros of the header say the same.
#[unsafe(no_mangle)]
pub extern "C" fn lup_version() -> u64
    ensures { result ≡ 1000000 * 5 + 1000 * 1 + 0 }
{
    5001000
}

// A packed plan into a table, which stays as it was where the plan is refused.
#[unsafe(no_mangle)]
pub extern "C" fn lup_unpack(bytes: &[u8], table: &mut [i64]) -> plan::Answer
    ensures { (result ≡ unpack_answer (unpack bytes.now (length table.old))) × (table.new ≡ table_after (unpack bytes.now (length table.old)) table.old) }
{
    codec::unpack(bytes, table)
}

// A table into packed bytes, which stay as they were where it is refused.
#[unsafe(no_mangle)]
pub extern "C" fn lup_pack(table: &[i64], bytes: &mut [u8]) -> plan::Answer
    ensures { (result ≡ pack_answer (pack table.now (length bytes.old))) × (bytes.new ≡ bytes_after (pack table.now (length bytes.old)) bytes.old) }
{
    packing::pack(table, bytes)
}

// The check of a plan and eight words a node into `derived`, which stays as it was where the plan is refused.
#[unsafe(no_mangle)]
pub extern "C" fn lup_check(table: &[i64], derived: &mut [i64]) -> plan::Answer
    ensures { (result ≡ check_answer (check table.now (length derived.old))) × (derived.new ≡ derived_after (check table.now (length derived.old)) derived.old) }
{
    verifier::check(table, derived)
}

// A packed plan, unpacked and checked: the node count or, refused, 65536 times the number plus the place.
#[unsafe(no_mangle)]
pub extern "C" fn lup_unpack_check(bytes: &[u8]) -> u64
    ensures { result ≡ code_of (unpack_check bytes.now) }
{
    verifier::unpack_check(bytes)
}

// The run of a plan on the input of its PARAMs: every element of every node into the two result buffers, which stay as they were where it is
// refused.
#[unsafe(no_mangle)]
pub extern "C" fn lup_run(
    table: &[i64],
    values: &[i64],
    flags: &[u8],
    out_values: &mut [i64],
    out_flags: &mut [u8],
) -> plan::Answer
    ensures { (result ≡ run_answer (run table.now values.now flags.now (length out_values.old) (length out_flags.old))) × (out_values.new ≡ values_after (run table.now values.now flags.now (length out_values.old) (length out_flags.old)) out_values.old) × (out_flags.new ≡ flags_after (run table.now values.now flags.now (length out_values.old) (length out_flags.old)) out_flags.old) }
{
    running::run(table, values, flags, out_values, out_flags)
}

// The place that an element of a node comes from, or a gap: the check's refusals, then 17 where there is no such node or element.
#[unsafe(no_mangle)]
pub extern "C" fn lup_lookup(table: &[i64], node: u64, element: u64) -> lookup::Reply
    ensures { result ≡ reply_of (lookup table.now (record { 0 = node }) (record { 0 = element })) }
{
    lookup::Reply::from(following::lookup(
        table,
        plan::NodeNumber(node as usize),
        plan::ElementNumber(element as usize),
    ))
}

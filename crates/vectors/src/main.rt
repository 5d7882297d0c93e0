// Runs framed cases and compares each answer with the one in its frame. Standard input holds the frames end to end, at most 1310720 bytes; numbers
// are little-endian. A frame is: kind (1 byte), length of the input (2), length of the answer (2), the input, the answer.
//   kind 0, unpack_check: the input is the packed bytes; the answer one number (8 bytes).
//   kind 1, unpack: the input is the table's room in words (2 bytes) and the packed bytes; the answer is number, place and count (8 bytes each)
//       and then every word of the table (8 bytes, two's complement), those that the call leaves alone too.
//   kind 2, check: the input is the derived buffer's room (2 bytes) and the words of the plan (8 bytes each); the answer is as for kind 1.
//   kind 3, run: the input is how many words the plan has, how many values and flags there are, and the rooms of the two result buffers (2 bytes
//       each), then the words and the values (8 bytes each) and the flags (1 byte each); the answer is number, place and count, every word of the
//       value buffer and every flag of the flag buffer (8 bytes each).
//   kind 4, lookup: the input is the node and the element (8 bytes each) and the words of the plan; the answer is its five numbers (8 bytes each).
//   kind 5, pack: the input is the room for bytes (2 bytes) and the words of the table (8 bytes each); the answer is number, place and count and
//       every byte of the buffer (8 bytes each).
// Before the call word k of a buffer is 1000 + k, and a flag or a byte is 9. Writes a line for each case that differs, is malformed or is cut short, and at last
// `N passed, M failed`. No frame is passed over: the expected output carries the number of cases.
// tests/tools/vectors.py writes the frames; `vectors.py --list` names the case of each index.
#![tactic(auto)]

ghost use Rattle.std.specs.Prelude.{◌≡◌, ◌<◌, map, length, IfOk, MatchResult};
ghost use Rattle.std.specs.Iterator.{at_most};
ghost use Rattle.framing.specs.Words.{word_of};

use framing::Malformed;
use plan::{Answer, ElementNumber, NodeNumber};
use std::{fmt, io};

// How many cells a buffer of the program has.
const CELLS: usize = 8192;

// What a case calls.
#[derive(Clone, Copy, Debug, PartialEq, Eq)]
enum Kind {
    UnpackCheck,
    Unpack,
    Check,
    Run,
    Lookup,
    Pack,
}

impl TryFrom<u8> for Kind {
    type Error = Malformed;

    fn try_from(number: u8) -> Result<Kind, Malformed> {
        match number {
            0 => Ok(Kind::UnpackCheck),
            1 => Ok(Kind::Unpack),
            2 => Ok(Kind::Check),
            3 => Ok(Kind::Run),
            4 => Ok(Kind::Lookup),
            5 => Ok(Kind::Pack),
            _ => Err(Malformed),
        }
    }
}

// Why a case does not pass.
#[derive(Clone, Copy, Debug, PartialEq, Eq)]
enum Failure {
    CutShort,
    Malformed,
    Differs(Kind),
}

impl From<Malformed> for Failure {
    fn from(_malformed: Malformed) -> Failure {
        Failure::Malformed
    }
}

// The rest of a failed case's line.
impl fmt::Display for Failure {
    fn fmt<W: fmt::Write>(&self, f: &mut fmt::Formatter<W>) -> fmt::Result {
        match self {
            Failure::CutShort => write!(f, ": cut short"),
            Failure::Malformed => write!(f, ": malformed"),
            Failure::Differs(kind) => {
                let number = *kind as u8;
                write!(f, " of kind {number}: differs")
            }
        }
    }
}

// A frame that its lengths hold.
#[derive(Clone, Copy, Drop)]
struct Frame<'a> {
    kind: u8,
    input: &'a [u8],
    answer: &'a [u8],
}

// The first frame, and the bytes after it.
fn split_frame(bytes: &[u8]) -> Result<(Frame<'_>, &[u8]), Malformed>
    ensures { IfOk result (λ p. length p.1.now < length bytes.now) }
{
    let (kind, rest) = bytes.split_first().ok_or(Malformed)?;
    let (input_length, rest) = framing::size(rest)?;
    let (answer_length, rest) = framing::size(rest)?;
    let (input, rest) = rest
        .split_at_checked(usize::from(input_length))
        .ok_or(Malformed)?;
    let (answer, rest) = rest
        .split_at_checked(usize::from(answer_length))
        .ok_or(Malformed)?;
    let frame = Frame {
        kind: *kind,
        input,
        answer,
    };
    Ok((frame, rest))
}

// The frames of the bytes in turn; none after one that is cut short.
#[derive(Drop)]
struct Frames<'a>(&'a [u8]);

impl<'a> Iterator for Frames<'a> {
    type Item = Result<Frame<'a>, Failure>;

    ghost remaining = { λ s. at_most (length s.0.now) };

    fn next(&mut self) -> Option<Result<Frame<'a>, Failure>> {
        if self.0.is_empty() {
            return None;
        }
        match split_frame(self.0) {
            Ok((frame, rest)) => {
                self.0 = rest;
                Some(Ok(frame))
            }
            Err(_) => {
                self.0 = &[];
                Some(Err(Failure::CutShort))
            }
        }
    }
}

// The answer of a call that writes so many cells, and the words of those cells.
fn wanted(answer: &[u8], cells: usize) -> Result<(Answer, &[[u8; 8]]), Malformed>
    ensures { IfOk result (λ p. length p.1.now ≡ cells) }
{
    let words = framing::all_words(answer)?;
    let ([number, place, count], written) = words.split_first_chunk::<3>().ok_or(Malformed)?;
    if written.len() != cells {
        return Err(Malformed);
    }
    let answer = Answer {
        number: u64::from_le_bytes(*number),
        place: u64::from_le_bytes(*place),
        count: u64::from_le_bytes(*count),
    };
    Ok((answer, written))
}

// The words, in the first of the cells.
fn read_table<'a>(words: &[[u8; 8]], cells: &'a mut [i64]) -> Result<&'a [i64], Malformed>
    ensures { MatchResult result (λ table. table.now ≡ map word_of words.now) (λ _. length cells.old < length words.now) }
{
    let table = framing::front(cells, words.len())?;
    framing::read_words(words, table);
    Ok(table)
}

// A case of kind 0.
fn unpack_check_case(input: &[u8], answer: &[u8]) -> Result<bool, Malformed> {
    let wanted = answer.as_array().ok_or(Malformed)?;
    Ok(verifier::unpack_check(input) == u64::from_le_bytes(*wanted))
}

// A case of kind 1.
fn unpack_case(input: &[u8], answer: &[u8]) -> Result<bool, Malformed> {
    let (room, bytes) = framing::size(input)?;
    let (wanted, written) = wanted(answer, usize::from(room))?;
    let mut cells = [0i64; CELLS];
    let table = framing::front(&mut cells, usize::from(room))?;
    framing::fill(table);
    let got = codec::unpack(bytes, table);
    Ok(got == wanted && framing::same_words(table, written))
}

// A case of kind 2.
fn check_case(input: &[u8], answer: &[u8]) -> Result<bool, Malformed> {
    let (room, words) = framing::size(input)?;
    let (wanted, written) = wanted(answer, usize::from(room))?;
    let mut table = [0i64; CELLS];
    let table = read_table(framing::all_words(words)?, &mut table)?;
    let mut cells = [0i64; CELLS];
    let derived = framing::front(&mut cells, usize::from(room))?;
    framing::fill(derived);
    let got = verifier::check(table, derived);
    Ok(got == wanted && framing::same_words(derived, written))
}

// What the input of a run has.
#[derive(Clone, Copy)]
struct RunInput<'a> {
    words: &'a [[u8; 8]],
    values: &'a [[u8; 8]],
    flags: &'a [u8],
    value_room: u16,
    flag_room: u16,
}

// The sizes at the front of the input, and what they are the sizes of.
fn run_input(input: &[u8]) -> Result<RunInput<'_>, Malformed> {
    let (words, rest) = framing::size(input)?;
    let (values, rest) = framing::size(rest)?;
    let (flags, rest) = framing::size(rest)?;
    let (value_room, rest) = framing::size(rest)?;
    let (flag_room, rest) = framing::size(rest)?;
    let (words, rest) = framing::words(rest, words)?;
    let (values, rest) = framing::words(rest, values)?;
    if rest.len() != usize::from(flags) {
        return Err(Malformed);
    }
    Ok(RunInput {
        words,
        values,
        flags: rest,
        value_room,
        flag_room,
    })
}

// A case of kind 3.
fn run_case(input: &[u8], answer: &[u8]) -> Result<bool, Malformed> {
    let given = run_input(input)?;
    let value_room = usize::from(given.value_room);
    let flag_room = usize::from(given.flag_room);
    let (wanted, written) = wanted(answer, value_room + flag_room)?;
    let (values_written, flags_written) = written.split_at(value_room);
    let mut table = [0i64; CELLS];
    let table = read_table(given.words, &mut table)?;
    let mut values = [0i64; CELLS];
    let values = read_table(given.values, &mut values)?;
    let mut cells = [0i64; CELLS];
    let out_values = framing::front(&mut cells, value_room)?;
    framing::fill(out_values);
    let mut flags = [9u8; CELLS];
    let out_flags = flags.get_mut(..flag_room).ok_or(Malformed)?;
    let got = running::run(table, values, given.flags, out_values, out_flags);
    Ok(
        got == wanted
            && framing::same_words(out_values, values_written)
            && framing::same_words(out_flags, flags_written),
    )
}

// A case of kind 4.
fn lookup_case(input: &[u8], answer: &[u8]) -> Result<bool, Malformed> {
    let (node, rest) = framing::number(input)?;
    let (element, words) = framing::number(rest)?;
    let wanted: &[[u8; 8]; 5] = framing::all_words(answer)?.as_array().ok_or(Malformed)?;
    let mut table = [0i64; CELLS];
    let table = read_table(framing::all_words(words)?, &mut table)?;
    let looked = following::lookup(
        table,
        NodeNumber(node as usize),
        ElementNumber(element as usize),
    );
    let reply = lookup::Reply::from(looked);
    let got = [
        reply.number,
        reply.place,
        reply.found,
        reply.node,
        reply.element,
    ];
    Ok(got == wanted.map(u64::from_le_bytes))
}

// A case of kind 5.
fn pack_case(input: &[u8], answer: &[u8]) -> Result<bool, Malformed> {
    let (room, words) = framing::size(input)?;
    let room = usize::from(room);
    let (wanted, written) = wanted(answer, room)?;
    let mut table = [0i64; CELLS];
    let table = read_table(framing::all_words(words)?, &mut table)?;
    let mut bytes = [9u8; CELLS];
    let packed = bytes.get_mut(..room).ok_or(Malformed)?;
    let got = packing::pack(table, packed);
    Ok(got == wanted && framing::same_words(packed, written))
}

// Whether the call of this kind gives the answer.
fn gives(kind: Kind, input: &[u8], answer: &[u8]) -> Result<bool, Malformed> {
    match kind {
        Kind::UnpackCheck => unpack_check_case(input, answer),
        Kind::Unpack => unpack_case(input, answer),
        Kind::Check => check_case(input, answer),
        Kind::Run => run_case(input, answer),
        Kind::Lookup => lookup_case(input, answer),
        Kind::Pack => pack_case(input, answer),
    }
}

// The case in a frame.
fn run_frame(frame: Frame<'_>) -> Result<(), Failure> {
    let kind = Kind::try_from(frame.kind)?;
    if gives(kind, frame.input, frame.answer)? {
        Ok(())
    } else {
        Err(Failure::Differs(kind))
    }
}

// Every frame in turn.
fn run_all(rt: &impl Print, bytes: &[u8]) -> io::Result<()> {
    let mut passed = 0u64;
    let mut failed = 0u64;
    for (index, frame) in Frames(bytes).enumerate() {
        match frame.and_then(run_frame) {
            Ok(()) => passed += 1,
            Err(failure) => {
                println!(rt; "case {index}{failure}")?;
                failed += 1;
            }
        }
    }
    println!(rt; "{passed} passed, {failed} failed")
}

// Room for the frames. Its length is an `ensures`, since a proof that computes the array runs out of stack.
fn input_buffer() -> [u8; 1310720]
    ensures { 1310720 ≡ length result }
{
    [0; 1310720]
}

fn main(rt: HostRuntime) -> io::Result<()> {
    let mut bytes = input_buffer();
    let got = reading::read_full(&mut rt.stdin(), &mut bytes)?;
    run_all(&rt, &bytes[..got])
}

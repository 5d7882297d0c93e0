// The listing of a packed plan, as text.
#![tactic(auto)]

ghost use Rattle.std.specs.Prelude.{◌≡◌, [], ◌∷◌, ◌++◌, map, ◌+◌, ◌*◌, ◌≤◌, length, take};
ghost use Rattle.std.proofs.lemmas.List.Edits.{sets};
ghost use Rattle.bounds.specs.Narrow.{wide_of};
ghost use Rattle.plan.specs.Answers.{accepted, refuse};
ghost use Rattle.shapes.specs.Shown.{shown};
ghost use Rattle.verifier.specs.Check.{unpack_check};
ghost use Rattle.rules.specs.Code.{view_of};
ghost use Rattle.verifier.specs.Listing.{digits, decimal, signed, shape_text, node_line, text_of, space};
ghost use Rattle.listing.specs.Text.{lines_of, checked_of, text_room, text_with};
ghost use Rattle.listing.specs.Writing.{Puts};

use bounds::Bounds;
use plan::Interval;
use rules::Record;
use shapes::Shape;

// How many bytes of a plan are read.
const READ_LIMIT: usize = 12288;

// Text that is written piece after piece: the next one goes to place `at`.
#[derive(Drop)]
struct Writer<'a> {
    text: &'a mut [u8],
    at: usize,
}

impl Writer<'_> {
    // One byte.
    fn put(&mut self, b: u8)
        requires { self.old.at + 1 ≤ length self.old.text.now }
        ensures { Puts (b ∷ []) 1 self.old self.new }
    {
        self.text[self.at] = b;
        self.at += 1;
    }

    // The bytes of a word.
    fn word(&mut self, word: &[u8])
        requires { self.old.at + length word.now ≤ length self.old.text.now }
        ensures { Puts word.now (length word.now) self.old self.new }
    {
        let end = self.at + word.len();
        self.text[self.at..end].copy_from_slice(word);
        self.at = end;
    }

    // At most k decimal digits of n. The recursion is the definition's own: a loop that writes from the last digit needs a second buffer.
    fn digits(&mut self, k: usize, n: u64)
        requires { self.old.at + k ≤ length self.old.text.now }
        ensures { Puts (digits k n) k self.old self.new }
    {
        if k == 0 {
            return;
        }
        let last = 48 + (n % 10) as u8;
        if n < 10 {
            return self.put(last);
        }
        self.digits(k - 1, n / 10);
        self.put(last);
    }

    // A number in decimal.
    fn decimal(&mut self, n: u64)
        requires { self.old.at + 20 ≤ length self.old.text.now }
        ensures { Puts (decimal n) 20 self.old self.new }
    {
        self.digits(20, n);
    }

    // A byte, and a number in decimal after it.
    fn marked(&mut self, b: u8, n: u64)
        requires { self.old.at + 21 ≤ length self.old.text.now }
        ensures { Puts (b ∷ decimal n) 21 self.old self.new }
    {
        self.put(b);
        self.decimal(n);
    }

    // A signed number in decimal.
    fn signed(&mut self, v: i64)
        requires { self.old.at + 21 ≤ length self.old.text.now }
        ensures { Puts (signed v) 21 self.old self.new }
    {
        let size = v.unsigned_abs();
        if v < 0 {
            return self.marked(b'-', size);
        }
        self.decimal(size);
    }

    // The ends of an interval, each after a space.
    fn ends(&mut self, b: Bounds)
        requires { self.old.at + 44 ≤ length self.old.text.now }
        ensures { Puts (space ∷ signed (wide_of b).low ++ space ∷ signed (wide_of b).high) 44 self.old self.new }
    {
        let wide = Interval::from(b);
        let low = wide.low;
        let high = wide.high;
        self.put(b' ');
        self.signed(low);
        self.put(b' ');
        self.signed(high);
    }

    // A shape: its extents up to the first zero, joined by x; - where there is none.
    fn shape(&mut self, s: Shape)
        requires { self.old.at + 83 ≤ length self.old.text.now }
        ensures { Puts (shape_text (shown s)) 83 self.old self.new }
    {
        if s.n0 == 0 {
            return self.put(b'-');
        }
        self.decimal(s.n0 as u64);
        for n in [s.n1, s.n2, s.n3] {
            if n == 0 {
                return;
            }
            self.marked(b'x', n as u64);
        }
    }

    // The number, operation, type and device of node n.
    fn line_start(&mut self, n: usize, op: usize, r: Record)
        requires { self.old.at + 83 ≤ length self.old.text.now }
        ensures { Puts (decimal n ++ space ∷ decimal op ++ space ∷ decimal r.dtype ++ space ∷ decimal r.device) 83 self.old self.new }
    {
        self.decimal(n as u64);
        self.marked(b' ', op as u64);
        self.marked(b' ', u64::from(r.dtype));
        self.marked(b' ', u64::from(r.device));
    }

    // The line of node n.
    fn node_line(&mut self, n: usize, op: usize, r: Record)
        requires { self.old.at + 255 ≤ length self.old.text.now }
        ensures { Puts (node_line n op (view_of r)) 255 self.old self.new }
    {
        self.line_start(n, op, r);
        self.ends(r.bounds);
        self.put(b' ');
        self.shape(r.extents);
        self.put(b'\n');
    }

    // The lines of the first nodes, one for each record.
    fn node_lines(&mut self, table: &[i64], records: &[Record])
        requires { (17 * length records.now ≤ length table.now) × (self.old.at + 255 * length records.now ≤ length self.old.text.now) }
        ensures { Puts (lines_of table.now (map view_of records.now) (length records.now)) (255 * length records.now) self.old self.new }
    {
        for (n, record) in records.iter().enumerate() {
            let node = plan::node_at(table, n);
            self.node_line(n, node.op, *record);
        }
    }

    // The text of an accepted plan.
    fn accepted(&mut self, table: &[i64], records: &[Record])
        requires { (length records.now ≤ 256) × (17 * length records.now ≤ length table.now) × (self.old.at + text_room ≤ length self.old.text.now) }
        ensures { Puts (text_of (accepted (record { table = table.now; records = map view_of records.now }))) text_room self.old self.new }
    {
        self.word(b"node op dtype device low high shape\n");
        self.node_lines(table, records);
        self.word(b"accepted ");
        self.decimal(records.len() as u64);
        self.put(b'\n');
    }

    // The text of a refusal.
    fn refusal(&mut self, number: u64, place: u64)
        requires { self.old.at + text_room ≤ length self.old.text.now }
        ensures { Puts (text_of (refuse number place)) text_room self.old self.new }
    {
        self.word(b"refused ");
        self.decimal(number);
        self.word(b" at ");
        self.decimal(place);
        self.put(b'\n');
    }

    // The text of a table that was read.
    fn checked(&mut self, table: &[i64])
        requires { self.old.at + text_room ≤ length self.old.text.now }
        ensures { Puts (text_of (checked_of table.now)) text_room self.old self.new }
    {
        match verifier::verdict(table) {
            Err(broken) => {
                let answer = plan::Answer::from(Err(broken));
                self.refusal(answer.number, answer.place);
            }
            Ok(derivation) => self.accepted(table, derivation.nodes()),
        }
    }

    // The text of a packed plan.
    fn unpacked(&mut self, bytes: &[u8])
        requires { self.old.at + text_room ≤ length self.old.text.now }
        ensures { Puts (text_of (unpack_check bytes.now)) text_room self.old self.new }
    {
        let mut table = [0i64; 4352];
        match codec::read_plan(bytes, &mut table) {
            Err(unread) => {
                let answer = plan::Answer::from(Err(unread));
                self.refusal(answer.number, answer.place);
            }
            Ok(count) => self.checked(&table[0..17 * count]),
        }
    }
}

// The listing of the first 12288 bytes; nothing where there is less room than any listing needs.
pub fn list(bytes: &[u8], text: &mut [u8]) -> usize
    ensures { (result ≡ length (text_with bytes.now (length text.old))) × (text.new ≡ sets text.old 0 (text_with bytes.now (length text.old))) × (result ≤ 65536) }
{
    if text.len() < 65536 {
        return 0;
    }
    let first = &bytes[..READ_LIMIT.min(bytes.len())];
    let mut writer = Writer { text, at: 0 };
    writer.unpacked(first);
    writer.at
}

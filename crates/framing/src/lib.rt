// Numbers and words in the frames of the program `vectors`, little-endian: a size has two bytes, a number and a word have eight.
#![tactic(auto)]

ghost use Rattle.std.specs.Prelude.{◌≡◌, ℕ, ◌+◌, ◌*◌, ◌<◌, ◌≤◌, ◌%◌, ◌↔◌, map, length, take, drop, IsTrue, MatchResult, slice_index_or, EachIndex, pos, ℤ};
ghost use Rattle.std.specs.Int.{w16, w64, from_le_bytes};
ghost use Rattle.std.specs.Simd.{first_chunks};
ghost use Rattle.framing.specs.Words.{word_of};

// The bytes are too few, or too many, for what they should hold, or the program's buffers have no room for it.
#[derive(Clone, Copy, Debug, PartialEq, Eq)]
pub struct Malformed;

// A cell of a buffer that a call writes: a word, or a byte, which a frame holds as a word.
pub trait Cell: Copy {
    ghost word: { Self → ℤ };

    fn word(self) -> i64
        ensures { result ≡ word self };
}

impl Cell for i64 {
    ghost word = { λ w. w };

    fn word(self) -> i64 {
        self
    }
}

impl Cell for u8 {
    ghost word = { pos };

    fn word(self) -> i64 {
        i64::from(self)
    }
}

// The size at the front, and the bytes after it.
pub fn size(bytes: &[u8]) -> Result<(u16, &[u8]), Malformed>
    ensures { MatchResult result (λ p. (p.0 ≡ from_le_bytes w16 (take 2 bytes.now)) × (p.1.now ≡ drop 2 bytes.now)) (λ _. length bytes.now < 2) }
{
    let (size, rest) = bytes.split_first_chunk().ok_or(Malformed)?;
    Ok((u16::from_le_bytes(*size), rest))
}

// The number at the front, and the bytes after it.
pub fn number(bytes: &[u8]) -> Result<(u64, &[u8]), Malformed>
    ensures { MatchResult result (λ p. (p.0 ≡ from_le_bytes w64 (take 8 bytes.now)) × (p.1.now ≡ drop 8 bytes.now)) (λ _. length bytes.now < 8) }
{
    let (number, rest) = bytes.split_first_chunk().ok_or(Malformed)?;
    Ok((u64::from_le_bytes(*number), rest))
}

// The bytes of the first `count` words, and the bytes after them.
pub fn words(bytes: &[u8], count: u16) -> Result<(&[[u8; 8]], &[u8]), Malformed>
    ensures { MatchResult result (λ p. (p.0.now ≡ first_chunks 8 count (take (8 * count) bytes.now)) × (p.1.now ≡ drop (8 * count) bytes.now)) (λ _. length bytes.now < 8 * count) }
{
    let (front, rest) = bytes
        .split_at_checked(8 * usize::from(count))
        .ok_or(Malformed)?;
    let (words, _) = front.as_chunks();
    Ok((words, rest))
}

// The bytes of the words, where there are only whole words.
pub fn all_words(bytes: &[u8]) -> Result<&[[u8; 8]], Malformed>
    ensures { MatchResult result (λ words. (8 * length words.now ≡ length bytes.now) × (words.now ≡ first_chunks 8 (length words.now) bytes.now)) (λ _. 0 < length bytes.now % 8) }
{
    let (words, rest) = bytes.as_chunks();
    if !rest.is_empty() {
        return Err(Malformed);
    }
    Ok(words)
}

// The first cells of a buffer, as many as asked for.
pub fn front(cells: &mut [i64], count: usize) -> Result<&mut [i64], Malformed>
    ensures { MatchResult result (λ front. (length front.now ≡ count) × (front.now ≡ take count cells.old)) (λ _. length cells.old < count) }
{
    cells.get_mut(..count).ok_or(Malformed)
}

// The first words, into the table: as many as it has cells.
pub fn read_words(words: &[[u8; 8]], table: &mut [i64])
    requires { length table.old ≤ length words.now }
    ensures { table.new ≡ map word_of (take (length table.old) words.now) }
{
    // By place, since a proof knows nothing of what is written through a `zip`.
    for k in 0..table.len() {
        table[k] = i64::from_le_bytes(words[k]);
    }
}

// The pattern that a buffer holds before a call: word k is 1000 + k.
pub fn fill(buffer: &mut [i64])
    ensures { (length buffer.new ≡ length buffer.old) × EachIndex buffer.new (λ k. slice_index_or buffer.new k (pos 0) ≡ pos (1000 + k)) }
{
    for (k, cell) in buffer.iter_mut().enumerate() {
        *cell = 1000 + k as i64;
    }
}

// Whether the cells are the words.
pub fn same_words<C: Cell>(cells: &[C], words: &[[u8; 8]]) -> bool
    ensures { IsTrue result ↔ (map C.word cells.now ≡ map word_of words.now) }
{
    let held = cells.iter().map(|cell| cell.word());
    let wanted = words.iter().map(|word| i64::from_le_bytes(*word));
    cells.len() == words.len() && held.zip(wanted).all(|(one, other)| one == other)
}

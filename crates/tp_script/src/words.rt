//! The words of a line, and the numbers that words spell.

ghost use Rattle.std.specs.Prelude.{◌≡◌, ℕ, ◌<◌, ◌≤◌, ◌^◌, true, false, length, slice_index, IfSome};
ghost use Rattle.tp_script.specs.Words.{is_blank, words_of, number_of, words_from};

/// Whether a byte separates words.
fn is_blank_byte(b: u8) -> bool
    ensures { result ≡ is_blank b }
{
    b == b' ' || b == b'\t' || b == b'\r'
}

/// How many blanks a line begins with.
fn blanks(line: &[u8]) -> usize
    ensures within { result ≤ length line.now }
    ensures before { (k : ℕ) → k < result → is_blank (slice_index line.now k) ≡ true }
    ensures stop { result < length line.now → is_blank (slice_index line.now result) ≡ false }
{
    for (i, b) in line.iter().enumerate() {
        if !is_blank_byte(*b) {
            return i;
        }
    }
    line.len()
}

/// How many bytes that aren't blank a line begins with.
fn word_len(line: &[u8]) -> usize
    ensures within { result ≤ length line.now }
    ensures before { (k : ℕ) → k < result → is_blank (slice_index line.now k) ≡ false }
    ensures stop { result < length line.now → is_blank (slice_index line.now result) ≡ true }
{
    for (i, b) in line.iter().enumerate() {
        if is_blank_byte(*b) {
            return i;
        }
    }
    line.len()
}

/// The first word of a line, empty if it has none, and what follows it.
pub fn next_word(line: &[u8]) -> (&[u8], &[u8])
    ensures { words_of line.now ≡ words_from result.0.now result.1.now }
{
    let line = &line[blanks(line)..];
    line.split_at(word_len(line))
}

/// The number that a word of one to ten digits spells.
pub fn read_number(word: &[u8]) -> Option<u64>
    ensures value { result ≡ number_of word.now }
    ensures below { IfSome result (λ n. n < 10 ^ 10) }
{
    if word.is_empty() || 10 < word.len() {
        return None;
    }
    let mut value = 0u64;
    for b in word {
        if *b < b'0' || b'9' < *b {
            return None;
        }
        value = 10 * value + u64::from(*b - b'0');
    }
    Some(value)
}

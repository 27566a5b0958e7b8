// Reads little-endian words from bytes (document 01, 'Into firmware and onto the bench').
ghost use Rattle.std.specs.Prelude.{◌≡◌, get_or};
ghost use Rattle.input_words.specs.Bytes.{word_of, word_at, words_of};
ghost use Rattle.text.specs.Write.{Fills};

// Returns the word of four bytes, the lowest first.
pub fn word(a: u8, b: u8, c: u8, d: u8) -> u32
    ensures { result ≡ word_of a b c d }
{
    u32::from_le_bytes([a, b, c, d])
}

// Returns the byte at an index, or 0 past the end.
fn byte_at(bytes: &[u8], at: usize) -> u8
    ensures { result ≡ get_or bytes.now at 0 }
{
    bytes.get(at).copied().unwrap_or(0)
}

// Returns the word of the four bytes from an index on. A byte past the end counts as 0.
#[tactic(auto, using(crate::proofs::WordLaws::word_at_past))]
pub fn word_at(bytes: &[u8], at: usize) -> u32
    ensures { result ≡ word_at bytes.now at }
{
    if bytes.len() <= at {
        return 0;
    }
    word(
        byte_at(bytes, at),
        byte_at(bytes, at + 1),
        byte_at(bytes, at + 2),
        byte_at(bytes, at + 3),
    )
}

// Fills `words` from the front with the whole words of `bytes`, as many as fit, and returns how many. It asks for no byte that
// isn't there, so that four bytes are one load.
pub fn fill(bytes: &[u8], words: &mut [u32]) -> usize
    ensures { Fills (words_of bytes.now) words.old result words.new }
{
    let count = (bytes.len() / 4).min(words.len());
    for i in 0..count {
        let at = 4 * i;
        words[i] = word(bytes[at], bytes[at + 1], bytes[at + 2], bytes[at + 3]);
    }
    count
}

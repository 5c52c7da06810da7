// How much is taken (specs/Limits.antt), and whether words lie within a slice.
ghost use Rattle.std.specs.Prelude.{◌≡◌, ◌+◌, leb};
ghost use Rattle.words.specs.Limits.{crowded as crowded_of};

use super::places::word_or_zero;

// Lamps of a list or a block, weights, words of a handle table.
pub const MAX_LAMPS: usize = 4096;

// Words of a list or a block: 2^20.
pub const MAX_WORDS: usize = 0x10_0000;

// Whether a list or a block is over the limits: its lamps by word 0, or its words.
pub fn crowded(words: &[u32]) -> bool
    ensures { result ≡ crowded_of words.now }
{
    MAX_LAMPS < word_or_zero(words, 0) as usize || MAX_WORDS < words.len()
}

// Whether n words from a place on lie within len, for numbers of any size.
pub fn fits(len: usize, at: usize, n: usize) -> bool
    ensures { result ≡ leb (at + n) len }
{
    n <= len && at <= len - n
}

// A query as six words (specs/QueryWords.antt): a point, then its normal. Words past the end are read as 0.
ghost use Rattle.std.specs.Prelude.{◌≡◌, get_or};
ghost use Rattle.ieee.specs.Single.{single};
ghost use Rattle.words.specs.LittleEndian.{words_of};
ghost use Rattle.light_rows.specs.QueryWords.{query_of};

use super::record_words::{Words, vec_at};
use light_bounds::importance::Query;
use words::floats::Float;
use words::little_endian::word_at;

// The words of a query.
pub const QUERY_WORDS: usize = 6;

// The query that words begin with.
#[tactic(auto, unfolding(crate::specs::QueryWords::query_of))]
pub fn query_of<W: Words>(words: W) -> Query
    ensures { result ≡ query_of (W.words words) }
{
    let p = vec_at(words, 0);
    let n = vec_at(words, 3);
    Query { p, n }
}

// The float of the word at a place of little-endian bytes.
pub fn float_at(bytes: &[u8], place: usize) -> f32
    ensures { result ≡ single (get_or (words_of bytes.now) place 0) }
{
    f32::of_word(word_at(bytes, place))
}

// Rows of words, the one place that knows where a word stands: a record, a row of the bounds block, a node of the light
// tree, a query. Build writes nodes into words; the walks and the packing read them from words that are little-endian
// bytes.
#![tactic(auto)]

pub mod block;
pub mod nodes;
pub mod query_words;
pub mod record_words;

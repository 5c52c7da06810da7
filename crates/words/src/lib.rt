// Words: the 32-bit words that lamp lists, blocks and trees are made of, as floats and as little-endian bytes; filling
// a stretch of a slice of them; heads, limits; and the answers and refusals that calls give.
#![tactic(auto)]

pub mod answers;
pub mod fill;
pub mod floats;
pub mod heads;
pub mod limits;
pub mod little_endian;
pub mod places;
pub mod refusals;

// The choice at one fork of the light tree, after `choose_split` and `partition_handles` of pbrt-r4's
// flat/light_bvh.rs. A stretch of handles names rows of a bounds block; a row past the block's end is read as zeros, so
// every stretch and every block has an answer.
#![tactic(auto)]

pub mod buckets;
pub mod lights;
pub mod partition;
pub mod split;

// The light tree packed for the graphics card, after `pack_light_bvh` of pbrt-r4's webgpu/light_bvh.rs: eight words of
// header and eight a node, from node words that are little-endian bytes into a lent slice of bytes.
#![tactic(auto)]

pub mod pack;
pub mod quantize;

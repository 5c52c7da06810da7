// Draws and chances over the words of a light tree, after `bvh_light_sampler_sample` and `bvh_light_sampler_pmf` of
// pbrt-r4's flat/light_bvh.rs. The words are little-endian bytes, of any length and with anything in them; a walk
// decodes what it visits and copies nothing.
#![tactic(auto)]

pub mod fork;
pub mod pmf;
pub mod sample;
pub mod weigh;

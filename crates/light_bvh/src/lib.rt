// The light tree, after `build_light_bvh` of pbrt-r4's flat/light_bvh.rs.
#![tactic(auto)]

pub mod build;
pub mod subtree;

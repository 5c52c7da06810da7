// Bounds of lamps, after pbrt-r4's light_bounds.rs: vectors, boxes, records, their union and their importance.
#![tactic(auto)]

pub mod bounds;
pub mod cones;
pub mod importance;
pub mod light_bounds;
pub mod side;
pub mod vecmath;

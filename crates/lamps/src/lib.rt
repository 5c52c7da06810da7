// Lamps: the lamp list, the bounds of each lamp, and the bounds block.
#![tactic(auto)]

pub mod build_bounds;
pub mod lamp_bounds;
pub mod lamp_list;

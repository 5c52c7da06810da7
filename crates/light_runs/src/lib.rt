// Demand 3 of every built tree (specs/Demand3.antt): the runs of u, the upward walk, the nodes. It holds of the
// definitions of build, draw and chance by name, so this crate has no code.

#![tactic(auto)]

// Drawn edges on the grid: where they count, their windings, what they are in a square, and the keys of positions.

#![tactic(auto)]

pub mod class;
pub mod edge;
pub mod fill;
pub mod morton;
pub mod winding;

// The shown set as a mask, and the material, colour and pixel that follow from it.

#![tactic(auto)]

pub mod area;
pub mod colour;
pub mod pixel;
pub mod set;

// Gravity, scale height, and the profiles of temperature and density.

#![tactic(auto)]

pub mod curve;
pub mod gravity;
pub mod point;
pub mod unchecked;

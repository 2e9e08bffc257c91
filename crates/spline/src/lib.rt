// Cubic splines over two to ten nodes: interpolation, the integral, the second derivatives.

#![tactic(auto)]

pub mod nodes;
pub mod sweep;

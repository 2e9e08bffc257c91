// densu in three parts for many altitudes and gases: what a Shape fixes, what an altitude adds, by what a gas is thinned out.

#![tactic(auto)]

pub mod place;
pub mod thinning;

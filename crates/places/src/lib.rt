#![tactic(auto)]

pub mod item;
pub mod place;

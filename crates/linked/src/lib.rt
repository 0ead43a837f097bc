#![tactic(auto)]

pub mod linked;
pub mod parts;

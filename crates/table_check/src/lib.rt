#![tactic(auto)]

pub mod check;
pub mod siblings;
pub mod source;

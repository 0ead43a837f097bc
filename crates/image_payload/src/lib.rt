#![tactic(auto)]

pub mod payload;

#![tactic(auto)]

pub mod held;

#![tactic(auto)]

pub mod kind;

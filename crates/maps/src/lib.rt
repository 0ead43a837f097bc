#![tactic(auto)]

pub mod document;
pub mod node;
pub mod opening;

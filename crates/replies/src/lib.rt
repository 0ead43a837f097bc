#![tactic(auto)]

pub mod cause;
pub mod content;
pub mod laws;
pub mod mark;
pub mod request;

#![tactic(auto)]

pub mod counts;
pub mod handle;
pub mod interface;
pub mod span;
pub mod value;

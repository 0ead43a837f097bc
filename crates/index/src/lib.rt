#![tactic(auto)]

pub mod keyed;
pub mod link;
pub mod links;
pub mod sorted;

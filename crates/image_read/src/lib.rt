#![tactic(auto)]

pub mod check;
mod fore;
pub mod links;
mod parts;
mod sink;
mod telling;

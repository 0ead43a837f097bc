#![tactic(auto)]

pub mod check;
pub mod index;
mod parts;
mod sink;
mod telling;

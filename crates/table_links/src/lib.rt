#![tactic(auto)]

mod linking;
pub mod links;
mod sound;
mod typed;

#![tactic(auto)]

pub mod answer;
pub mod head;
pub mod hex;
pub mod names;
pub mod quoted;
pub mod shown;

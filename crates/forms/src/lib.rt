#![tactic(auto)]

pub mod compare;
pub mod fixed;
pub mod interface;
pub mod key;
pub mod member;

#![tactic(auto)]

pub mod cursor;
pub mod cut;
pub mod fault;
pub mod reading;
pub mod stop;
pub mod take;

#![tactic(auto)]

pub mod arguments;
pub mod groups;
mod items;
pub mod node_map;
pub mod omissions;
pub mod properties;
pub mod title;
pub mod wants;

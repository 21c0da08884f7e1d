//! Transition graphs: action theories given by a table of states and a table of links, as bought-in modules are.
#![tactic(auto)]

pub mod graph;
pub mod judge;
pub mod link;
pub mod list;
pub mod open;
pub mod queries;

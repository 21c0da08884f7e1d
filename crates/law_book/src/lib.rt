//! Law books: action theories given by a table of causal laws, in action language B.
#![tactic(auto)]

pub mod book;
pub mod caused;
pub mod fault;
pub mod judge;
pub mod law;
pub mod list;
pub mod open;
pub mod queries;

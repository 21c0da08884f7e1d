//! Fences: theories made over any other theory, which ban some of its steps.
#![tactic(auto)]

pub mod ban;
pub mod edits;
pub mod fence;
pub mod judge;
pub mod list;

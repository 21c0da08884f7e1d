//! Refusals: why a call said no, and where. Every other crate stands on this one.
#![tactic(auto)]

pub mod part;
pub mod reason;
pub mod refusal;
pub mod rule;

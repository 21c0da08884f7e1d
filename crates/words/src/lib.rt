//! Words, literals and sets of literals.
#![tactic(auto)]

pub mod ascending;
pub mod literal;
pub mod literals;
pub mod turned;
pub mod word;

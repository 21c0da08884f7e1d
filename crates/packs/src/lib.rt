//! Known packs and modules, as tables that open.
#![tactic(auto)]

pub mod drain;
pub mod latch;
pub mod ring;
mod short;
#[cfg(test)]
mod tests;
pub mod twin;

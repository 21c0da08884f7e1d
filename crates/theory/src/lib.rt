//! Action theories: what one means, the interfaces that ask it, and recorded runs held against one.
#![tactic(auto)]

pub mod judging;
pub mod listing;
pub mod recorded;
pub mod results;
pub mod sizes;
pub mod step;
pub mod turning;
pub mod unopened;

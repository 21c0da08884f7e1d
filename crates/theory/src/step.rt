//! One step of a run.

/// The action that ran and the word that it led to; it begins where the step before it ended.
#[derive(Clone, Copy, PartialEq, Eq, Debug)]
pub struct Step {
    pub action: u32,
    pub to: u32,
}

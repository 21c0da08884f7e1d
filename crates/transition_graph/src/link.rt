//! The links of a transition graph.

/// From one state, by an action, to another or the same.
#[derive(Clone, Copy, PartialEq, Eq, Debug)]
pub struct Link {
    pub from: u32,
    pub action: u32,
    pub to: u32,
}

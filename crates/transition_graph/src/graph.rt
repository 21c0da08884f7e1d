//! A transition graph: a theory given by its states and its links.
ghost use Rattle.transition_graph.specs.Tables.{GoodTables};

use crate::link::Link;
use theory::sizes::Sizes;

/// The sizes and both tables. The tables are owned, so opening a graph allocates nothing; every entry in them keeps
/// its rule.
#[derive(Debug, Drop)]
pub struct TransitionGraph {
    pub(crate) sizes: Sizes,
    pub(crate) states: Vec<u32>,
    pub(crate) links: Vec<Link>,
    ghost good: { ∥ GoodTables sizes.fluents sizes.actions states.items links.items ∥₁ },
}

//! What a transition graph is made of.
ghost use Rattle.std.specs.Prelude.{◌≡◌, ◌↔◌, IsTrue, Contains};
ghost use Rattle.transition_graph.specs.Graphs.{states_of, links_of};

use crate::graph::TransitionGraph;
use crate::link::Link;

impl TransitionGraph {
    /// The states, in the order of their table.
    pub fn states(&self) -> &[u32]
        ensures { result.now ≡ states_of self.now }
    {
        self.states.as_slice()
    }

    /// The links, in the order of their table.
    pub fn links(&self) -> &[Link]
        ensures { result.now ≡ links_of self.now }
    {
        self.links.as_slice()
    }
}

// Whether the word stands in the table. A function that takes the word by value: with the library's look-up at each of
// the three places, opening a small graph took half more time.
pub(crate) fn lists(states: &[u32], s: u32) -> bool
    ensures { IsTrue result ↔ Contains states.now s }
{
    states.contains(&s)
}

//! A transition graph judges words and steps.
ghost use Rattle.transition_graph.specs.Graphs.{graph_meaning, states_of, links_of};
ghost use Rattle.transition_graph.specs.Listed.{ranged_from};

use crate::graph::TransitionGraph;
use crate::link::Link;
use crate::queries::lists;
use theory::judging::Judging;

impl Judging for TransitionGraph {
    ghost meaning = { λ g. graph_meaning g };

    ghost ranged = { λ g. ranged_from g.sizes.fluents g.sizes.actions (states_of g) (links_of g) g.sizes.in_range g.good };

    fn sizes(&self) -> (u32, u32) {
        self.sizes.into()
    }

    fn is_state(&self, s: u32) -> bool {
        lists(&self.states, s)
    }

    fn is_step(&self, s: u32, a: u32, t: u32) -> bool {
        self.links.contains(&Link {
            from: s,
            action: a,
            to: t,
        })
    }
}

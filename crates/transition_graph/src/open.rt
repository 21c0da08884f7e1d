//! The opening of a transition graph.
ghost use Rattle.std.specs.Prelude.{◌≡◌};
ghost use Rattle.refusal.specs.Order.{Ordered};
ghost use Rattle.theory.specs.Pairs.{IsPair};
ghost use Rattle.transition_graph.specs.Opening.{Opens, open_refused, Opened};
ghost use Rattle.transition_graph.specs.Tables.{GoodState, GoodLink};

use crate::graph::TransitionGraph;
use crate::link::Link;
use crate::queries::lists;
use refusal::part::Part;
use refusal::reason::Reason;
use refusal::refusal::Refusal;
use refusal::rule::{Rule, check_entries};
use theory::sizes::Sizes;
use theory::unopened::Unopened;
use words::word::is_below;

// The most states and the most links of a graph; it has at least one state.
const MOST_STATES: usize = 1024;

const MOST_LINKS: usize = 4096;

// The rule of a state in a graph of these sizes.
#[derive(Clone, Copy)]
struct StateRule {
    sizes: Sizes,
}

impl Rule<u32> for StateRule {
    ghost keeps = { λ r s. GoodState r.sizes.fluents s };

    fn allows(&self, state: &u32) -> bool {
        is_below(*state, self.sizes.fluents)
    }
}

// The rule of a link in a graph of these sizes, with these states.
#[derive(Clone, Copy)]
struct LinkRule<'a> {
    sizes: Sizes,
    states: &'a [u32],
}

impl Rule<Link> for LinkRule<'_> {
    ghost keeps = { λ r link. GoodLink r.sizes.actions r.states.now link };

    fn allows(&self, link: &Link) -> bool {
        link.action < self.sizes.actions
            && lists(self.states, link.from)
            && lists(self.states, link.to)
    }
}

// The sizes of what opens. What does not is refused by the first reason against it: its sizes, a table's length, its
// first bad state, its first bad link.
fn check(pair: (u32, u32), states: &[u32], links: &[Link]) -> Result<Sizes, Refusal>
    ensures { Ordered (open_refused pair.0 pair.1 states.now links.now) (λ z. Opens z.fluents z.actions states.now links.now × IsPair z pair) result }
{
    let sizes = Sizes::try_from(pair)?;
    if states.is_empty() || states.len() > MOST_STATES || links.len() > MOST_LINKS {
        return Err(Refusal::plain(Reason::TableLength));
    }
    check_entries(&StateRule { sizes }, Part::State, states)?;
    check_entries(&LinkRule { sizes, states }, Part::Link, links)?;
    Ok(sizes)
}

impl TransitionGraph {
    /// The graph of these sizes, fluents first, states and links. A refusal hands both tables back.
    // A pair and no `Sizes`: the numbers come from outside, and `check` refuses those out of range. Not one function
    // with the opening of a book: what both share, sizes and entries, is called in `check`, and one opening over a
    // type of tables would need a trait for this one `match`.
    pub fn open(
        sizes: (u32, u32),
        states: Vec<u32>,
        links: Vec<Link>,
    ) -> Result<TransitionGraph, Unopened<(Vec<u32>, Vec<Link>)>>
        ensures { Opened sizes.0 sizes.1 states links result }
    {
        match check(sizes, &states, &links) {
            Ok(sizes) => Ok(TransitionGraph {
                sizes,
                states,
                links,
            }),
            Err(refusal) => Err(Unopened {
                refusal,
                tables: (states, links),
            }),
        }
    }
}

//! Transition graphs opened, judged and listed.
use crate::latch;
use crate::tests::{numbers, unopened};
use refusal::part::Part;
use refusal::reason::Reason;
use refusal::refusal::Refusal;
use std::alloc::Global;
use std::test::Fail;
use theory::judging::Judging;
use theory::listing::Listing;
use theory::recorded::check_record;
use theory::results::results;
use theory::step::Step;
use transition_graph::graph::TransitionGraph;
use transition_graph::link::Link;

// A link.
fn link(from: u32, action: u32, to: u32) -> Link {
    Link { from, action, to }
}

// The graph of the tables, which must open.
fn graph(
    heap: Global,
    sizes: (u32, u32),
    states: &[u32],
    links: &[Link],
) -> Result<TransitionGraph, Fail> {
    let graph = TransitionGraph::open(sizes, states.to_vec(heap)?, links.to_vec(heap)?)?;
    Ok(graph)
}

// The numbers of the refusal; both tables must come back as they were.
fn refused(
    heap: Global,
    sizes: (u32, u32),
    states: &[u32],
    links: &[Link],
) -> Result<(u32, u32, usize), Fail> {
    let no = unopened(TransitionGraph::open(sizes, states.to_vec(heap)?, links.to_vec(heap)?))?;
    let (states_back, links_back) = (&no.tables.0, &no.tables.1);
    if states_back.len() != states.len() || links_back.len() != links.len() {
        return Err(Fail::new("the tables do not come back"));
    }
    Ok(numbers(no.refusal))
}

#[test]
fn latch_is_listed(rt: HostRuntime) -> Result<(), Fail> {
    let heap = rt.alloc();
    let graph = graph(heap, latch::SIZES, &latch::states(), &latch::links())?;
    assert_eq!(rt; graph.sizes(), (2, 4));
    assert!(rt; graph.is_state(3) && !graph.is_state(2) && !graph.is_state(4));
    assert_eq!(rt;
        results(heap, &graph, 0, latch::PRESS)?.as_slice(),
        [0, 1].as_slice()
    );
    assert_eq!(rt; graph.next(0, latch::PRESS, 1), Some(1));
    assert_eq!(rt; graph.next(0, latch::PRESS, 2), None);
    assert_eq!(rt; graph.next(3, latch::LIFT, 0), None);
    let locked = Step {
        action: latch::LOCK,
        to: 3,
    };
    assert_eq!(rt; check_record(&graph, 1, &[locked]), Ok(3));
    let forced = Step {
        action: latch::LIFT,
        to: 0,
    };
    let no = Refusal::at(Reason::NotAStep, Part::Step, 1);
    assert_eq!(rt; check_record(&graph, 1, &[locked, forced]), Err(no));
    Ok(())
}

#[test]
fn repeats_are_lawful(rt: HostRuntime) -> Result<(), Fail> {
    let heap = rt.alloc();
    let twice = [link(2, 0, 5), link(2, 0, 5), link(2, 0, 2), link(5, 0, 5)];
    let graph = graph(heap, (3, 1), &[5, 2, 5], &twice)?;
    assert_eq!(rt; results(heap, &graph, 2, 0)?.as_slice(), [2, 5].as_slice());
    assert_eq!(rt; results(heap, &graph, 5, 0)?.as_slice(), [5].as_slice());
    assert!(rt; graph.is_state(5) && graph.is_state(2) && !graph.is_state(0));
    assert!(rt; graph.is_step(2, 0, 5) && !graph.is_step(5, 0, 2));
    Ok(())
}

#[test]
fn graphs_are_refused_in_order(rt: HostRuntime) -> Result<(), Fail> {
    let heap = rt.alloc();
    let stay = link(0, 0, 0);
    let _ = graph(heap, (1, 1), &[0; 1024], &[stay; 4096])?;
    let _ = graph(heap, (1, 1), &[1], &[])?;
    assert_eq!(rt; refused(heap, (33, 1), &[], &[])?, (3, 0, 0));
    assert_eq!(rt; refused(heap, (1, 65), &[], &[])?, (3, 0, 0));
    assert_eq!(rt; refused(heap, (1, 1), &[], &[])?, (14, 0, 0));
    assert_eq!(rt; refused(heap, (1, 1), &[2; 1025], &[])?, (14, 0, 0));
    assert_eq!(rt; refused(heap, (1, 1), &[2], &[stay; 4097])?, (14, 0, 0));
    assert_eq!(rt;
        refused(heap, (2, 1), &[3, 0, 4, 5], &[link(1, 1, 1)])?,
        (13, 2, 2)
    );
    assert_eq!(rt;
        refused(heap, (2, 1), &[3, 0], &[stay, link(0, 1, 0)])?,
        (13, 3, 1)
    );
    assert_eq!(rt;
        refused(heap, (2, 1), &[3, 0], &[stay, stay, link(0, 0, 1)])?,
        (13, 3, 2)
    );
    assert_eq!(rt;
        refused(heap, (2, 1), &[3, 0], &[link(2, 0, 3), link(0, 0, 1)])?,
        (13, 3, 0)
    );
    Ok(())
}

// Whether the tables open; a refusal comes up by `?`.
fn opens(states: Vec<u32>, links: Vec<Link>) -> Result<(), Refusal> {
    let _ = TransitionGraph::open((2, 1), states, links)?;
    Ok(())
}

#[test]
fn graph_refusals_come_up_unchanged(rt: HostRuntime) -> Result<(), Fail> {
    let heap = rt.alloc();
    let no = Refusal::at(Reason::BadEntry, Part::State, 1);
    assert_eq!(rt;
        opens([3, 4].to_vec(heap)?, [link(0, 0, 0)].to_vec(heap)?),
        Err(no)
    );
    Ok(())
}

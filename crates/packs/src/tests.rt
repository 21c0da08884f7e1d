//! Books opened and asked, by examples that are worked by hand.
mod fences;
mod graphs;
mod listing;

use crate::short::{body, on};
use crate::{drain, ring, twin};
use law_book::book::LawBook;
use law_book::law::Law;
use refusal::part::Part;
use refusal::reason::Reason;
use refusal::refusal::Refusal;
use std::alloc::Global;
use std::test::Fail;
use theory::judging::Judging;
use theory::recorded::check_record;
use theory::step::Step;
use theory::unopened::Unopened;

// The book of the laws, which must open.
fn opened(heap: Global, sizes: (u32, u32), laws: &[Law]) -> Result<LawBook, Fail> {
    Ok(LawBook::open(sizes, laws.to_vec(heap)?)?)
}

// The number of the refusal, that of its part, and the place.
fn numbers(refusal: Refusal) -> (u32, u32, usize) {
    (
        refusal.reason.number(),
        refusal.part.number(),
        refusal.place,
    )
}

// What a refused opening hands back.
fn unopened<T: Drop, U: Drop>(opened: Result<T, Unopened<U>>) -> Result<Unopened<U>, Fail> {
    match opened {
        Ok(_) => Err(Fail::new("it opens")),
        Err(no) => Ok(no),
    }
}

// The numbers of the refusal, and how many laws came back.
fn refused(
    heap: Global,
    sizes: (u32, u32),
    laws: &[Law],
) -> Result<(u32, u32, usize, usize), Fail> {
    let no = unopened(LawBook::open(sizes, laws.to_vec(heap)?))?;
    let (number, part, place) = numbers(no.refusal);
    Ok((number, part, place, no.tables.len()))
}

// The last state of a run from 7 against the laws; a refusal of either call comes up by `?`.
fn last_state(laws: Vec<Law>, steps: &[Step]) -> Result<u32, Refusal> {
    let book = LawBook::open(drain::SIZES, laws)?;
    let last = check_record(&book, 7, steps)?;
    Ok(last)
}

// The words below 16 that pass the test, as bits.
fn bits<F: Fn(u32) -> bool>(test: F) -> u32
    requires { F.IsAlwaysCallable test }
{
    let mut found = 0;
    for word in 0..16u32 {
        if test(word) {
            found |= 1 << word;
        }
    }
    found
}

// The words below 16 to which the action leads, as bits.
fn results(book: &LawBook, s: u32, a: u32) -> u32 {
    bits(|t| book.is_step(s, a, t))
}

#[test]
fn drain_has_five_states(rt: HostRuntime) -> Result<(), Fail> {
    let book = opened(rt.alloc(), drain::SIZES, &drain::laws())?;
    assert_eq!(rt; bits(|s| book.is_state(s)), 0b1111_0001);
    assert_eq!(rt; book.sizes(), (3, 3));
    Ok(())
}

#[test]
fn drain_steps(rt: HostRuntime) -> Result<(), Fail> {
    let book = opened(rt.alloc(), drain::SIZES, &drain::laws())?;
    assert_eq!(rt; results(&book, 7, drain::THAW), 1 << 6);
    assert_eq!(rt; results(&book, 4, drain::RELEASE), 1 << 0);
    assert_eq!(rt; results(&book, 7, drain::RELEASE), 0);
    assert_eq!(rt; results(&book, 6, drain::DISCHARGE), 1 << 4);
    assert_eq!(rt; results(&book, 4, drain::THAW), 0);
    assert_eq!(rt; results(&book, 4, 3), 0);
    Ok(())
}

#[test]
fn twin_and_ring(rt: HostRuntime) -> Result<(), Fail> {
    let book = opened(rt.alloc(), twin::SIZES, &twin::laws())?;
    assert_eq!(rt; results(&book, 0, 0), (1 << 3) | (1 << 5));
    let ring = opened(rt.alloc(), ring::SIZES, &ring::laws())?;
    assert_eq!(rt; results(&ring, 0, 0), 1 << 0);
    assert_eq!(rt; results(&ring, 3, 0), 1 << 3);
    Ok(())
}

#[test]
fn openings_are_refused_in_order(rt: HostRuntime) -> Result<(), Fail> {
    let heap = rt.alloc();
    let eight = Law::dynamic_law(0, on(0), body(0x0f, 0xf0));
    let nine = Law::dynamic_law(0, on(0), body(0x0f, 0xf1));
    let _ = opened(heap, (8, 1), &[eight])?;
    assert_eq!(rt; refused(heap, (8, 1), &[eight, nine, nine])?, (13, 1, 1, 3));
    assert_eq!(rt; refused(heap, (7, 1), &[eight])?, (13, 1, 0, 1));
    let _ = opened(heap, (8, 1), &[eight; 512])?;
    assert_eq!(rt; refused(heap, (8, 1), &[nine; 513])?, (14, 0, 0, 513));
    assert_eq!(rt; refused(heap, (33, 1), &[nine; 513])?, (3, 0, 0, 513));
    assert_eq!(rt; refused(heap, (0, 1), &[])?, (3, 0, 0, 0));
    assert_eq!(rt; refused(heap, (8, 0), &[])?, (3, 0, 0, 0));
    assert_eq!(rt; refused(heap, (8, 65), &[])?, (3, 0, 0, 0));
    Ok(())
}

#[test]
fn wide_words(rt: HostRuntime) -> Result<(), Fail> {
    let top = Law::dynamic_law(63, on(31), body(0, 0));
    let book = opened(rt.alloc(), (32, 64), &[top])?;
    assert!(rt; book.is_state(u32::MAX));
    assert!(rt; book.is_step(0, 63, 1 << 31));
    assert!(rt; !book.is_step(0, 63, 0));
    assert!(rt; book.is_step(u32::MAX, 63, u32::MAX));
    assert!(rt; book.is_step(u32::MAX, 0, u32::MAX));
    assert!(rt; !book.is_step(u32::MAX, 0, u32::MAX - 1));
    assert!(rt; !book.is_step(0, u32::MAX, 0));
    Ok(())
}

#[test]
fn recorded_runs(rt: HostRuntime) -> Result<(), Fail> {
    let book = opened(rt.alloc(), drain::SIZES, &drain::laws())?;
    let thaw = Step {
        action: drain::THAW,
        to: 6,
    };
    let discharge = Step {
        action: drain::DISCHARGE,
        to: 4,
    };
    let release = Step {
        action: drain::RELEASE,
        to: 0,
    };
    assert_eq!(rt; check_record(&book, 7, &[thaw, discharge, release]), Ok(0));
    assert_eq!(rt; check_record(&book, 7, &[]), Ok(7));
    let early = [thaw, release, discharge];
    let Err(no) = check_record(&book, 7, &early) else {
        return Err(Fail::new("a release from 6 passes"));
    };
    assert_eq!(rt; numbers(no), (5, 7, 1));
    let Err(no) = check_record(&book, 3, &early) else {
        return Err(Fail::new("3 is no state"));
    };
    assert_eq!(rt; numbers(no), (4, 0, 0));
    Ok(())
}

#[test]
fn refusals_come_up_unchanged(rt: HostRuntime) -> Result<(), Fail> {
    let heap = rt.alloc();
    let release = Step {
        action: drain::RELEASE,
        to: 3,
    };
    let early = last_state(drain::laws().to_vec(heap)?, &[release]);
    assert_eq!(rt; early, Err(Refusal::at(Reason::NotAStep, Part::Step, 0)));
    let far = Law::dynamic_law(3, on(0), body(0, 0));
    let bad = last_state([far].to_vec(heap)?, &[release]);
    assert_eq!(rt; bad, Err(Refusal::at(Reason::BadEntry, Part::Law, 0)));
    Ok(())
}

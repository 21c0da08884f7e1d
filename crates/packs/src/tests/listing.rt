//! Results of actions, listed.
use crate::short::{body, off, on};
use crate::tests::opened;
use crate::{drain, twin};
use law_book::law::Law;
use std::test::Fail;
use theory::listing::Listing;
use theory::results::results;

#[test]
fn drain_and_twin_are_listed(rt: HostRuntime) -> Result<(), Fail> {
    let heap = rt.alloc();
    let book = opened(heap, drain::SIZES, &drain::laws())?;
    assert_eq!(rt; book.next(6, drain::DISCHARGE, 0), Some(4));
    assert_eq!(rt; book.next(6, drain::DISCHARGE, 4), Some(4));
    assert_eq!(rt; book.next(6, drain::DISCHARGE, 5), None);
    assert_eq!(rt; book.next(7, drain::RELEASE, 0), None);
    assert_eq!(rt; book.next(6, 3, 0), None);
    let twin = opened(heap, twin::SIZES, &twin::laws())?;
    assert_eq!(rt; results(heap, &twin, 0, 0)?.as_slice(), [3, 5].as_slice());
    assert_eq!(rt; twin.next(0, 0, u32::MAX), None);
    Ok(())
}

#[test]
fn few_fluents_turn_of_many(rt: HostRuntime) -> Result<(), Fail> {
    let heap = rt.alloc();
    // Action 0 makes fluent 31 true, fluent 5 false and 17 true; 8 or 9 then comes on, whichever the other lets.
    // Action 1 makes fluent 0 true.
    let laws = [
        Law::dynamic_law(0, on(31), body(0, 0)),
        Law::dynamic_law(0, off(5), body(0, 0)),
        Law::dynamic_law(0, on(17), body(0, 1 << 17)),
        Law::static_law(on(8), body(1 << 31, 1 << 9)),
        Law::static_law(on(9), body(1 << 31, 1 << 8)),
        Law::dynamic_law(1, on(0), body(0, 0)),
    ];
    let book = opened(heap, (32, 2), &laws)?;
    let after = 0x8000_0000 | 1 << 17;
    assert_eq!(rt; book.turnable(0, 0), after | 1 << 8 | 1 << 9);
    assert_eq!(rt;
        results(heap, &book, 0, 0)?.as_slice(),
        [after | 1 << 8, after | 1 << 9].as_slice()
    );
    assert_eq!(rt;
        results(heap, &book, 1 << 5, 0)?.as_slice(),
        [after | 1 << 8, after | 1 << 9].as_slice()
    );
    assert_eq!(rt; book.next(0, 0, after | 1 << 9 | 1), None);
    assert_eq!(rt; book.turnable(0, 1), 1);
    assert_eq!(rt; results(heap, &book, 0, 1)?.as_slice(), [1].as_slice());
    let still = u32::MAX - (1 << 5);
    assert_eq!(rt;
        results(heap, &book, still, 0)?.as_slice(),
        [still].as_slice()
    );
    Ok(())
}

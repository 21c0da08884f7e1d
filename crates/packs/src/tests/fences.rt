//! Fences over theories, and their bans.
use crate::drain;
use crate::short::body;
use crate::tests::opened;
use fence::ban::Ban;
use fence::fence::Fence;
use refusal::part::Part;
use refusal::reason::Reason;
use refusal::refusal::Refusal;
use std::test::Fail;
use theory::judging::Judging;
use theory::listing::Listing;
use theory::results::results;
use words::literals::Literals;

// No thaw while the pack is full.
const THAW_WHERE_FULL: Ban = Ban {
    action: drain::THAW,
    body: Literals {
        truths: 1 << drain::FULL,
        falses: 0,
    },
};

// No discharge while the pack is warm.
const DISCHARGE_WHERE_WARM: Ban = Ban {
    action: drain::DISCHARGE,
    body: Literals {
        truths: 0,
        falses: 1 << drain::COLD,
    },
};

#[test]
fn bans_take_steps_away(rt: HostRuntime) -> Result<(), Fail> {
    let heap = rt.alloc();
    let book = opened(heap, drain::SIZES, &drain::laws())?;
    let mut fence = Fence::over(book);
    assert_eq!(rt; fence.next(7, drain::THAW, 0), Some(6));
    fence.ban(THAW_WHERE_FULL)?;
    assert_eq!(rt; fence.sizes(), (3, 3));
    assert!(rt; fence.is_state(7) && !fence.is_state(3));
    assert!(rt; !fence.is_step(7, drain::THAW, 6) && fence.next(7, drain::THAW, 0).is_none());
    assert!(rt; fence.below().is_step(7, drain::THAW, 6));
    assert_eq!(rt;
        results(heap, &fence, 7, drain::DISCHARGE)?.as_slice(),
        [5].as_slice()
    );
    assert_eq!(rt;
        results(heap, &fence, 5, drain::THAW)?.as_slice(),
        [4].as_slice()
    );
    let mut outer = Fence::over(fence);
    outer.ban(DISCHARGE_WHERE_WARM)?;
    assert!(rt; outer.is_step(7, drain::DISCHARGE, 5) && !outer.is_step(6, drain::DISCHARGE, 4));
    assert!(rt; !outer.is_step(7, drain::THAW, 6) && outer.is_step(5, drain::THAW, 4));
    assert_eq!(rt; outer.next(6, drain::DISCHARGE, 0), None);
    assert_eq!(rt; outer.next(4, drain::RELEASE, 0), Some(0));
    Ok(())
}

#[test]
fn bans_are_refused_in_order(rt: HostRuntime) -> Result<(), Fail> {
    let heap = rt.alloc();
    let book = opened(heap, drain::SIZES, &drain::laws())?;
    let mut fence = Fence::over(book);
    let far = Ban {
        action: 3,
        body: body(0, 0),
    };
    let wide = Ban {
        action: 0,
        body: body(8, 0),
    };
    let bad = Err(Refusal::at(Reason::BadEntry, Part::Ban, 0));
    assert_eq!(rt; fence.ban(far), bad);
    assert_eq!(rt; fence.ban(wide), bad);
    assert!(rt; fence.bans().is_empty());
    for _ in 0..16 {
        fence.ban(THAW_WHERE_FULL)?;
    }
    assert!(rt; fence.bans().len() == 16);
    let full = Err(Refusal::plain(Reason::TableLength));
    assert_eq!(rt; fence.ban(DISCHARGE_WHERE_WARM), full);
    assert_eq!(rt; fence.ban(far), full);
    assert_eq!(rt; fence.bans(), [THAW_WHERE_FULL; 16].as_slice());
    assert!(rt; fence.is_step(6, drain::DISCHARGE, 4));
    Ok(())
}

#[test]
fn the_last_ban_counts(rt: HostRuntime) -> Result<(), Fail> {
    let heap = rt.alloc();
    let book = opened(heap, (9, 1), &[])?;
    let mut fence = Fence::over(book);
    let nine = Ban {
        action: 0,
        body: body(0x0f, 0x1f0),
    };
    assert_eq!(rt;
        fence.ban(nine),
        Err(Refusal::at(Reason::BadEntry, Part::Ban, 0))
    );
    let eight = Ban {
        action: 0,
        body: body(0x0f, 0xf0),
    };
    for _ in 0..15 {
        fence.ban(eight)?;
    }
    assert!(rt; !fence.is_step(0x10f, 0, 0x10f) && fence.is_step(0, 0, 0));
    let all = Ban {
        action: 0,
        body: body(0, 0),
    };
    fence.ban(all)?;
    assert!(rt; !fence.is_step(0, 0, 0) && fence.next(0, 0, 0).is_none());
    Ok(())
}

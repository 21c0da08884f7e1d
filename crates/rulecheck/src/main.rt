//! Shows the pack book Drain in words, and holds three recorded runs against it.
#![tactic(auto)]

mod names;
mod show;
mod why;

use anyhow::anyhow;
use law_book::book::LawBook;
use packs::drain;
use show::Report;
use theory::step::Step;

// The release that the pack allows: after the cells are warm and no longer full.
const DRAINED: [Step; 3] = [
    Step {
        action: drain::THAW,
        to: 6,
    },
    Step {
        action: drain::DISCHARGE,
        to: 4,
    },
    Step {
        action: drain::RELEASE,
        to: 0,
    },
];

// A release while the pack is cold and full, recorded as done.
const RELEASED_EARLY: [Step; 1] = [Step {
    action: drain::RELEASE,
    to: 3,
}];

// The same release, recorded as having changed nothing.
const RELEASED_IN_VAIN: [Step; 1] = [Step {
    action: drain::RELEASE,
    to: 7,
}];

fn main(rt: HostRuntime) -> anyhow::Result<()> {
    let laws = drain::laws().to_vec(rt.alloc())?;
    let Ok(book) = LawBook::open(drain::SIZES, laws) else {
        return Err(anyhow!("the book Drain does not open"));
    };
    let report = Report {
        rt: &rt,
        names: names::DRAIN,
        book: &book,
    };
    report.show_book("Pack book Drain")?;
    report.show_run(1, 7, &DRAINED)?;
    report.show_run(2, 7, &RELEASED_EARLY)?;
    report.show_run(3, 7, &RELEASED_IN_VAIN)?;
    Ok(())
}

//! A fence over a theory.
ghost use Rattle.std.specs.Prelude.{◌≡◌, ◌≤◌, length};

use crate::ban::Ban;

/// The theory below, held by value, and the first `count` bans of a plain table.
// A table with a count and no `ArrayVec`: of that a contract sees the bans alone. No clause could then say that a refused
// ban leaves every place of the table as it was, and no caller would learn that there are sixteen bans at most.
#[derive(Debug, Drop)]
pub struct Fence<W> {
    pub(crate) below: W,
    pub(crate) bans: [Ban; 16],
    pub(crate) count: usize,
    ghost whole: { length bans ≡ 16 },
    ghost few: { count ≤ 16 },
}

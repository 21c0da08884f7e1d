//! Drain: a pack that must keep its drain on while it is cold or full.
ghost use Rattle.std.specs.Prelude.{◌≡◌};
ghost use Rattle.packs.specs.Drain.{drain_laws};

use crate::short::{body, off, on};
use law_book::law::Law;

/// The counts of fluents and of actions.
pub const SIZES: (u32, u32) = (3, 3);

// The fluents. Fluents and actions are numbers and no enums: laws, links and queries take any number, so an enum would
// be turned into one at each use.
pub const COLD: u32 = 0;

pub const FULL: u32 = 1;

pub const DRAIN: u32 = 2;

// The actions.
pub const THAW: u32 = 0;

pub const RELEASE: u32 = 1;

pub const DISCHARGE: u32 = 2;

/// The drain is on if the pack is cold, and if it is full. Thaw, release and discharge each make their fluent false,
/// and may run where it is true.
pub fn laws() -> [Law; 8]
    ensures { result ≡ drain_laws }
{
    [
        Law::static_law(on(DRAIN), body(1 << COLD, 0)),
        Law::static_law(on(DRAIN), body(1 << FULL, 0)),
        Law::dynamic_law(THAW, off(COLD), body(0, 0)),
        Law::dynamic_law(RELEASE, off(DRAIN), body(0, 0)),
        Law::dynamic_law(DISCHARGE, off(FULL), body(0, 0)),
        Law::executability_law(THAW, body(1 << COLD, 0)),
        Law::executability_law(RELEASE, body(1 << DRAIN, 0)),
        Law::executability_law(DISCHARGE, body(1 << FULL, 0)),
    ]
}

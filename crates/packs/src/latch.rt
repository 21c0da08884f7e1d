//! Latch: the lid of a bought-in module, given as a graph. Pressing the lid shuts it or leaves it as it was.
ghost use Rattle.std.specs.Prelude.{◌≡◌};
ghost use Rattle.packs.specs.Latch.{latch_states, latch_links};

use transition_graph::link::Link;

/// The counts of fluents and of actions.
pub const SIZES: (u32, u32) = (2, 4);

// The fluents. Fluents and actions are numbers and no enums: laws, links and queries take any number, so an enum would
// be turned into one at each use.
pub const SHUT: u32 = 0;

pub const LOCKED: u32 = 1;

// The actions.
pub const PRESS: u32 = 0;

pub const LOCK: u32 = 1;

pub const UNLOCK: u32 = 2;

pub const LIFT: u32 = 3;

/// Open, shut, and shut and locked.
pub fn states() -> [u32; 3]
    ensures { result ≡ latch_states }
{
    [0, 1, 3]
}

/// Where each action leads.
pub fn links() -> [Link; 5]
    ensures { result ≡ latch_links }
{
    [
        Link {
            from: 0,
            action: PRESS,
            to: 1,
        },
        Link {
            from: 0,
            action: PRESS,
            to: 0,
        },
        Link {
            from: 1,
            action: LOCK,
            to: 3,
        },
        Link {
            from: 3,
            action: UNLOCK,
            to: 1,
        },
        Link {
            from: 1,
            action: LIFT,
            to: 0,
        },
    ]
}

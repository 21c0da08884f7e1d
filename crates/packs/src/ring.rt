//! Ring: two fluents that each follow from the other, and an action with no law.
ghost use Rattle.std.specs.Prelude.{◌≡◌};
ghost use Rattle.packs.specs.Ring.{ring_laws};

use crate::short::{body, on};
use law_book::law::Law;

/// The counts of fluents and of actions.
pub const SIZES: (u32, u32) = (2, 1);

/// Fluent 1 is true if 0 is, and 0 if 1 is.
pub fn laws() -> [Law; 2]
    ensures { result ≡ ring_laws }
{
    [
        Law::static_law(on(1), body(1, 0)),
        Law::static_law(on(0), body(2, 0)),
    ]
}

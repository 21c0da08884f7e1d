//! Twin: one action with two results, since two laws each hold off the other's fluent.
ghost use Rattle.std.specs.Prelude.{◌≡◌};
ghost use Rattle.packs.specs.Twin.{twin_laws};

use crate::short::{body, on};
use law_book::law::Law;

/// The counts of fluents and of actions.
pub const SIZES: (u32, u32) = (3, 1);

/// Fluent 1 is true if 0 is and 2 is not, and 2 if 0 is and 1 is not. The action makes 0 true if it is not, and may run
/// where all three are false.
pub fn laws() -> [Law; 4]
    ensures { result ≡ twin_laws }
{
    [
        Law::static_law(on(1), body(1, 4)),
        Law::static_law(on(2), body(1, 2)),
        Law::dynamic_law(0, on(0), body(0, 1)),
        Law::executability_law(0, body(0, 7)),
    ]
}

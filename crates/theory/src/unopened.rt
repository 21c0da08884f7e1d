//! Openings that are refused.
ghost use Rattle.std.specs.Prelude.{◌≡◌};

use refusal::refusal::Refusal;

/// Why a theory does not open, and the tables as they were handed in.
#[derive(Debug, Drop)]
pub struct Unopened<T> {
    pub refusal: Refusal,
    pub tables: T,
}

// For a caller that needs only the reason: `?` passes the refusal on unchanged.
impl<T: Drop> From<Unopened<T>> for Refusal {
    ghost from_gives = { λ u r. r ≡ u.refusal };

    fn from(value: Unopened<T>) -> Refusal {
        value.refusal
    }
}

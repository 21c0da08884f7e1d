//! The counts of fluents and of actions that a theory may have.
ghost use Rattle.theory.specs.Sizes.{InRange};

use refusal::reason::Reason;
use refusal::refusal::Refusal;

/// 1 to 32 fluents and 1 to 64 actions.
#[derive(Clone, Copy, PartialEq, Eq, Debug)]
pub struct Sizes {
    pub fluents: u32,
    pub actions: u32,
    ghost in_range: { InRange fluents actions },
}

// From the pair of both counts, fluents first. Counts that are out of range are refused.
impl TryFrom<(u32, u32)> for Sizes {
    ghost use Rattle.refusal.specs.Order.{Ordered};
    ghost use Rattle.theory.specs.Sizes.{sizes_refused};
    ghost use Rattle.theory.specs.Pairs.{IsPair};

    type Error = Refusal;

    ghost try_from_gives = { λ pair r. Ordered (sizes_refused pair.0 pair.1) (λ z. IsPair z pair) r };

    fn try_from(pair: (u32, u32)) -> Result<Sizes, Refusal> {
        let (fluents, actions) = pair;
        if !(1..=32).contains(&fluents) || !(1..=64).contains(&actions) {
            return Err(Refusal::plain(Reason::WrongSizes));
        }
        Ok(Sizes { fluents, actions })
    }
}

/// The pair of both counts, fluents first.
impl From<Sizes> for (u32, u32) {
    ghost use Rattle.theory.specs.Pairs.{IsPair};

    ghost from_gives = { λ z pair. IsPair z pair };

    fn from(sizes: Sizes) -> (u32, u32) {
        (sizes.fluents, sizes.actions)
    }
}

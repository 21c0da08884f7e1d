//! Steps that turn some fluents only.
ghost use Rattle.words.specs.Smallest.{SmallestFrom};
ghost use Rattle.theory.specs.Turning.{Turning};

use crate::judging::Judging;
use words::ascending::Ascending;
use words::turned::next_turned;

/// The smallest t, not below the least word, for which (s, a, t) is a step that turns no fluent but those of the
/// mask. Only words that differ from s within the mask are held against the theory: 2 to the power k of them at most,
/// where the mask has k fluents.
pub fn next_turning<T: Judging>(theory: &T, s: u32, a: u32, mask: u32, least: u32) -> Option<u32>
    ensures { SmallestFrom least (Turning (T.Judging.meaning theory.now) s a mask) result }
{
    Ascending::new(move |from| next_turned(s, mask, from), least).find(|t| theory.is_step(s, a, *t))
}

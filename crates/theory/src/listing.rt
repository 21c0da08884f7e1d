//! The listing interface of an action theory.
ghost use Rattle.words.specs.Smallest.{SmallestFrom};

use crate::judging::Judging;

/// A theory that can also list where an action leads.
pub trait Listing: Judging {
    /// The smallest t, not below the least word, for which (s, a, t) is a step.
    // s and a come apart, as in `Judging::is_step`.
    fn next(&self, s: u32, a: u32, least: u32) -> Option<u32>
        ensures { SmallestFrom least ((Self.Judging.meaning self.now).Step s a) result };
}

//! A law book lists where an action leads.
ghost use Rattle.std.specs.Prelude.{◌≡◌, ℕ, ◌↔◌};
ghost use Rattle.words.specs.Words.{bit};
ghost use Rattle.law_book.specs.Books.{laws_of};
ghost use Rattle.law_book.specs.Turns.{CanTurn, Covers};

use crate::book::LawBook;
use theory::listing::Listing;
use theory::turning::next_turning;

impl LawBook {
    /// The fluents that the action can turn in s, as a mask. Whatever it causes follows from its direct effects and the
    /// literals of s, so no step turns another.
    pub fn turnable(&self, s: u32, a: u32) -> u32
        ensures value { (f : ℕ) → bit result f ≡ 1 ↔ CanTurn self.now.sizes.fluents (laws_of self.now) s a f }
        ensures covers { Covers self.now.sizes.fluents self.now.sizes.actions (laws_of self.now) s a result }
    {
        self.caused(s, a, s).contrary_to(s)
    }
}

impl Listing for LawBook {
    // Only words that differ from s in the fluents that can turn are tried, in ascending order.
    fn next(&self, s: u32, a: u32, least: u32) -> Option<u32> {
        if !self.has_state(s) || a >= self.sizes.actions || !self.permits(s, a) {
            return None;
        }
        next_turning(self, s, a, self.turnable(s, a), least)
    }
}

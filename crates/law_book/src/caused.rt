//! What a law book causes between two words by an action.
ghost use Rattle.std.specs.Prelude.{ℕ, Bool, ◌⊎◌, ◌↔◌};
ghost use Rattle.words.specs.Words.{Member, Within};
ghost use Rattle.law_book.specs.Laws.{Effect, Closed, Least, Caused};
ghost use Rattle.law_book.specs.Books.{laws_of};
ghost use Rattle.law_book.specs.Leastness.{CausedIsLeast};

use crate::book::LawBook;
use words::literals::Literals;

impl LawBook {
    /// The literals caused between s and t by the action: the least set that contains its direct effects and the
    /// literals common to s and t and is closed under the static laws.
    // Three numbers, as the interface has a step (`Judging::is_step`).
    pub fn caused(&self, s: u32, a: u32, t: u32) -> Literals
        ensures value { (f : ℕ) (v : Bool) → Member result f v ↔ Caused self.now.sizes.fluents (laws_of self.now) s a t f v }
        ensures least { CausedIsLeast }
    {
        let common = Literals::common(self.sizes.fluents, s, t);
        let given = self.with_effects(s, a, common);
        self.closure(given)
    }

    // The set with the direct effects of the action in s.
    fn with_effects(&self, s: u32, a: u32, set: Literals) -> Literals
        ensures { (f : ℕ) (v : Bool) → Member result f v ↔ Effect (laws_of self.now) s a f v ⊎ Member set f v }
    {
        // A loop and no `fold`: the check alone did not find the proof of one, since `with` says what its result holds and
        // not which value it is. And not one loop with that of `pass`: here each law is held against s, there against the
        // set that grows.
        let mut grown = set;
        for law in &self.laws {
            if law.takes_effect(s, a) {
                grown = grown.with(law.head);
            }
        }
        grown
    }

    // The least set that contains the given one and is closed under the static laws: passes, until one adds nothing.
    fn closure(&self, set: Literals) -> Literals
        ensures { (f : ℕ) (v : Bool) → Member result f v ↔ Least (laws_of self.now) (Member set) f v }
    {
        let mut grown = set;
        loop {
            let next = self.pass(grown);
            if next.within(grown) {
                return grown;
            }
            grown = next;
        }
    }

    // The set with the heads of the static laws that fire, one pass down the table.
    fn pass(&self, set: Literals) -> Literals
        ensures keeps { Within set result }
        ensures sound { (f : ℕ) (v : Bool) → Member result f v → Least (laws_of self.now) (Member set) f v }
        ensures closed { Within result set → Closed (laws_of self.now) (Member set) }
    {
        // A loop of its own, as `with_effects` says.
        let mut grown = set;
        for law in &self.laws {
            if law.fires(grown) {
                grown = grown.with(law.head);
            }
        }
        grown
    }
}

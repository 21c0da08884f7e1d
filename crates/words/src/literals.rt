//! A set of literals as two masks, as the body of a law has it.
ghost use Rattle.std.specs.Prelude.{◌≡◌, ℕ, ◌<◌, Bool, ◌↔◌, IsTrue};
ghost use Rattle.words.specs.Words.{bit, Member, Holds, Within, Joined, Common, Contrary, Body};

use crate::literal::Literal;
use crate::word::{bit_at, covers, first_fluents, is_below};

/// The fluents whose literal of sign true is in the set, and those whose literal of sign false is.
// Two masks and no list of literals: a law has its body so, and a set of literals is then two words.
#[derive(Clone, Copy, PartialEq, Eq, Debug, Default)]
pub struct Literals {
    pub truths: u32,
    pub falses: u32,
}

// The most literals that a body has.
const MOST_LITERALS: u32 = 8;

impl Literals {
    /// The literals of the first fluents that are true in both words.
    pub fn common(fluents: u32, s: u32, t: u32) -> Literals
        ensures { (f : ℕ) (v : Bool) → Member result f v ↔ (f < 32) × Common fluents s t f v }
    {
        let all = first_fluents(fluents);
        Literals {
            truths: all & (s & t),
            falses: all & !(s | t),
        }
    }

    /// Whether the literal stands in the set.
    pub fn contains(self, literal: Literal) -> bool
        ensures { IsTrue result ↔ Member self literal.fluent literal.sign }
    {
        let mask = if literal.sign {
            self.truths
        } else {
            self.falses
        };
        bit_at(mask, literal.fluent) == 1
    }

    /// Whether each literal of the set is true in the word.
    pub fn holds_in(self, word: u32) -> bool
        ensures { IsTrue result ↔ Holds self word }
    {
        covers(word, self.truths) && covers(!word, self.falses)
    }

    /// Whether each literal of this set stands in the other.
    pub fn within(self, other: Literals) -> bool
        ensures { IsTrue result ↔ Within self other }
    {
        covers(other.truths, self.truths) && covers(other.falses, self.falses)
    }

    /// The set with one more literal, or the same where a word has no bit for its fluent.
    pub fn with(self, literal: Literal) -> Literals
        ensures { (f : ℕ) (v : Bool) → Member result f v ↔ Joined self literal f v }
    {
        if literal.fluent >= 32 {
            return self;
        }
        let one = 1 << literal.fluent;
        if literal.sign {
            Literals {
                truths: self.truths | one,
                ..self
            }
        } else {
            Literals {
                falses: self.falses | one,
                ..self
            }
        }
    }

    /// The fluents of which the set has a literal that is false in the word, as a mask.
    pub fn contrary_to(self, word: u32) -> u32
        ensures { (f : ℕ) → bit result f ≡ 1 ↔ Contrary self word f }
    {
        (self.truths & !word) | (self.falses & word)
    }

    /// Whether the set can be a body over these fluents: both masks are within them, and have at most eight ones
    /// together.
    pub fn is_body(self, fluents: u32) -> bool
        ensures { IsTrue result ↔ Body fluents self }
    {
        is_below(self.truths, fluents)
            && is_below(self.falses, fluents)
            && self.truths.count_ones() + self.falses.count_ones() <= MOST_LITERALS
    }
}

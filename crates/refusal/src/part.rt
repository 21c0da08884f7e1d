//! What the place of a refusal counts.
ghost use Rattle.std.specs.Prelude.{◌≡◌, Some};
ghost use Rattle.refusal.specs.Numbers.{part_number};
ghost use Rattle.refusal.specs.Sentences.{word_of};

use std::fmt;

/// One case for each part, with its number.
// `NoPart` is a case and no `Option` around the others: a refusal is a number, a part and a place, and 0 is a part's
// number.
#[derive(Clone, Copy, PartialEq, Eq, Debug)]
pub enum Part {
    NoPart = 0,
    Law = 1,
    State = 2,
    Link = 3,
    Ban = 4,
    Formula = 5,
    Node = 6,
    Step = 7,
}

impl Part {
    /// The number of the part, 0 to 7.
    // A method and no `From`: `u32::from` would not say which number it is.
    pub fn number(self) -> u32
        ensures { result ≡ part_number self }
    {
        self as u32
    }

    /// The part in a word, for a person.
    // A function beside `Display`, since it cannot fail.
    pub fn word(self) -> &'static str
        ensures { result.now ≡ word_of self }
    {
        match self {
            Part::NoPart => "no part",
            Part::Law => "law",
            Part::State => "state",
            Part::Link => "link",
            Part::Ban => "ban",
            Part::Formula => "formula",
            Part::Node => "node",
            Part::Step => "step",
        }
    }
}

// By hand: the derive of `thiserror` promises no text.
impl fmt::Display for Part {
    ghost output = { λ x. Some (word_of x) };

    fn fmt<W: fmt::Write>(&self, f: &mut fmt::Formatter<W>) -> fmt::Result {
        f.write_str(self.word())
    }
}

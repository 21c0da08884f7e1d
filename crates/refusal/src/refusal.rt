//! A refusal: a reason, the part that it speaks of, and the place in that part.
ghost use Rattle.std.specs.Prelude.{◌≡◌, Some};
ghost use Rattle.refusal.specs.Refusals.{plain, at};
ghost use Rattle.refusal.specs.Sentences.{shown_of};

use crate::part::Part;
use crate::reason::Reason;
use std::error::Error;
use std::fmt;

#[derive(Clone, Copy, PartialEq, Eq, Debug)]
pub struct Refusal {
    pub reason: Reason,
    pub part: Part,
    pub place: usize,
}

impl Refusal {
    /// The refusal that speaks of no part.
    pub fn plain(reason: Reason) -> Refusal
        ensures { result ≡ plain reason }
    {
        Refusal::at(reason, Part::NoPart, 0)
    }

    /// The refusal that names a part and a place in it.
    pub fn at(reason: Reason, part: Part, place: usize) -> Refusal
        ensures { result ≡ at reason part place }
    {
        Refusal {
            reason,
            part,
            place,
        }
    }
}

// By hand: the derive of `thiserror` promises no text.
impl fmt::Display for Refusal {
    ghost output = { λ x. Some (shown_of x) };

    fn fmt<W: fmt::Write>(&self, f: &mut fmt::Formatter<W>) -> fmt::Result {
        let number = self.reason.number();
        match self.part {
            Part::NoPart => write!(f, "refused by {number}: {}", self.reason),
            part => write!(
                f,
                "refused by {number} at {part} {} (part {}): {}",
                self.place,
                part.number(),
                self.reason
            ),
        }
    }
}

impl Error for Refusal {}

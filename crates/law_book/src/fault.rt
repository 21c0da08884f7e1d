//! Why a book has no such step.
ghost use Rattle.std.specs.Prelude.{◌≡◌, Some};
ghost use Rattle.law_book.specs.Faults.{fault_sentence};

use std::fmt;

/// The first of these that fits, in this order, is the fault of a step that is none.
#[derive(Clone, Copy, PartialEq, Eq, Debug)]
pub enum Fault {
    FromNotAState,
    NoSuchAction,
    MayNotRun,
    ToNotAState,
    Contrary,
    Uncaused,
}

impl Fault {
    /// The fault in words, for a person.
    // A function beside `Display`, since it cannot fail.
    pub fn sentence(self) -> &'static str
        ensures { result.now ≡ fault_sentence self }
    {
        match self {
            Fault::FromNotAState => "the step begins in a word that is not a state",
            Fault::NoSuchAction => "the book has no such action",
            Fault::MayNotRun => "the action may not run there",
            Fault::ToNotAState => "the step ends in a word that is not a state",
            Fault::Contrary => "something caused is not so after the step",
            Fault::Uncaused => "something is so after the step that nothing causes",
        }
    }
}

// By hand: the derive of `thiserror` promises no text.
impl fmt::Display for Fault {
    ghost output = { λ x. Some (fault_sentence x) };

    fn fmt<W: fmt::Write>(&self, f: &mut fmt::Formatter<W>) -> fmt::Result {
        f.write_str(self.sentence())
    }
}

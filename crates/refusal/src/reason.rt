//! Why a call refuses.
ghost use Rattle.std.specs.Prelude.{◌≡◌, Some};
ghost use Rattle.refusal.specs.Numbers.{reason_number};
ghost use Rattle.refusal.specs.Sentences.{sentence_of};

use std::fmt;

/// One case for each reason of the table of refusals, with its number.
#[derive(Clone, Copy, PartialEq, Eq, Debug)]
pub enum Reason {
    VacantPlace = 1,
    UnstartedRun = 2,
    WrongSizes = 3,
    NotAState = 4,
    NotAStep = 5,
    RecordFull = 6,
    NothingToWithdraw = 7,
    SearchTooLarge = 8,
    WorkingTableShort = 9,
    NoWay = 10,
    NoTrace = 11,
    OutputShort = 12,
    BadEntry = 13,
    TableLength = 14,
    TornClaim = 15,
    IdleRound = 16,
    NoChoiceLeft = 17,
    Strayed = 18,
    LeftOver = 19,
}

impl Reason {
    /// The number of the reason, 1 to 19.
    // A method and no `From`: `u32::from` would not say which number it is.
    pub fn number(self) -> u32
        ensures { result ≡ reason_number self }
    {
        self as u32
    }

    /// The reason in words, for a person.
    // A function beside `Display`, since it cannot fail.
    pub fn sentence(self) -> &'static str
        ensures { result.now ≡ sentence_of self }
    {
        match self {
            Reason::VacantPlace => "no program has been admitted to this place",
            Reason::UnstartedRun => "the run has not been started",
            Reason::WrongSizes => {
                "the counts of fluents and actions are out of range or not the theory's"
            }
            Reason::NotAState => "the start word is not a state of the theory",
            Reason::NotAStep => "the theory has no such step",
            Reason::RecordFull => "the record is full: it holds 255 steps",
            Reason::NothingToWithdraw => "the record has no step to withdraw",
            Reason::SearchTooLarge => "the program and the fluents need too large a search",
            Reason::WorkingTableShort => "a working table is too short",
            Reason::NoWay => "no continuation ends the program",
            Reason::NoTrace => "the record is no trace of the program",
            Reason::OutputShort => "the output is too short for the answer",
            Reason::BadEntry => "the entry breaks its rule",
            Reason::TableLength => "a table has too few or too many entries",
            Reason::TornClaim => "the bytes do not end in a whole claim",
            Reason::IdleRound => "a round of the while took no step",
            Reason::NoChoiceLeft => "the claim has no choice left for this node",
            Reason::Strayed => "the run strays from the program at this node",
            Reason::LeftOver => "the program has ended, but steps or choices are left over",
        }
    }
}

// By hand: the derive of `thiserror` promises no text.
impl fmt::Display for Reason {
    ghost output = { λ x. Some (sentence_of x) };

    fn fmt<W: fmt::Write>(&self, f: &mut fmt::Formatter<W>) -> fmt::Result {
        f.write_str(self.sentence())
    }
}

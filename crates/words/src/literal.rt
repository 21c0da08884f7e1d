//! A literal: a fluent and its sign.
ghost use Rattle.std.specs.Prelude.{◌↔◌, IsTrue};
ghost use Rattle.words.specs.Words.{Value};

use crate::word::bit_at;

/// That the fluent is true, or that it is false where the sign is.
#[derive(Clone, Copy, PartialEq, Eq, Debug)]
pub struct Literal {
    pub fluent: u32,
    pub sign: bool,
}

impl Literal {
    /// Whether the literal is true in the word; a fluent that the word has no bit for is false in it.
    pub fn holds_in(self, word: u32) -> bool
        ensures { IsTrue result ↔ Value word self.fluent self.sign }
    {
        bit_at(word, self.fluent) == u32::from(self.sign)
    }
}

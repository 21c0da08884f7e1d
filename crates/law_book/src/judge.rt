//! A law book judges words and steps.
ghost use Rattle.law_book.specs.Books.{book_meaning};
ghost use Rattle.std.proofs.Common.{rules};

use crate::book::LawBook;
use theory::judging::Judging;

impl Judging for LawBook {
    ghost meaning = { λ b. book_meaning b };

    ghost ranged = { Prim.search rules };

    fn sizes(&self) -> (u32, u32) {
        self.sizes.into()
    }

    fn is_state(&self, s: u32) -> bool {
        self.has_state(s)
    }

    fn is_step(&self, s: u32, a: u32, t: u32) -> bool {
        self.fault(s, a, t).is_none()
    }
}

//! A law book: a theory given by a table of laws.
ghost use Rattle.law_book.specs.Tables.{AllGood};

use crate::law::Law;
use theory::sizes::Sizes;

/// The sizes and the table of laws. The table is owned, so opening a book allocates nothing; every law in it keeps
/// the rules.
// No model: callers see the sizes and the laws, and clauses would name them of a view as they name them of the book.
#[derive(Debug, Drop)]
pub struct LawBook {
    pub(crate) sizes: Sizes,
    pub(crate) laws: Vec<Law>,
    ghost good: { AllGood sizes.fluents sizes.actions laws.items },
}

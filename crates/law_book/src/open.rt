//! The opening of a law book.
ghost use Rattle.std.specs.Prelude.{◌≡◌};
ghost use Rattle.refusal.specs.Order.{Ordered};
ghost use Rattle.theory.specs.Pairs.{IsPair};
ghost use Rattle.law_book.specs.Laws.{Good};
ghost use Rattle.law_book.specs.Opening.{Opens, open_refused, Opened};

use crate::book::LawBook;
use crate::law::Law;
use refusal::part::Part;
use refusal::reason::Reason;
use refusal::refusal::Refusal;
use refusal::rule::{Rule, check_entries};
use theory::sizes::Sizes;
use theory::unopened::Unopened;

// The most laws of a book.
const MOST_LAWS: usize = 512;

// The rules of a law in a book of these sizes.
impl Rule<Law> for Sizes {
    ghost keeps = { λ z law. Good z.fluents z.actions law };

    fn allows(&self, law: &Law) -> bool {
        law.is_good(*self)
    }
}

// The sizes of what opens. What does not is refused by the first reason against it: its sizes, the table's length,
// its first bad law.
fn check(pair: (u32, u32), laws: &[Law]) -> Result<Sizes, Refusal>
    ensures { Ordered (open_refused pair.0 pair.1 laws.now) (λ z. Opens z.fluents z.actions laws.now × IsPair z pair) result }
{
    let sizes = Sizes::try_from(pair)?;
    if laws.len() > MOST_LAWS {
        return Err(Refusal::plain(Reason::TableLength));
    }
    check_entries(&sizes, Part::Law, laws)?;
    Ok(sizes)
}

impl LawBook {
    /// The book of these sizes, fluents first, and laws. A refusal hands the table back.
    // A pair and no `Sizes`: the numbers come from outside, and `check` refuses those out of range. Not one function
    // with the opening of a graph: what both share, sizes and entries, is called in `check`, and one opening over a
    // type of tables would need a trait for this one `match`.
    pub fn open(sizes: (u32, u32), laws: Vec<Law>) -> Result<LawBook, Unopened<Vec<Law>>>
        ensures { Opened sizes.0 sizes.1 laws result }
    {
        match check(sizes, &laws) {
            Ok(sizes) => Ok(LawBook { sizes, laws }),
            Err(refusal) => Err(Unopened {
                refusal,
                tables: laws,
            }),
        }
    }
}

//! Tables whose every entry keeps a rule.
ghost use Rattle.std.specs.Prelude.{◌↔◌, IsTrue, IfSome, IfNone, All};
ghost use Rattle.refusal.specs.Entries.{FirstBad, entries_refused};
ghost use Rattle.refusal.specs.Order.{Ordered};

use crate::part::Part;
use crate::reason::Reason;
use crate::refusal::Refusal;

/// A rule for the entries of a table.
pub trait Rule<E> {
    // the entry keeps the rule
    ghost keeps: { Self → E → Type 0 };

    /// Whether the entry keeps the rule.
    fn allows(&self, entry: &E) -> bool
        ensures { IsTrue result ↔ keeps self.now entry.now };
}

// The place of the first entry that breaks the rule.
fn first_bad<E, R: Rule<E>>(rule: &R, entries: &[E]) -> Option<usize>
    ensures none { IfNone result (All (R.Rule.keeps rule.now) entries.now) }
    ensures some { IfSome result (FirstBad (R.Rule.keeps rule.now) entries.now) }
{
    entries.iter().position(|entry| !rule.allows(entry))
}

/// Refuses the first entry that breaks the rule, by the part that the table is.
pub fn check_entries<E, R: Rule<E>>(rule: &R, part: Part, entries: &[E]) -> Result<(), Refusal>
    ensures { Ordered (entries_refused part (R.Rule.keeps rule.now) entries.now) (λ _. All (R.Rule.keeps rule.now) entries.now) result }
{
    match first_bad(rule, entries) {
        Some(place) => Err(Refusal::at(Reason::BadEntry, part, place)),
        None => Ok(()),
    }
}

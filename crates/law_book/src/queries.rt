//! What a law book tells of itself: its laws, what a word breaks, and why a step is none.
ghost use Rattle.std.specs.Prelude.{◌≡◌, ◌↔◌, IsTrue, IfSome, IfNone, Any};
ghost use Rattle.refusal.specs.Entries.{FirstBad};
ghost use Rattle.law_book.specs.Laws.{IsState, MayRun, Permission, Permits, Silent};
ghost use Rattle.law_book.specs.Books.{laws_of, Breaks};
ghost use Rattle.law_book.specs.Faults.{Explained};
ghost use Rattle.law_book.specs.Tables.{Obeyed};

use crate::book::LawBook;
use crate::fault::Fault;
use crate::law::Law;
use words::literals::Literals;
use words::word::is_below;

impl LawBook {
    /// The laws, in the order of the table.
    pub fn laws(&self) -> &[Law]
        ensures { result.now ≡ laws_of self.now }
    {
        self.laws.as_slice()
    }

    /// Whether the book has a law at this place, and the word breaks it.
    pub fn breaks(&self, word: u32, place: usize) -> bool
        ensures { IsTrue result ↔ Breaks (laws_of self.now) word place }
    {
        // A `match`: with `is_some_and` the check alone did not find the proof, and nothing is shorter for it.
        match self.laws.get(place) {
            Some(law) => !law.is_obeyed(word),
            None => false,
        }
    }

    /// Why (s, a, t) is no step, or nothing where it is one.
    // Three numbers, as the interface has a step (`Judging::is_step`).
    pub fn fault(&self, s: u32, a: u32, t: u32) -> Option<Fault>
        ensures { Explained self.now.sizes.fluents self.now.sizes.actions (laws_of self.now) s a t result }
    {
        if !self.has_state(s) {
            return Some(Fault::FromNotAState);
        }
        if a >= self.sizes.actions {
            return Some(Fault::NoSuchAction);
        }
        if !self.permits(s, a) {
            return Some(Fault::MayNotRun);
        }
        if !self.has_state(t) {
            return Some(Fault::ToNotAState);
        }
        let caused = self.caused(s, a, t);
        let own = Literals::common(self.sizes.fluents, t, t);
        if !caused.within(own) {
            return Some(Fault::Contrary);
        }
        if !own.within(caused) {
            return Some(Fault::Uncaused);
        }
        None
    }

    // Whether the word is a state.
    pub(crate) fn has_state(&self, s: u32) -> bool
        ensures { IsTrue result ↔ IsState self.now.sizes.fluents (laws_of self.now) s }
    {
        is_below(s, self.sizes.fluents) && self.is_obeyed(s)
    }

    // Whether the word obeys every law.
    fn is_obeyed(&self, word: u32) -> bool
        ensures { IsTrue result ↔ Obeyed (laws_of self.now) word }
    {
        self.laws.iter().all(|law| law.is_obeyed(word))
    }

    // Whether the action may run in s: an executability law lets it, or it is silent, which is to have no such law. One
    // pass down the table: before the first of the action's executability laws there is none that could let it run.
    // Not inlined: with the call, `next` takes a fifth fewer instructions on Drain.
    #[inline(never)]
    pub(crate) fn permits(&self, s: u32, a: u32) -> bool
        ensures { IsTrue result ↔ MayRun (laws_of self.now) s a }
    {
        match self.first_permission(a) {
            Some(first) => some_permits(&self.laws[first..], s, a),
            None => true,
        }
    }

    // The place of the first executability law of the action; an action without one is silent.
    fn first_permission(&self, a: u32) -> Option<usize>
        ensures none { IfNone result (Silent (laws_of self.now) a) }
        ensures some { IfSome result (FirstBad (λ law. ¬ Permission a law) (laws_of self.now)) }
    {
        self.laws.iter().position(|law| law.is_permission(a))
    }
}

// Whether one of the laws is an executability law of the action whose body holds in the word.
fn some_permits(laws: &[Law], s: u32, a: u32) -> bool
    ensures { IsTrue result ↔ Any (Permits s a) laws.now }
{
    laws.iter().any(|law| law.permits(s, a))
}

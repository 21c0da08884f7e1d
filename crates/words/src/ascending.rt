//! Words taken upwards from a query, one after another.
ghost use Rattle.std.specs.Iterator.{at_most};
ghost use Rattle.std.specs.Prelude.{◌≡◌, Some};
ghost use Rattle.words.specs.Ascending.{Ascends, words_from};

/// The answers of a query that gives the next word, not below the one that it is asked from. After each answer it is
/// asked from the word above, up to the last word. A query that answers below the word that it is asked from is asked
/// from the word above that one next, so that every run comes to an end.
// A type of its own, and not `successors`: that has no end by its contract, and `collect` and `find` ask for one.
#[derive(Drop)]
pub struct Ascending<F> {
    query: F,
    from: Option<u32>,
}

impl<F: Fn(u32) -> Option<u32>> Ascending<F> {
    /// The query is asked from the least word first.
    pub fn new(query: F, least: u32) -> Self
        ensures query { result.query ≡ query }
        ensures from { result.from ≡ Some least }
    {
        Ascending {
            query,
            from: Some(least),
        }
    }
}

impl<F: Fn(u32) -> Option<u32>> Iterator for Ascending<F> {
    type Item = u32;

    ghost can_next = { λ s. F.IsAlwaysCallable s.query };

    ghost next_gives = { Ascends F.post };

    ghost remaining = { λ s. at_most (words_from s.from) };

    fn next(&mut self) -> Option<u32> {
        let from = self.from?;
        let t = (self.query)(from)?;
        self.from = t.max(from).checked_add(1);
        Some(t)
    }
}

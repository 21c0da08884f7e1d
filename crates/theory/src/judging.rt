//! The judging interface of an action theory.
ghost use Rattle.std.specs.Prelude.{◌≡◌, ◌↔◌, IsTrue};
ghost use Rattle.theory.specs.Meaning.{Meaning, Ranged};

/// A theory that can be asked for its sizes, its states and its steps. Every query takes any numbers.
pub trait Judging {
    // what the theory means
    ghost meaning: { Self → Meaning };

    /// The counts of fluents and of actions.
    // A pair and no `Sizes`: the interface answers both numbers, which any caller can take apart.
    fn sizes(&self) -> (u32, u32)
        ensures fluents { result.0 ≡ (meaning self.now).fluents }
        ensures actions { result.1 ≡ (meaning self.now).actions };

    /// Whether the word is a state.
    fn is_state(&self, s: u32) -> bool
        ensures { IsTrue result ↔ (meaning self.now).State s };

    /// Whether the action leads from s to t.
    // Three numbers and no struct of them: a query takes any, so that the struct would hold no fact (a `Link` is the
    // entry of a table, which keeps rules).
    fn is_step(&self, s: u32, a: u32, t: u32) -> bool
        ensures { IsTrue result ↔ (meaning self.now).Step s a t };

    // the meaning keeps the ranges of every theory
    ghost ranged: { (x : Self) → Ranged (meaning x) };
}

//! A fence judges words and steps by the theory below and its bans.
ghost use Rattle.fence.specs.Fences.{fence_meaning};
ghost use Rattle.std.proofs.Common.{rules};

use crate::fence::Fence;
use theory::judging::Judging;

impl<W: Judging> Judging for Fence<W> {
    ghost meaning = { λ f. fence_meaning W.Judging.meaning f };

    ghost ranged = { Prim.search rules };

    fn sizes(&self) -> (u32, u32) {
        self.below.sizes()
    }

    fn is_state(&self, s: u32) -> bool {
        self.below.is_state(s)
    }

    fn is_step(&self, s: u32, a: u32, t: u32) -> bool {
        !self.is_barred(s, a) && self.below.is_step(s, a, t)
    }
}

//! The making of a fence, and its bans.
ghost use Rattle.std.specs.Prelude.{◌≡◌, ◌↔◌, ◌≤◌, [], IsTrue, length};
ghost use Rattle.theory.specs.Meaning.{Same};
ghost use Rattle.fence.specs.Bans.{Barred};
ghost use Rattle.fence.specs.Fences.{bans_of, fence_meaning, Adds};

use crate::ban::Ban;
use crate::fence::Fence;
use refusal::part::Part;
use refusal::reason::Reason;
use refusal::refusal::Refusal;
use theory::judging::Judging;

// The most bans of a fence.
const MOST_BANS: usize = 16;

impl<W> Fence<W> {
    /// The theory below.
    pub fn below(&self) -> &W
        ensures { result.now ≡ self.now.below }
    {
        &self.below
    }

    /// The bans, in the order in which they came; sixteen at most.
    pub fn bans(&self) -> &[Ban]
        ensures value { result.now ≡ bans_of self.now }
        ensures few { length result.now ≤ 16 }
    {
        &self.bans[0..self.count]
    }

    // Whether a ban bars the action in s.
    pub(crate) fn is_barred(&self, s: u32, a: u32) -> bool
        ensures { IsTrue result ↔ Barred (bans_of self.now) s a }
    {
        self.bans().iter().any(|ban| ban.bars(s, a))
    }
}

impl<W: Judging> Fence<W> {
    /// The fence over the theory, with no ban yet: it means what the theory means.
    pub fn over(below: W) -> Fence<W>
        ensures below { result.below ≡ below }
        ensures bans { bans_of result ≡ [] }
        ensures means { Same (fence_meaning W.Judging.meaning result) (W.Judging.meaning below) }
    {
        Fence {
            below,
            bans: [Ban::default(); 16],
            count: 0,
        }
    }

    /// One more ban, unless there are sixteen already or it breaks its rule.
    pub fn ban(&mut self, ban: Ban) -> Result<(), Refusal>
        ensures { Adds W.Judging.meaning self.old ban result self.new }
    {
        if self.count >= MOST_BANS {
            return Err(Refusal::plain(Reason::TableLength));
        }
        if !ban.is_good(self.below.sizes()) {
            return Err(Refusal::at(Reason::BadEntry, Part::Ban, 0));
        }
        self.bans[self.count] = ban;
        self.count += 1;
        Ok(())
    }
}

//! A fence lists where an action leads, if the theory below does.
use crate::fence::Fence;
use theory::judging::Judging;
use theory::listing::Listing;

impl<W: Listing> Listing for Fence<W> {
    fn next(&self, s: u32, a: u32, least: u32) -> Option<u32> {
        if self.is_barred(s, a) {
            return None;
        }
        self.below.next(s, a, least)
    }
}

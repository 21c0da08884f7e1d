//! Words that differ from a given one in some fluents only.
ghost use Rattle.words.specs.Smallest.{SmallestFrom};
ghost use Rattle.words.specs.Words.{Turned};

/// The smallest word, not below the least, that differs from s in no fluent but those of the mask. A word that strays
/// in another fluent is left by a jump past all words that share its bits from the highest such fluent on.
pub fn next_turned(s: u32, mask: u32, least: u32) -> Option<u32>
    ensures { SmallestFrom least (Turned s mask) result }
{
    // A `while`: the proof of `find` over the library's `successors` does not close, since `find` asks for an end, and
    // `successors` has none by its contract.
    let mut next = u64::from(least);
    while next <= u64::from(u32::MAX) {
        let t = next as u32;
        let stray = (t ^ s) & !mask;
        if stray == 0 {
            return Some(t);
        }
        let place = 31 - stray.leading_zeros();
        next = ((next >> place) + 1) << place;
    }
    None
}

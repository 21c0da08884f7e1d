//! Words of 32 fluents, one bit each.
ghost use Rattle.std.specs.Prelude.{◌≡◌, ◌-◌, ◌^◌, ◌<◌, ◌↔◌, min, IsTrue};
ghost use Rattle.words.specs.Words.{bit, Covers};

/// Bit f of the word, for the fluent f; a word has no one past bit 31.
// A number and no `bool`: a bit is a number in the definitions.
pub fn bit_at(word: u32, fluent: u32) -> u32
    ensures { result ≡ bit word fluent }
{
    if fluent < 32 { (word >> fluent) & 1 } else { 0 }
}

// Whether the word has each one of the mask.
pub(crate) fn covers(word: u32, mask: u32) -> bool
    ensures { IsTrue result ↔ Covers word mask }
{
    word & mask == mask
}

/// Whether the word is below 2 to the power of the count of fluents.
pub fn is_below(word: u32, fluents: u32) -> bool
    ensures { IsTrue result ↔ (word < 2 ^ fluents) }
{
    fluents >= 32 || word >> fluents == 0
}

/// The word in which just the first fluents are true, all 32 of them where the count passes that.
pub fn first_fluents(count: u32) -> u32
    ensures { result ≡ 2 ^ min count 32 - 1 }
{
    if count >= 32 {
        u32::MAX
    } else {
        (1 << count) - 1
    }
}

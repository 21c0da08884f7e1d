//! The bans of a fence.
ghost use Rattle.std.specs.Prelude.{◌↔◌, IsTrue};
ghost use Rattle.fence.specs.Bans.{GoodBan, Bars};

use words::literals::Literals;

/// An action, and the literals that bar it: it may not run where all of them are true.
#[derive(Clone, Copy, PartialEq, Eq, Debug, Default)]
pub struct Ban {
    pub action: u32,
    pub body: Literals,
}

impl Ban {
    // Whether the ban keeps the rules over a theory of these sizes.
    pub(crate) fn is_good(self, sizes: (u32, u32)) -> bool
        ensures { IsTrue result ↔ GoodBan sizes.0 sizes.1 self }
    {
        let (fluents, actions) = sizes;
        self.action < actions && self.body.is_body(fluents)
    }

    /// Whether it bars the action in s.
    pub fn bars(self, s: u32, a: u32) -> bool
        ensures { IsTrue result ↔ Bars s a self }
    {
        self.action == a && self.body.holds_in(s)
    }
}

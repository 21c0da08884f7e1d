//! The records of a law book.
ghost use Rattle.std.specs.Prelude.{◌≡◌, ◌↔◌, IsTrue};
ghost use Rattle.law_book.specs.Laws.{Good, Unused, Obeys, Permission, Permits, TakesEffect, Fires, kind_number, static_law, dynamic_law, executability_law};

use theory::sizes::Sizes;
use words::literal::Literal;
use words::literals::Literals;

/// The kinds of laws, with their numbers.
#[derive(Clone, Copy, PartialEq, Eq, Debug)]
pub enum Kind {
    Static = 1,
    Dynamic = 2,
    Executability = 3,
}

impl Kind {
    /// The number of the kind, 1 to 3.
    // A method and no `From`: `u32::from` would not say which number it is.
    pub fn number(self) -> u32
        ensures { result ≡ kind_number self }
    {
        self as u32
    }
}

/// A record of the table. A static law does not use its action, nor an executability law its head.
// A record with a kind and no enum with fields: a table of laws is written so, and a book refuses a record in which an
// unused field has another value than its fixed one.
#[derive(Clone, Copy, PartialEq, Eq, Debug)]
pub struct Law {
    pub kind: Kind,
    pub action: u32,
    pub head: Literal,
    pub body: Literals,
}

impl Law {
    /// The static law: the head is true in each state where the body holds.
    pub fn static_law(head: Literal, body: Literals) -> Law
        ensures { result ≡ static_law head body }
    {
        Law {
            kind: Kind::Static,
            action: 0,
            head,
            body,
        }
    }

    /// The dynamic law: the action makes the head true if the body held before.
    pub fn dynamic_law(action: u32, head: Literal, body: Literals) -> Law
        ensures { result ≡ dynamic_law action head body }
    {
        Law {
            kind: Kind::Dynamic,
            action,
            head,
            body,
        }
    }

    /// The executability law: the action may run where the body holds.
    pub fn executability_law(action: u32, body: Literals) -> Law
        ensures { result ≡ executability_law action body }
    {
        Law {
            kind: Kind::Executability,
            action,
            head: Literal {
                fluent: 0,
                sign: true,
            },
            body,
        }
    }

    // Whether the fields that the kind does not use have their fixed values.
    fn leaves_unused(self) -> bool
        ensures { IsTrue result ↔ Unused self }
    {
        match self.kind {
            Kind::Static => self.action == 0,
            Kind::Dynamic => true,
            Kind::Executability => self.head.fluent == 0 && self.head.sign,
        }
    }

    // Whether the record keeps the rules of a book of these sizes.
    pub(crate) fn is_good(self, sizes: Sizes) -> bool
        ensures { IsTrue result ↔ Good sizes.fluents sizes.actions self }
    {
        self.action < sizes.actions
            && self.head.fluent < sizes.fluents
            && self.body.is_body(sizes.fluents)
            && self.leaves_unused()
    }

    // Whether the word obeys the law: it is not static, its body fails there, or its head is true there.
    pub(crate) fn is_obeyed(self, word: u32) -> bool
        ensures { IsTrue result ↔ Obeys word self }
    {
        match self.kind {
            Kind::Static => !self.body.holds_in(word) || self.head.holds_in(word),
            Kind::Dynamic | Kind::Executability => true,
        }
    }

    // Whether it is an executability law of the action.
    pub(crate) fn is_permission(self, a: u32) -> bool
        ensures { IsTrue result ↔ Permission a self }
    {
        self.kind == Kind::Executability && self.action == a
    }

    // Whether it is an executability law of the action whose body holds in the word.
    pub(crate) fn permits(self, s: u32, a: u32) -> bool
        ensures { IsTrue result ↔ Permits s a self }
    {
        self.is_permission(a) && self.body.holds_in(s)
    }

    // Whether it is a dynamic law of the action whose body holds in the word.
    pub(crate) fn takes_effect(self, s: u32, a: u32) -> bool
        ensures { IsTrue result ↔ TakesEffect s a self }
    {
        self.kind == Kind::Dynamic && self.action == a && self.body.holds_in(s)
    }

    // Whether it is a static law whose body stands in the set.
    pub(crate) fn fires(self, set: Literals) -> bool
        ensures { IsTrue result ↔ Fires set self }
    {
        self.kind == Kind::Static && self.body.within(set)
    }
}

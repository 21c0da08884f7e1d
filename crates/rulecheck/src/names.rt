//! The names of a pack's fluents and actions, and laws and words in them.
use law_book::law::{Kind, Law};
use std::fmt;
use words::literal::Literal;
use words::literals::Literals;

/// The names, in the order of the numbers.
#[derive(Clone, Copy)]
pub struct Names {
    fluents: &'static [&'static str],
    actions: &'static [&'static str],
}

// In the order of the constants of `packs::drain`.
pub const DRAIN: Names = Names {
    fluents: &["cold", "full", "drain"],
    actions: &["thaw", "release", "discharge"],
};

impl Names {
    /// A fluent by its name.
    pub fn fluent(self, number: u32) -> Name {
        Name {
            known: self.fluents,
            kind: "fluent",
            number,
        }
    }

    /// An action by its name.
    pub fn action(self, number: u32) -> Name {
        Name {
            known: self.actions,
            kind: "action",
            number,
        }
    }

    /// A literal, as 'cold' or 'not cold'.
    pub fn literal(self, literal: Literal) -> Worded {
        Worded {
            fluent: self.fluent(literal.fluent),
            sign: literal.sign,
        }
    }

    /// A word of a theory with so many fluents, as its number and its literals.
    pub fn word(self, fluents: u32, word: u32) -> Word {
        let literals = Literals::common(fluents, word, word);
        Word {
            word,
            literals: self.conditions("", literals),
        }
    }

    /// A law as a sentence.
    pub fn law(self, law: Law) -> Sentence {
        Sentence {
            kind: law.kind,
            action: self.action(law.action),
            head: self.literal(law.head),
            when: self.conditions(" if ", law.body),
        }
    }

    // The literals of a set, with commas, after the text that leads to them; nothing for none.
    fn conditions(self, lead: &'static str, literals: Literals) -> Conditions {
        Conditions {
            names: self,
            lead,
            literals,
        }
    }
}

/// The name that stands at the number, or else the kind with the number.
#[derive(Clone, Copy)]
pub struct Name {
    known: &'static [&'static str],
    kind: &'static str,
    number: u32,
}

// By hand, as those below: the text is chosen by a number, a sign or a kind.
impl fmt::Display for Name {
    fn fmt<W: fmt::Write>(&self, f: &mut fmt::Formatter<W>) -> fmt::Result {
        match self.known.get(self.number as usize) {
            Some(name) => f.write_str(name),
            None => write!(f, "{} {}", self.kind, self.number),
        }
    }
}

#[derive(Clone, Copy)]
pub struct Worded {
    fluent: Name,
    sign: bool,
}

impl fmt::Display for Worded {
    fn fmt<W: fmt::Write>(&self, f: &mut fmt::Formatter<W>) -> fmt::Result {
        let not = if self.sign { "" } else { "not " };
        write!(f, "{not}{}", self.fluent)
    }
}

#[derive(Clone, Copy)]
struct Conditions {
    names: Names,
    lead: &'static str,
    literals: Literals,
}

impl fmt::Display for Conditions {
    fn fmt<W: fmt::Write>(&self, f: &mut fmt::Formatter<W>) -> fmt::Result {
        // The same two loops stand in `show_difference`: an iterator over literals would be a type for two lines.
        let mut before = self.lead;
        for fluent in 0..32u32 {
            for sign in [true, false] {
                let literal = Literal { fluent, sign };
                if self.literals.contains(literal) {
                    write!(f, "{before}{}", self.names.literal(literal))?;
                    before = ", ";
                }
            }
        }
        Ok(())
    }
}

#[derive(Clone, Copy)]
pub struct Word {
    word: u32,
    literals: Conditions,
}

impl fmt::Display for Word {
    fn fmt<W: fmt::Write>(&self, f: &mut fmt::Formatter<W>) -> fmt::Result {
        write!(f, "{} ({})", self.word, self.literals)
    }
}

#[derive(Clone, Copy)]
pub struct Sentence {
    kind: Kind,
    action: Name,
    head: Worded,
    when: Conditions,
}

impl fmt::Display for Sentence {
    fn fmt<W: fmt::Write>(&self, f: &mut fmt::Formatter<W>) -> fmt::Result {
        let Sentence {
            kind,
            action,
            head,
            when,
        } = *self;
        match kind {
            Kind::Static => write!(f, "{head}{when}"),
            Kind::Dynamic => write!(f, "{action} causes {head}{when}"),
            Kind::Executability => write!(f, "{action} may run{when}"),
        }
    }
}

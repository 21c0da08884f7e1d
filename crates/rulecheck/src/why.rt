//! Why a word is no state of the book, and a step none of its steps.
use crate::show::Report;
use law_book::fault::Fault;
use refusal::part::Part;
use refusal::refusal::Refusal;
use std::io;
use theory::step::Step;
use words::literal::Literal;
use words::word::is_below;

impl<R: Print> Report<'_, R> {
    // What is wrong with a recorded run: its start, or the step that the refusal names.
    // Start and steps come apart, as in `check_record`.
    pub(crate) fn show_why(&self, start: u32, steps: &[Step], refusal: Refusal) -> io::Result<()> {
        let Part::Step = refusal.part else {
            return self.show_broken(start);
        };
        let Some(step) = steps.get(refusal.place) else {
            return Ok(());
        };
        let before = steps[..refusal.place].last();
        let s = before.map_or(start, |step| step.to);
        self.show_fault(s, *step)
    }

    // What is wrong with a step.
    fn show_fault(&self, s: u32, step: Step) -> io::Result<()> {
        let Some(fault) = self.book.fault(s, step.action, step.to) else {
            return Ok(());
        };
        println!(self.rt; "  because {fault}")?;
        match fault {
            Fault::FromNotAState => self.show_broken(s),
            Fault::ToNotAState => self.show_broken(step.to),
            Fault::Contrary | Fault::Uncaused => self.show_difference(s, step),
            Fault::NoSuchAction | Fault::MayNotRun => Ok(()),
        }
    }

    // Why a word is not a state: it has a bit past the fluents, or breaks laws.
    fn show_broken(&self, word: u32) -> io::Result<()> {
        let fluents = self.fluents();
        if !is_below(word, fluents) {
            println!(self.rt; "    {word} is not below 2 to the power {fluents}")?;
        }
        for (place, law) in self.book.laws().iter().enumerate() {
            if self.book.breaks(word, place) {
                println!(self.rt; "    {word} breaks law {place}: {}", self.names.law(*law))?;
            }
        }
        Ok(())
    }

    // The literals on which what is caused and the word at the step's end differ.
    fn show_difference(&self, s: u32, step: Step) -> io::Result<()> {
        let caused = self.book.caused(s, step.action, step.to);
        // The same two loops as in `Conditions`; why they stand twice is said there.
        for fluent in 0..self.fluents() {
            for sign in [true, false] {
                let literal = Literal { fluent, sign };
                let words = self.names.literal(literal);
                match (caused.contains(literal), literal.holds_in(step.to)) {
                    (true, false) => println!(self.rt; "    {words} is caused, and not so")?,
                    (false, true) => println!(self.rt; "    {words} is so, and not caused")?,
                    _ => {}
                }
            }
        }
        Ok(())
    }
}

//! A book and recorded runs, for a person.
use crate::names::{Names, Word};
use law_book::book::LawBook;
use std::io;
use theory::judging::Judging;
use theory::recorded::check_record;
use theory::step::Step;
use words::word::first_fluents;

// A book under the names of its fluents and actions, and where it is shown.
#[derive(Clone, Copy)]
pub(crate) struct Report<'a, R> {
    pub(crate) rt: &'a R,
    pub(crate) names: Names,
    pub(crate) book: &'a LawBook,
}

impl<R: Print> Report<'_, R> {
    // The sizes, the names, the laws and the states of the book.
    pub(crate) fn show_book(&self, title: &str) -> io::Result<()> {
        let (fluents, actions) = self.book.sizes();
        println!(self.rt; "{title}: {fluents} fluents, {actions} actions")?;
        println!(self.rt; "Fluents")?;
        for number in 0..fluents {
            println!(self.rt; "  {number}  {}", self.names.fluent(number))?;
        }
        println!(self.rt; "Actions")?;
        for number in 0..actions {
            println!(self.rt; "  {number}  {}", self.names.action(number))?;
        }
        println!(self.rt; "Laws")?;
        for (number, law) in self.book.laws().iter().enumerate() {
            println!(self.rt; "  {number}  {}", self.names.law(*law))?;
        }
        println!(self.rt; "States")?;
        for s in 0..=first_fluents(fluents) {
            if self.book.is_state(s) {
                println!(self.rt; "  {}", self.word(s))?;
            }
        }
        println!(self.rt; "")
    }

    // A recorded run step by step, and the verdict.
    // Start and steps come apart, as in `check_record`.
    pub(crate) fn show_run(&self, number: u32, start: u32, steps: &[Step]) -> io::Result<()> {
        println!(self.rt; "Recorded run {number}, from {}", self.word(start))?;
        for (place, step) in steps.iter().enumerate() {
            let action = self.names.action(step.action);
            println!(self.rt; "  step {place}: {action} to {}", self.word(step.to))?;
        }
        match check_record(self.book, start, steps) {
            Ok(last) => {
                let last = self.word(last);
                println!(self.rt; "accepted: a trajectory of the book, last state {last}")?;
            }
            Err(refusal) => {
                println!(self.rt; "{refusal}")?;
                self.show_why(start, steps, refusal)?;
            }
        }
        println!(self.rt; "")
    }

    // A word of the book.
    fn word(&self, word: u32) -> Word {
        self.names.word(self.fluents(), word)
    }

    // The count of the book's fluents.
    pub(crate) fn fluents(&self) -> u32 {
        let (fluents, _) = self.book.sizes();
        fluents
    }
}

// Answers as 01 has them: the number, and behind 0 the values; a verdict is 0 safe, 1 unsafe.
ghost use Rattle.printing.specs.Text.{Grows};

use drift::{Bound, Evidence, Judgement, Onset, Refusal, Space, Tolerance, Written};
use printing::{digits, say};
use std::io;
use std::io::Write;

#[derive(Clone, Copy, Debug, PartialEq, Eq)]
pub enum Answer {
    Refused(u8),
    One(usize),
    Two(usize, usize),
    Three(usize, usize, usize),
    Four(usize, usize, u64, u64),
}

impl From<usize> for Answer {
    fn from(count: usize) -> Answer {
        Answer::One(count)
    }
}

impl From<Judgement> for Answer {
    fn from(found: Judgement) -> Answer {
        match found {
            Judgement::Safe(states, count) => Answer::Three(0, states, count),
            Judgement::Unsafe(states, count) => Answer::Three(1, states, count),
        }
    }
}

impl From<Written> for Answer {
    fn from(found: Written) -> Answer {
        match found {
            Written::Safe(bytes) => Answer::Two(0, bytes),
            Written::Unsafe(bytes) => Answer::Two(1, bytes),
        }
    }
}

impl From<Evidence> for Answer {
    fn from(found: Evidence) -> Answer {
        match found {
            Evidence::Sheet => Answer::One(1),
            Evidence::Trail => Answer::One(2),
        }
    }
}

impl From<Tolerance> for Answer {
    fn from(found: Tolerance) -> Answer {
        Answer::Two(found.states, found.margin as usize)
    }
}

impl From<Space> for Answer {
    fn from(found: Space) -> Answer {
        Answer::Four(
            found.states,
            found.scratch,
            found.sheet as u64,
            found.steps as u64,
        )
    }
}

impl From<Bound> for Answer {
    fn from(found: Bound) -> Answer {
        match found {
            Bound::Safe(states, margin) => Answer::Three(0, states, margin),
            Bound::Unsafe(states) => Answer::Three(1, states, 0),
        }
    }
}

impl From<Onset> for Answer {
    fn from(found: Onset) -> Answer {
        match found {
            Onset::Safe(states) => Answer::Four(0, states, 0, 0),
            Onset::Within(states, base, rate) => Answer::Four(1, states, base, rate),
        }
    }
}

// What any operation answers.
pub fn told<T: Into<Answer> + Drop>(found: Result<T, Refusal>) -> Answer {
    match found {
        Ok(value) => value.into(),
        Err(r) => Answer::Refused(r.code()),
    }
}

pub fn put<W: Write>(to: &mut W, number: usize) -> io::Result<()>
    ensures grows { Grows (W.contents to.old) (W.contents to.new) }
{
    digits(to, number as u64)
}

// A value behind others.
pub fn show<W: Write>(to: &mut W, number: usize) -> io::Result<()>
    ensures grows { Grows (W.contents to.old) (W.contents to.new) }
{
    say(to, b" ")?;
    put(to, number)
}

fn show_long<W: Write>(to: &mut W, number: u64) -> io::Result<()>
    ensures grows { Grows (W.contents to.old) (W.contents to.new) }
{
    say(to, b" ")?;
    digits(to, number)
}

pub fn show_answer<W: Write>(to: &mut W, answer: Answer) -> io::Result<()>
    ensures grows { Grows (W.contents to.old) (W.contents to.new) }
{
    match answer {
        Answer::Refused(number) => put(to, number as usize),
        Answer::One(a) => {
            put(to, 0)?;
            show(to, a)
        }
        Answer::Two(a, b) => {
            put(to, 0)?;
            show(to, a)?;
            show(to, b)
        }
        Answer::Three(a, b, c) => {
            put(to, 0)?;
            show(to, a)?;
            show(to, b)?;
            show(to, c)
        }
        Answer::Four(a, b, c, d) => {
            put(to, 0)?;
            show(to, a)?;
            show(to, b)?;
            show_long(to, c)?;
            show_long(to, d)
        }
    }
}

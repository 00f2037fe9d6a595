// What is lent to an operation, which holds 7 everywhere at first: its lengths, by the fields of a line, and what is in it afterwards.
ghost use Rattle.std.specs.Prelude.{◌≤◌};
ghost use Rattle.limits.specs.Limits.{max_states};
ghost use Rattle.printing.specs.Text.{Grows};

use super::answers::{put, show};
use super::operation::Operation;
use limits::{MAX_STATES, Word};
use lines::field;
use printing::say;
use std::io;
use std::io::Write;

// A case is lent the first of these: enough for any plan.
pub type Scratch = [Word; MAX_STATES];

pub type Output = [u8; MAX_STATES];

// Where a line does not say.
const LENGTH: u16 = 4000;

// Of the four scratch slices and of the output.
#[derive(Clone, Copy)]
pub struct Lengths {
    pub s1: usize,
    pub s2: usize,
    pub s3: usize,
    pub s4: usize,
    pub out: usize,
}

// That in a field of the line.
pub fn length(line: &[u8], k: usize) -> usize
    ensures { result ≤ max_states }
{
    usize::from(field(line, k, LENGTH)).min(MAX_STATES)
}

// The output's stands in field 1, if there is one, the others in field k and the next three.
pub fn lengths_of(line: &[u8], k: usize) -> Lengths
    requires { k ≤ 2 }
    ensures { (result.s1 ≤ max_states) × (result.s2 ≤ max_states) × (result.s3 ≤ max_states) × (result.s4 ≤ max_states) × (result.out ≤ max_states) }
{
    Lengths {
        s1: length(line, k),
        s2: length(line, k + 1),
        s3: length(line, k + 2),
        s4: length(line, k + 3),
        out: length(line, 1),
    }
}

// 1 for a zero, 0 for what was there at first, 2 for anything else.
fn weight(x: Word) -> usize
    ensures { result ≤ 2 }
{
    match x {
        0 => 1,
        7 => 0,
        _ => 2,
    }
}

// How many of the numbers are zero, if the others are as they were.
fn zeros(a: &Scratch) -> usize {
    let mut n = 0;
    for i in 0..MAX_STATES {
        n += weight(a[i]);
    }
    n
}

// How many numbers of each scratch slice the call has left at zero.
pub fn show_zeros<W: Write>(
    to: &mut W,
    s1: &Scratch,
    s2: &Scratch,
    s3: &Scratch,
    s4: &Scratch,
) -> io::Result<()>
    ensures grows { Grows (W.contents to.old) (W.contents to.new) }
{
    say(to, b", zero")?;
    show(to, zeros(s1))?;
    show(to, zeros(s2))?;
    show(to, zeros(s3))?;
    show(to, zeros(s4))
}

// A byte of the output: the first behind a space, the others behind nothing or a comma.
fn show_byte<W: Write>(to: &mut W, i: usize, byte: u8, commas: bool) -> io::Result<()>
    ensures grows { Grows (W.contents to.old) (W.contents to.new) }
{
    if i == 0 {
        say(to, b" ")?;
    } else if commas {
        say(to, b",")?;
    }
    put(to, usize::from(byte))
}

fn show_bytes<W: Write>(to: &mut W, bytes: &[u8], commas: bool) -> io::Result<()>
    ensures grows { Grows (W.contents to.old) (W.contents to.new) }
{
    say(to, b", out")?;
    for i in 0..bytes.len() {
        show_byte(to, i, bytes[i], commas)?;
    }
    Ok(())
}

// The output, where an operation has one: marks together, evidence and plans with commas.
pub fn show_output<W: Write>(to: &mut W, operation: Operation, out: &[u8]) -> io::Result<()>
    ensures grows { Grows (W.contents to.old) (W.contents to.new) }
{
    match operation {
        Operation::Marks | Operation::MarksJoint => show_bytes(to, out, false),
        Operation::Write | Operation::WriteJoint | Operation::Plan => show_bytes(to, out, true),
        _ => Ok(()),
    }
}

// Cases of the public operations as data. On standard input a line that begins with '-' announces a plan, whose bytes stand on the next line, set
// apart by commas as 01 writes them. Each line after it is a case of that plan: `judge`, `marks`, `write`, the same with `_joint` behind them,
// `plan`, `sheet_margin` and `harm` with the lengths of what they are lent, `soonest` with a location and then the lengths, `margin`, `room`,
// `rounds`, or else the bytes of a piece of evidence, an empty line too. A line that begins with '#' is a comment. All but the plans' bytes is
// written back, a case with its answer behind it: 01's number and values; how many numbers of each scratch slice are zero then; and the output.
// `rounds` is no public operation: its values are the rounds of the marking and the marked states.
#![tactic(auto)]

mod answers;
mod counting;
mod lent;
mod operation;

ghost use Rattle.std.specs.Prelude.{◌≡◌, ◌+◌, ◌≤◌, ◌<◌, min, length, IfOk};
ghost use Rattle.printing.specs.Text.{Grows};

use answers::{Answer, show_answer, told};
use counting::rounds;
use lent::{Output, Scratch, length, lengths_of, show_output, show_zeros};
use limits::{MAX_STATES, Word};
use lines::{after, letter, line_end, long_field, numbers};
use operation::{Operation, operation_of};
use printing::say;
use reading::read_full;
use std::io;
use std::io::Write;

// Bytes of a plan or of evidence.
const BYTES: usize = 1024;

// Bytes of all lines.
const TEXT: usize = 131072;

// Evidence, with scratch as document 01's programs lend it.
fn check<W: Write>(to: &mut W, plan: &[u8], line: &[u8]) -> io::Result<()>
    ensures grows { Grows (W.contents to.old) (W.contents to.new) }
{
    let mut bytes = [0u8; BYTES];
    let n = numbers(line, &mut bytes);
    let mut a: [Word; 4000] = [7; 4000];
    let mut b: [Word; 4000] = [7; 4000];
    let mut c: [Word; 4000] = [7; 4000];
    let mut d: [Word; 4000] = [7; 4000];
    show_answer(
        to,
        told(drift::check_evidence(plan, &bytes[..n], &mut a, &mut b, &mut c, &mut d)),
    )
}

// An operation that is lent the caller's scratch.
fn call(
    operation: Operation,
    plan: &[u8],
    location: u64,
    s1: &mut [Word],
    s2: &mut [Word],
    s3: &mut [Word],
    s4: &mut [Word],
    out: &mut [u8],
) -> Answer {
    match operation {
        Operation::Marks => told(drift::marks(plan, s1, s2, s3, s4, out)),
        Operation::Write => told(drift::write_evidence(plan, s1, s2, s3, s4, out)),
        Operation::JudgeJoint => told(drift::judge_joint(plan, s1, s2, s3, s4)),
        Operation::MarksJoint => told(drift::marks_joint(plan, s1, s2, s3, s4, out)),
        Operation::WriteJoint => told(drift::write_joint(plan, s1, s2, s3, s4, out)),
        Operation::SheetMargin => told(drift::sheet_margin(plan, s1, s2, s3, s4)),
        Operation::Harm => told(drift::harm(plan, s1, s2, s3, s4)),
        Operation::Soonest => told(drift::soonest(plan, location, s1, s2, s3, s4)),
        _ => told(drift::judge(plan, s1, s2, s3, s4)),
    }
}

// The plan in shortest form, without scratch.
fn shorten<W: Write>(to: &mut W, plan: &[u8], line: &[u8]) -> io::Result<()>
    ensures grows { Grows (W.contents to.old) (W.contents to.new) }
{
    let mut out: Output = [7; MAX_STATES];
    let n = length(line, 1);
    show_answer(to, told(drift::write_plan(plan, &mut out[..n])))?;
    show_output(to, Operation::Plan, &out[..n])
}

// With scratch of the lengths in field k and the next three; a location stands in field 1.
fn run<W: Write>(
    to: &mut W,
    operation: Operation,
    plan: &[u8],
    line: &[u8],
    k: usize,
) -> io::Result<()>
    requires { k ≤ 2 }
    ensures grows { Grows (W.contents to.old) (W.contents to.new) }
{
    let mut s1: Scratch = [7; MAX_STATES];
    let mut s2: Scratch = [7; MAX_STATES];
    let mut s3: Scratch = [7; MAX_STATES];
    let mut s4: Scratch = [7; MAX_STATES];
    let mut out: Output = [7; MAX_STATES];
    let location = long_field(line, 1, 0);
    let lent = lengths_of(line, k);
    show_answer(
        to,
        call(
            operation,
            plan,
            location,
            &mut s1[..lent.s1],
            &mut s2[..lent.s2],
            &mut s3[..lent.s3],
            &mut s4[..lent.s4],
            &mut out[..lent.out],
        ),
    )?;
    show_zeros(to, &s1, &s2, &s3, &s4)?;
    show_output(to, operation, &out[..lent.out])
}

fn answer<W: Write>(to: &mut W, plan: &[u8], line: &[u8]) -> io::Result<()>
    ensures grows { Grows (W.contents to.old) (W.contents to.new) }
{
    let operation = operation_of(line);
    match operation {
        Operation::Margin => show_answer(to, told(drift::margin(plan))),
        Operation::Room => show_answer(to, told(drift::room(plan))),
        Operation::Check => check(to, plan, line),
        Operation::Plan => shorten(to, plan, line),
        Operation::Rounds => show_answer(to, rounds(plan)),
        Operation::Marks
        | Operation::MarksJoint
        | Operation::Write
        | Operation::WriteJoint
        | Operation::Soonest => run(to, operation, plan, line, 2),
        _ => run(to, operation, plan, line, 1),
    }
}

fn show<W: Write>(to: &mut W, plan: &[u8], line: &[u8]) -> io::Result<()>
    ensures grows { Grows (W.contents to.old) (W.contents to.new) }
{
    say(to, line)?;
    if letter(line, 0) != b'#' {
        say(to, b": ")?;
        answer(to, plan, line)?;
    }
    say(to, b"\n")
}

// The lines of a plan, from an offset up to the next plan.
fn cases<W: Write>(to: &mut W, plan: &[u8], text: &[u8], at: usize) -> io::Result<usize>
    requires { at ≤ length text.now }
    ensures next { IfOk result (λ r. (at ≤ r) × (r ≤ length text.now)) }
    ensures grows { Grows (W.contents to.old) (W.contents to.new) }
{
    let mut p = at;
    // A while: the next line begins where this one ends.
    while p < text.len() {
        if text[p] == b'-' {
            return Ok(p);
        }
        let end = line_end(text, p);
        show(to, plan, &text[p..end])?;
        p = after(text, end);
    }
    Ok(p)
}

// A plan that stands at an offset, and its lines.
fn planned<W: Write>(to: &mut W, text: &[u8], at: usize) -> io::Result<usize>
    requires { at ≤ length text.now }
    ensures next { IfOk result (λ r. (at ≤ r) × (r ≤ length text.now)) }
    ensures grows { Grows (W.contents to.old) (W.contents to.new) }
{
    let end = line_end(text, at);
    let mut bytes = [0u8; BYTES];
    let n = numbers(&text[at..end], &mut bytes);
    cases(to, &bytes[..n], text, after(text, end))
}

// A plan that is announced at an offset.
fn plan<W: Write>(to: &mut W, text: &[u8], at: usize) -> io::Result<usize>
    requires { at < length text.now }
    ensures next { IfOk result (λ r. (at < r) × (r ≤ length text.now)) }
    ensures grows { Grows (W.contents to.old) (W.contents to.new) }
{
    let end = line_end(text, at);
    say(to, &text[at..end])?;
    say(to, b"\n")?;
    planned(to, text, after(text, end))
}

fn plans<W: Write>(to: &mut W, text: &[u8]) -> io::Result<()>
    ensures grows { Grows (W.contents to.old) (W.contents to.new) }
{
    let mut p = 0;
    // A while: the next plan begins where the lines of this one end.
    while p < text.len() {
        p = plan(to, text, p)?;
    }
    Ok(())
}

fn main(rt: HostRuntime) -> io::Result<()> {
    let mut text = [0u8; TEXT];
    let n = read_full(&mut rt.reader(), &mut text)?;
    plans(&mut io::writer(&rt), &text[..n])
}

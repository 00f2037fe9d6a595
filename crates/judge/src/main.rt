// Document 01's first program: judges the plan on standard input. Three lines, or the refusal; 9 where our evidence would not fit the output.
#![tactic(auto)]

ghost use Rattle.printing.specs.Text.{Writes};
ghost use Rattle.judge.specs.Verdict.{verdict_text};

use drift::Judgement;
use limits::refusal::Refusal;
use printing::{line, refuse, say};
use reading::read_full;
use std::io;
use std::io::Write;

// The longest plan takes 762 bytes, so any longer input is refused within these, and no other refusal is lost.
const INPUT: usize = 4096;

const OUTPUT: usize = 65536;

fn show<W: Write>(to: &mut W, found: Result<Judgement, Refusal>) -> io::Result<()>
    ensures { Writes (W.contents to.old) (W.contents to.new) result (verdict_text found) }
{
    match found {
        Ok(Judgement::Safe(states, count)) => {
            say(to, b"verdict safe\n")?;
            line(to, b"states ", states as u64)?;
            line(to, b"in ", count as u64)
        }
        Ok(Judgement::Unsafe(states, count)) => {
            say(to, b"verdict unsafe\n")?;
            line(to, b"states ", states as u64)?;
            line(to, b"steps ", count as u64)
        }
        Err(r) => refuse(to, r.code()),
    }
}

fn judge<W: Write>(to: &mut W, plan: &[u8], out: &mut [u8]) -> io::Result<()> {
    let mut a = [0; 4000];
    let mut b = [0; 4000];
    let mut c = [0; 4000];
    let mut d = [0; 4000];
    if let Err(r) = drift::write_evidence(plan, &mut a, &mut b, &mut c, &mut d, out) {
        return refuse(to, r.code());
    }
    show(to, drift::judge(plan, &mut a, &mut b, &mut c, &mut d))
}

fn main(rt: HostRuntime) -> io::Result<()> {
    let mut input = [0u8; INPUT];
    let n = read_full(&mut rt.reader(), &mut input)?;
    let mut out = [0u8; OUTPUT];
    judge(&mut io::writer(&rt), &input[..n], &mut out)
}

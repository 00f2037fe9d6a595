// How slight a drift is harmless for ever if the plan on standard input is safe: its number of states, and a number A, every drift below a unit's A-th part
// being harmless. Or the refusal. docs/DRIFT.md says what A means for a crystal.
#![tactic(auto)]

ghost use Rattle.printing.specs.Text.{Writes};
ghost use Rattle.tolerance.specs.Margin.{margin_text};

use drift::Tolerance;
use limits::refusal::Refusal;
use printing::{line, refuse};
use reading::read_full;
use std::io;
use std::io::Write;

// The longest plan takes 762 bytes, so any longer input is refused within these, and no other refusal is lost.
const INPUT: usize = 4096;

fn show<W: Write>(to: &mut W, found: Result<Tolerance, Refusal>) -> io::Result<()>
    ensures { Writes (W.contents to.old) (W.contents to.new) result (margin_text found) }
{
    match found {
        Ok(bound) => {
            line(to, b"states ", bound.states as u64)?;
            line(to, b"margin ", bound.margin as u64)
        }
        Err(r) => refuse(to, r.code()),
    }
}

fn main(rt: HostRuntime) -> io::Result<()> {
    let mut input = [0u8; INPUT];
    let n = read_full(&mut rt.reader(), &mut input)?;
    show(&mut io::writer(&rt), drift::margin(&input[..n]))
}

// What to lend for the plan on standard input, told before anything is lent: its number of states, the length of each scratch slice, the most bytes of a
// sheet, and the most steps of our trail. Or the refusal.
#![tactic(auto)]

ghost use Rattle.printing.specs.Text.{Writes};
ghost use Rattle.room.specs.Needs.{needs_text};

use limits::refusal::Refusal;
use op_room::Space;
use printing::{line, refuse};
use reading::read_full;
use std::io;
use std::io::Write;

// The longest plan takes 762 bytes, so any longer input is refused within these, and no other refusal is lost.
const INPUT: usize = 4096;

fn show<W: Write>(to: &mut W, found: Result<Space, Refusal>) -> io::Result<()>
    ensures { Writes (W.contents to.old) (W.contents to.new) result (needs_text found) }
{
    match found {
        Ok(needs) => {
            line(to, b"states ", needs.states as u64)?;
            line(to, b"scratch ", needs.scratch as u64)?;
            line(to, b"sheet ", needs.sheet as u64)?;
            line(to, b"steps ", needs.steps as u64)
        }
        Err(r) => refuse(to, r.code()),
    }
}

fn main(rt: HostRuntime) -> io::Result<()> {
    let mut input = [0u8; INPUT];
    let n = read_full(&mut rt.reader(), &mut input)?;
    show(&mut io::writer(&rt), op_room::room(&input[..n]))
}

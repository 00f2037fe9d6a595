// How soon the plan on standard input gets to each of its locations with perfect clocks: a line for each, in order, with the least time in units, or
// `never`. Or the refusal.
#![tactic(auto)]

ghost use Rattle.std.specs.Prelude.{◌≡◌, IfOk};
ghost use Rattle.printing.specs.Text.{Writes};
ghost use Rattle.soonest.specs.Arrivals.{arrival_text, is_told};

use limits::refusal::Refusal;
use printing::{line, put, refuse, say};
use reading::read_full;
use std::io;
use std::io::Write;

// The longest plan takes 762 bytes, so any longer input is refused within these, and no other refusal is lost.
const INPUT: usize = 4096;

// The line of a location; false if the call is refused.
fn show<W: Write>(to: &mut W, location: u64, found: Result<usize, Refusal>) -> io::Result<bool>
    ensures text { Writes (W.contents to.old) (W.contents to.new) result (arrival_text location found) }
    ensures told { IfOk result (λ b. b ≡ is_told found) }
{
    match found {
        Ok(units) => {
            put(to, b"location ", location)?;
            line(to, b" time ", units as u64)?;
            Ok(true)
        }
        Err(Refusal::Unreached) => {
            put(to, b"location ", location)?;
            say(to, b" never\n")?;
            Ok(true)
        }
        Err(r) => {
            refuse(to, r.code())?;
            Ok(false)
        }
    }
}

// The same of a location of the plan.
fn show_time<W: Write>(to: &mut W, plan: &[u8], location: u64) -> io::Result<bool> {
    let mut a = [0; 4000];
    let mut b = [0; 4000];
    let mut c = [0; 4000];
    let mut d = [0; 4000];
    show(
        to,
        location,
        op_soonest::soonest(plan, location, &mut a, &mut b, &mut c, &mut d),
    )
}

fn show_times<W: Write>(to: &mut W, plan: &[u8], locations: u8) -> io::Result<()> {
    for location in 0..locations {
        if !show_time(to, plan, location as u64)? {
            return Ok(());
        }
    }
    Ok(())
}

fn main(rt: HostRuntime) -> io::Result<()> {
    let mut input = [0u8; INPUT];
    let n = read_full(&mut rt.reader(), &mut input)?;
    let mut to = io::writer(&rt);
    match plan_reader::read_model(&input[..n]) {
        Ok(plan) => show_times(&mut to, &input[..n], plan.model.locations),
        Err(r) => refuse(&mut to, r.code()),
    }
}

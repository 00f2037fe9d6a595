// Writes the shortest form of the plan on standard input, or the refusal: two files hold one plan where it writes the same for both.
#![tactic(auto)]

use printing::{refuse, send};
use reading::read_full;
use std::io;
use std::io::Write;

// The longest plan takes 762 bytes, so any longer input is refused within these, and no other refusal is lost. The shortest form is no longer than its plan.
const BYTES: usize = 4096;

fn write<W: Write>(to: &mut W, plan: &[u8], out: &mut [u8]) -> io::Result<()> {
    match op_plan::write_plan(plan, out) {
        Ok(n) => send(to, out, n),
        Err(r) => refuse(to, r.code()),
    }
}

fn main(rt: HostRuntime) -> io::Result<()> {
    let mut input = [0u8; BYTES];
    let n = read_full(&mut rt.reader(), &mut input)?;
    let mut out = [0u8; BYTES];
    write(&mut io::writer(&rt), &input[..n], &mut out)
}

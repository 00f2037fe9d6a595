// Document 01's second program: writes our evidence for the plan on standard input, or the refusal.
#![tactic(auto)]

use drift::Written;
use printing::{refuse, send};
use reading::read_full;
use std::io;
use std::io::Write;

// The longest plan takes 762 bytes, so any longer input is refused within these, and no other refusal is lost.
const INPUT: usize = 4096;

const OUTPUT: usize = 65536;

fn write<W: Write>(to: &mut W, plan: &[u8], out: &mut [u8]) -> io::Result<()> {
    let mut a = [0; 4000];
    let mut b = [0; 4000];
    let mut c = [0; 4000];
    let mut d = [0; 4000];
    match drift::write_evidence(plan, &mut a, &mut b, &mut c, &mut d, out) {
        Ok(Written::Safe(n) | Written::Unsafe(n)) => send(to, out, n),
        Err(r) => refuse(to, r.code()),
    }
}

fn main(rt: HostRuntime) -> io::Result<()> {
    let mut input = [0u8; INPUT];
    let n = read_full(&mut rt.reader(), &mut input)?;
    let mut out = [0u8; OUTPUT];
    write(&mut io::writer(&rt), &input[..n], &mut out)
}

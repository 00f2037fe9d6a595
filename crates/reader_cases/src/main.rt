// Pieces of evidence on standard input, each after a byte that says how many bytes it has. For each its bytes, then a line for every number that a
// reader gives, with the word `padded` where its form was not shortest, and the offset where the reader then stands; at the end the refusal, and, as
// the reader is asked again, the same refusal.
#![tactic(auto)]

ghost use Rattle.std.specs.Prelude.{◌≡◌, IfOk};
ghost use Rattle.number.specs.Shortest.{told};
ghost use Rattle.printing.specs.Text.{Grows};
ghost use Rattle.reader_cases.specs.Replied.{reply_of, replied, is_refused};

use number::Spelled;
use printing::{digits, say};
use reader::Reader;
use reading::read_full;
use std::io;
use std::io::Write;

fn show_number<W: Write>(to: &mut W, found: Spelled) -> io::Result<()>
    ensures grows { Grows (W.contents to.old) (W.contents to.new) }
{
    match found {
        Spelled::Shortest(value, _) => digits(to, u64::from(value)),
        Spelled::Padded(value, _) => {
            digits(to, u64::from(value))?;
            say(to, b" padded")
        }
        Spelled::Refused(refusal) => {
            say(to, b"refused ")?;
            digits(to, u64::from(refusal.code()))
        }
    }
}

// The reader's next answer on a line.
fn ask<W: Write>(to: &mut W, reader: &mut Reader) -> io::Result<Spelled>
    ensures reply { IfOk result (λ n. reply_of (told n) reader.new ≡ replied reader.old) }
    ensures bytes { reader.new.bytes ≡ reader.old.bytes }
    ensures grows { Grows (W.contents to.old) (W.contents to.new) }
{
    let found = reader.next();
    show_number(to, found)?;
    say(to, b" at ")?;
    digits(to, reader.at as u64)?;
    say(to, b"\n")?;
    Ok(found)
}

fn is_refused(found: Spelled) -> bool
    ensures { result ≡ is_refused (told found) }
{
    matches!(found, Spelled::Refused(_))
}

// Asks up to the first refusal, and once more.
fn ask_all<W: Write>(to: &mut W, bytes: &[u8]) -> io::Result<()>
    ensures grows { Grows (W.contents to.old) (W.contents to.new) }
{
    let mut reader = Reader::new(bytes);
    // A loop: how many numbers there are shows only as they are read.
    loop {
        let found = ask(to, &mut reader)?;
        if is_refused(found) {
            break;
        }
    }
    ask(to, &mut reader)?;
    Ok(())
}

fn show_byte<W: Write>(to: &mut W, value: u8) -> io::Result<()>
    ensures grows { Grows (W.contents to.old) (W.contents to.new) }
{
    say(to, b" ")?;
    digits(to, u64::from(value))
}

fn show_bytes<W: Write>(to: &mut W, bytes: &[u8]) -> io::Result<()>
    ensures grows { Grows (W.contents to.old) (W.contents to.new) }
{
    say(to, b"bytes")?;
    for &byte in bytes {
        show_byte(to, byte)?;
    }
    say(to, b"\n")
}

// Each piece as long as its first byte says, or to the end of the input where that comes first.
fn pieces<W: Write>(to: &mut W, input: &[u8]) -> io::Result<()>
    ensures grows { Grows (W.contents to.old) (W.contents to.new) }
{
    let mut rest = input;
    // A while: each piece says itself where the next begins.
    while let Some((&count, after)) = rest.split_first() {
        let (bytes, next) = after.split_at(after.len().min(usize::from(count)));
        show_bytes(to, bytes)?;
        ask_all(to, bytes)?;
        rest = next;
    }
    Ok(())
}

fn main(rt: HostRuntime) -> io::Result<()> {
    let mut input = [0u8; 4096];
    let n = read_full(&mut rt.reader(), &mut input)?;
    pieces(&mut io::writer(&rt), &input[..n])
}

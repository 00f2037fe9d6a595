// What programs write on standard output: words, numbers in decimal, bytes, and the line of a refusal. Each writes to any writer, and all of its text, or a
// front of it where a write fails.
#![tactic(auto)]

ghost use Rattle.std.specs.Prelude.{[], length, take, nat_le, if◌then◌else◌};
ghost use Rattle.std.specs.Fmt.{decimal};
ghost use Rattle.std.specs.Io.{WritesAtMost};
ghost use Rattle.std.specs.Io.KnownBytes.{WriteAppends};
ghost use Rattle.printing.specs.Text.{word_text, line_text, refusal_text, Writes};

use itoa::Buffer;
use std::io;
use std::io::{ErrorKind, Write};

// One write, tried again where a signal interrupts it.
fn write_some<W: Write>(to: &mut W, text: &[u8]) -> io::Result<usize>
    ensures bound { WritesAtMost result text.now }
    ensures bytes { WriteAppends (W.contents to.old) (W.contents to.new) result text.now }
{
    'tries: for _ in 0..u64::MAX {
        match to.write(text) {
            Ok(n) => return Ok(n),
            Err(e) if e.kind() == ErrorKind::Interrupted => {}
            Err(e) => return Err(e),
        }
    }
    Err(io::Error::from(ErrorKind::TimedOut))
}

pub fn say<W: Write>(to: &mut W, text: &[u8]) -> io::Result<()>
    ensures { Writes (W.contents to.old) (W.contents to.new) result text.now }
{
    let mut done = 0;
    // A while: done grows by what a write took.
    while done < text.len() {
        let n = write_some(to, &text[done..])?;
        if n == 0 {
            return Err(io::Error::from(ErrorKind::WriteZero));
        }
        done += n;
    }
    Ok(())
}

// A number in decimal.
pub fn digits<W: Write>(to: &mut W, number: u64) -> io::Result<()>
    ensures { Writes (W.contents to.old) (W.contents to.new) result (decimal number) }
{
    say(to, Buffer::new().format(number).as_bytes())
}

// A word and a number.
#[tactic(auto, using(crate::proofs::Writes::writes_then, crate::proofs::Writes::cut))]
pub fn put<W: Write>(to: &mut W, word: &[u8], number: u64) -> io::Result<()>
    ensures { Writes (W.contents to.old) (W.contents to.new) result
        (word_text word.now number) }
{
    say(to, word)?;
    digits(to, number)
}

// A line of both.
#[tactic(auto, using(crate::proofs::Writes::writes_then, crate::proofs::Writes::cut))]
pub fn line<W: Write>(to: &mut W, word: &[u8], number: u64) -> io::Result<()>
    ensures { Writes (W.contents to.old) (W.contents to.new) result
        (line_text word.now number) }
{
    put(to, word, number)?;
    say(to, b"\n")
}

// 01: "`refused` and its number".
pub fn refuse<W: Write>(to: &mut W, number: u8) -> io::Result<()>
    ensures { Writes (W.contents to.old) (W.contents to.new) result
        (refusal_text number) }
{
    line(to, b"refused ", u64::from(number))
}

// The first n bytes, or none where there are fewer.
pub fn send<W: Write>(to: &mut W, out: &[u8], n: usize) -> io::Result<()>
    ensures { Writes (W.contents to.old) (W.contents to.new) result
        (if nat_le n (length out.now) then take n out.now else []) }
{
    match out.get(..n) {
        Some(front) => say(to, front),
        None => Ok(()),
    }
}

// Lines of text that hold cases: where a line ends, what it begins with, and the numbers on it in decimal, set apart by commas.
#![tactic(auto)]

ghost use Rattle.std.specs.Prelude.{◌≡◌, ◌+◌, ◌≤◌, min, length};
ghost use Rattle.std.specs.Counts.{IsPrefixLen};

// Where the line that begins at an offset ends.
pub fn line_end(text: &[u8], at: usize) -> usize
    requires { at ≤ length text.now }
    ensures { (at ≤ result) × (result ≤ length text.now) }
{
    match text[at..].iter().position(|&c| c == b'\n') {
        Some(k) => at + k,
        None => text.len(),
    }
}

// Where the next line begins.
pub fn after(text: &[u8], end: usize) -> usize
    requires { end ≤ length text.now }
    ensures { result ≡ min (end + 1) (length text.now) }
{
    text.len().min(end + 1)
}

// The character at a place of a line, or 0 behind its end. An Option is no plainer: each caller compares it with one letter, and 0 is none.
pub fn letter(line: &[u8], i: usize) -> u8 {
    line.get(i).copied().unwrap_or(0)
}

// A number with one more decimal digit, as far as its type holds it.
fn extended(value: u16, digit: u8) -> u16 {
    value.wrapping_mul(10).wrapping_add(u16::from(digit % 16))
}

// One more number, if there is room.
fn appended(out: &mut [u8], n: usize, value: u16) -> usize
    requires { n ≤ length out.old }
    ensures { result ≤ length out.new }
{
    if n < out.len() {
        out[n] = (value % 256) as u8;
        return n + 1;
    }
    n
}

// The numbers of a line at the front of out; how many. An empty line has none.
pub fn numbers(line: &[u8], out: &mut [u8]) -> usize
    ensures { IsPrefixLen result out.new }
{
    if line.is_empty() {
        return 0;
    }
    let mut n = 0;
    let mut value = 0;
    for &c in line {
        if c == b',' {
            n = appended(out, n, value);
            value = 0;
        } else {
            value = extended(value, c);
        }
    }
    appended(out, n, value)
}

// Whether a character sets fields apart.
fn apart(c: u8) -> bool {
    c == b' ' || c == b','
}

// A number with one more decimal digit, or the greatest where there may be no room for it.
fn lengthened(value: u64, digit: u8) -> u64 {
    if u64::MAX / 10 - 1 < value {
        return u64::MAX;
    }
    value * 10 + u64::from(digit % 16)
}

// The number of a field with one more character, if that is a digit of this field.
fn read_on(value: u64, c: u8, here: bool) -> u64 {
    if here && !apart(c) {
        lengthened(value, c)
    } else {
        value
    }
}

// The number in field k of a line, fields being set apart by a space or a comma; or another one, if the line has fewer fields.
pub fn long_field(line: &[u8], k: usize, otherwise: u64) -> u64 {
    let mut value = 0;
    let mut at = 0;
    for &c in line {
        at += usize::from(apart(c));
        value = read_on(value, c, at == k);
    }
    if at < k { otherwise } else { value }
}

// The same as far as a shorter type holds it.
pub fn field(line: &[u8], k: usize, otherwise: u16) -> u16 {
    (long_field(line, k, u64::from(otherwise)) % 65536) as u16
}

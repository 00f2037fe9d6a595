// A sheet from anywhere: its numbers read, its rules tested. Linear in the bytes, the states and their steps.
#![tactic(auto)]

ghost use Rattle.std.specs.Prelude.{◌≡◌};
ghost use Rattle.limits.specs.Refusal.{refusal_number};
ghost use Rattle.sheet.specs.Answer.{Lent, sheet_answer};

use limits::Word;
use limits::refusal::Refusal;
use model::Model;

// The bytes from an offset on, after the number 1, spell with nothing after a sheet that keeps the rules; or else the refusal: EndsTooSoon, ThirdTopBit,
// Padded, SheetNumber, BytesRemain or SheetRule. Into `sheet` go the numbers that are read.
pub fn check_sheet(
    m: Model,
    bytes: &[u8],
    at: usize,
    allowed: &[u8],
    first: &[u32],
    targets: &[Word],
    shapes: &[Word],
    sheet: &mut [Word],
) -> Result<(), Refusal>
    requires { Lent m allowed.now first.now targets.now shapes.now sheet.old }
    ensures { refusal_number result ≡ sheet_answer m bytes.now at }
{
    let end = sheet_numbers::read_numbers(bytes, at, allowed, sheet)?;
    if end < bytes.len() {
        return Err(Refusal::BytesRemain);
    }
    if !sheet_rules::sheet_keeps(m, first, targets, shapes, sheet) {
        return Err(Refusal::SheetRule);
    }
    Ok(())
}

// The numbers of a sheet, read one by one into a lent slice.
#![tactic(auto)]

ghost use Rattle.std.specs.Prelude.{◌≡◌, ◌-◌, ◌*◌, length, eqb};
ghost use Rattle.sheet_numbers.specs.Numbers.{SheetRoom, number_keeps, numbers_from, flagged, numbers_of};

use limits::Word;
use limits::refusal::Refusal;
use number::Number;

// A number may stand for a state: it is at most `top`, and 0 where the state is not allowed.
#[tactic(auto, unfolding(crate::specs::Numbers::number_keeps))]
fn number_keeps(allowed: u8, top: u32, v: u32) -> bool
    ensures { result ≡ number_keeps (eqb allowed 1) top v }
{
    v <= top && (allowed == 1 || v == 0)
}

// A number for each state, from an offset on, each tested before it is cut to a `Word`; the offset after them.
#[tactic(auto, using(crate::proofs::Reading::numbers_read))]
pub fn read_numbers(
    bytes: &[u8],
    at: usize,
    allowed: &[u8],
    sheet: &mut [Word],
) -> Result<usize, Refusal>
    requires { SheetRoom allowed.now sheet.old }
    ensures { numbers_of result sheet.new
        ≡ numbers_from (flagged allowed.now) (2 * length sheet.old - 1) bytes.now
        (length sheet.old) 0 at }
{
    let top = (2 * sheet.len() - 1) as u32;
    let mut end = at;
    for i in 0..sheet.len() {
        let got = evidence_number::read(bytes, end);
        let Number::Value(v, next) = got else {
            return Err(got.refusal());
        };
        if !number_keeps(allowed[i], top, v) {
            return Err(Refusal::SheetNumber);
        }
        sheet[i] = v as Word;
        end = next;
    }
    Ok(end)
}

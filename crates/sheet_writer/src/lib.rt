// Our sheet from what is known of the states of a model: its numbers in a slice, or spelled in shortest form.
#![tactic(auto)]

ghost use Rattle.std.specs.Prelude.{◌≡◌, ◌∷◌, ◌+◌, ◌*◌, ◌/◌, ◌^◌, ◌≤◌, ◌<◌, ltb, length};
ghost use Rattle.limits.specs.Limits.{max_states};
ghost use Rattle.theory.specs.Below.{bit};
ghost use Rattle.theory.specs.Sheet.{our_sheet};
ghost use Rattle.theory.specs.WithoutTouch.{with_touch};
ghost use Rattle.number.specs.Number.{spell_all};
ghost use Rattle.model.specs.Model.{Lawful};
ghost use Rattle.graph.specs.Plan.{system_of_model};
ghost use Rattle.spelling.specs.Lays.{Lays};
ghost use Rattle.sheet_writer.specs.Data.{SheetData};

use limits::Word;
use model::Model;

// 01: "2h+i". The lowest bit beside a height tells of closed walks, so the mark takes its place; a state with a number other than 0 is marked.
fn state_number(height: Word, mark: Word) -> usize
    requires { height < 2 * max_states }
    ensures { (result ≡ height / 2 * 2 + bit (ltb 0 mark)) × (result < 2 * max_states) }
{
    usize::from(height / 2 * 2) + usize::from(0 < mark)
}

// The numbers of our sheet after the first. Contracts name the model and whether it has touch steps; no code reads them here.
pub fn fill_sheet(m: Model, touch: bool, heights: &[Word], marks: &[Word], sheet: &mut [Word])
    requires { Lawful m × SheetData (with_touch touch (system_of_model m)) heights.now marks.now × (length sheet.old ≡ length heights.now) }
    ensures { sheet.new ≡ our_sheet (with_touch touch (system_of_model m)) }
{
    for (p, &height) in heights.iter().enumerate() {
        sheet[p] = state_number(height, marks[p]) as Word;
    }
}

// Our sheet from what is known of the states: 1, then a number for each. With no output it measures.
pub fn put_sheet(m: Model, touch: bool, heights: &[Word], marks: &[Word], out: &mut [u8]) -> usize
    requires { Lawful m × SheetData (with_touch touch (system_of_model m)) heights.now marks.now }
    ensures { Lays out.old out.new 0 result (spell_all (1 ∷ our_sheet (with_touch touch (system_of_model m)))) }
{
    let mut end = spelling::put(out, 0, 1);
    for (p, &height) in heights.iter().enumerate() {
        end = spelling::put(out, end, state_number(height, marks[p]) as u32);
    }
    end
}

// Evidence from anywhere, checked for a model: a sheet or a trail, by its first number.
#![tactic(auto)]

ghost use Rattle.std.specs.Prelude.{◌≡◌, length};
ghost use Rattle.limits.specs.Refusal.{refusal_number};
ghost use Rattle.graph.specs.States.{states};
ghost use Rattle.sheet.specs.Answer.{sheet_answer};
ghost use Rattle.replay.specs.Trail.{trail_answer};
ghost use Rattle.evidence.specs.Evidence.{numbered, checked};

use graph::Space;
use limits::refusal::Refusal;
use limits::{MAX_REGIONS, Word};
use model::Plan;
use number::Number;
use tables::Task;

// What passed.
#[derive(Clone, Copy, Debug, PartialEq, Eq)]
pub enum Evidence {
    Sheet,
    Trail,
}

// The check of a sheet. The rules need the tables of the model, but no chains through the corners.
#[derive(Drop)]
struct SheetCheck<'a, 'b> {
    bytes: &'a [u8],
    at: usize,
    sheet: &'b mut [Word],
}

impl<'a, 'b> Task for SheetCheck<'a, 'b> {
    ghost use Rattle.std.specs.Prelude.{◌≡◌, length};
    ghost use Rattle.limits.specs.Refusal.{refusal_number};
    ghost use Rattle.graph.specs.States.{states};
    ghost use Rattle.sheet.specs.Answer.{sheet_answer};

    type Answer = Result<(), Refusal>;

    ghost asks = { λ t p. length t.sheet.now ≡ states p.model };

    ghost gives = { λ t p new r. (refusal_number r ≡ sheet_answer p.model t.bytes.now t.at) × (new.sheet.ghost_name ≡ t.sheet.ghost_name) };

    fn run(
        &mut self,
        space: &Space,
        allowed: &mut [u8],
        first: &mut [u32],
        targets: &mut [Word],
        shapes: &mut [Word],
    ) -> Result<(), Refusal> {
        tables::fill_tables(space, allowed, first, targets, shapes);
        sheet::check_sheet(
            space.plan.model,
            self.bytes,
            self.at,
            allowed,
            first,
            targets,
            shapes,
            self.sheet,
        )
    }
}

fn check_sheet(plan: &Plan, bytes: &[u8], at: usize, sheet: &mut [Word]) -> Result<(), Refusal>
    requires { length sheet.old ≡ states plan.now.model }
    ensures { refusal_number result ≡ sheet_answer plan.now.model bytes.now at }
{
    let mut check = SheetCheck { bytes, at, sheet };
    tables::run(&mut check, plan)
}

// Never put into its caller, so that the list of regions here does not lie beside the tables of a sheet's check.
#[inline(never)]
fn check_trail(plan: &Plan, bytes: &[u8], at: usize) -> Result<(), Refusal>
    ensures { refusal_number result ≡ trail_answer plan.now.model bytes.now at }
{
    let mut regions = [0u32; MAX_REGIONS];
    let r = region_table::select(plan.model.clocks, plan.model.ceiling, &mut regions);
    let space = Space {
        plan,
        table: &regions[..r],
    };
    replay::replay(&space, bytes, at)
}

// Which kind of evidence the bytes are, where they pass, by the first number; or the refusal: EndsTooSoon, ThirdTopBit, Padded, BytesRemain, NoEvidence or
// one of a sheet's or a trail's own. Into `sheet` go the numbers of a sheet.
#[tactic(auto, unfolding(crate::specs::Evidence::checked, crate::specs::Evidence::of_kind))]
pub fn check(plan: &Plan, bytes: &[u8], sheet: &mut [Word]) -> Result<Evidence, Refusal>
    requires { length sheet.old ≡ states plan.now.model }
    ensures { numbered result ≡ checked plan.now.model bytes.now }
{
    let got = evidence_number::read(bytes, 0);
    let Number::Value(kind, at) = got else {
        return Err(got.refusal());
    };
    match kind {
        1 => {
            check_sheet(plan, bytes, at, sheet)?;
            Ok(Evidence::Sheet)
        }
        2 => {
            check_trail(plan, bytes, at)?;
            Ok(Evidence::Trail)
        }
        _ => Err(Refusal::NoEvidence),
    }
}

// A trail, read from its bytes and replayed step by step (01, "Evidence").
#![tactic(auto)]

mod walk;

ghost use Rattle.std.specs.Prelude.{◌≡◌, ◌<◌};
ghost use Rattle.region.specs.View.{view};
ghost use Rattle.graph.specs.Plan.{system_of_model};
ghost use Rattle.graph.specs.States.{states};
ghost use Rattle.limits.specs.Refusal.{refusal_number};
ghost use Rattle.replay.specs.Trail.{face_step_to, touch_step_to, run, trail_step, trail_answer};
ghost use Rattle.replay.specs.Steps.{numbered_reached, is_small, look_up, step_to};

use graph::Space;
use limits::refusal::Refusal;
use limits::{MAX_CEILING, MAX_CLOCKS};
use number::Number;
use region::Region;
use trail_numbers::Step;

// As wide as a region's numbers.
const CEILING: u8 = MAX_CEILING as u8;

const CLOCKS: u8 = MAX_CLOCKS as u8;

// What replays a step gives the state that is reached and the offset after what was read, or the refusal: EndsTooSoon, ThirdTopBit, Padded or TrailStep.

// The start: all clocks 0.
fn start(space: &Space) -> usize
    ensures { let m = space.now.plan.now.model in result ≡ (system_of_model m).start }
{
    let zero = Region {
        w1: 0,
        w2: 0,
        w3: 0,
        r1: 0,
        r2: 0,
        r3: 0,
    };
    space
        .state_at(usize::from(space.plan.model.start), zero)
        .unwrap()
}

// Whole parts and ranks that some region has.
fn is_small(g: Region) -> bool
    ensures { result ≡ is_small g }
{
    let wholes = g.w1 <= CEILING && g.w2 <= CEILING && g.w3 <= CEILING;
    let ranks = g.r1 <= CLOCKS && g.r2 <= CLOCKS && g.r3 <= CLOCKS;
    wholes && ranks
}

// The state of a region at the location of s, allowed or not; nothing where there is no such region.
fn look_up(space: &Space, s: usize, g: Region) -> Option<usize>
    requires { s < states space.now.plan.now.model }
    ensures { let m = space.now.plan.now.model in result ≡ look_up m s (view m.clocks g) }
{
    let h = g.first(space.plan.model.clocks);
    if !is_small(h) {
        return None;
    }
    let i = region_table::find(space.table, h.pack())?;
    let count = space.table.len();
    Some(s / count * count + i)
}

// A face step.
fn to_face(space: &Space, s: usize, g: Region, at: usize) -> Result<(usize, usize), Refusal>
    requires { s < states space.now.plan.now.model }
    ensures { let m = space.now.plan.now.model in numbered_reached result ≡ face_step_to m s (view m.clocks g) at }
{
    let q = look_up(space, s, g).ok_or(Refusal::TrailStep)?;
    if !space.has_face(s, q) {
        return Err(Refusal::TrailStep);
    }
    Ok((q, at))
}

// A touch step, with its walk.
fn to_touch(
    space: &Space,
    bytes: &[u8],
    s: usize,
    g: Region,
    at: usize,
) -> Result<(usize, usize), Refusal>
    requires { s < states space.now.plan.now.model }
    ensures { let m = space.now.plan.now.model in numbered_reached result ≡ touch_step_to m bytes.now s (view m.clocks g) at }
{
    let q = look_up(space, s, g).ok_or(Refusal::TrailStep)?;
    if !space.near(s, q) {
        return Err(Refusal::TrailStep);
    }
    walk::closed_walk(space, bytes, q, at)
}

// Replays a step that was read up to an offset.
#[tactic(auto, unfolding(crate::specs::Steps::step_to))]
fn advance(
    space: &Space,
    bytes: &[u8],
    step: Step,
    s: usize,
    at: usize,
) -> Result<(usize, usize), Refusal>
    requires { s < states space.now.plan.now.model }
    ensures { let m = space.now.plan.now.model in numbered_reached result ≡ step_to m bytes.now step s at }
{
    match step {
        Step::Time => walk::to_time(space, s, at),
        Step::Jump(e) => walk::to_jump(space, e, s, at),
        Step::Face(g) => to_face(space, s, g, at),
        Step::Touch(g) => to_touch(space, bytes, s, g, at),
    }
}

// Reads and replays one step.
fn one_step(space: &Space, bytes: &[u8], s: usize, at: usize) -> Result<(usize, usize), Refusal>
    requires { s < states space.now.plan.now.model }
    ensures { let m = space.now.plan.now.model in numbered_reached result ≡ trail_step m bytes.now s at }
{
    let (step, p) = trail_numbers::read_step(bytes, at, space.plan.model.clocks)?;
    advance(space, bytes, step, s, p)
}

// The steps of a trail, the first one from the start.
fn all_steps(space: &Space, bytes: &[u8], at: usize, count: u32) -> Result<(usize, usize), Refusal>
    ensures { let m = space.now.plan.now.model in numbered_reached result ≡ run (trail_step m bytes.now) count (system_of_model m).start at }
{
    let mut s = start(space);
    let mut p = at;
    for _ in 0..count {
        (s, p) = one_step(space, bytes, s, p)?;
    }
    Ok((s, p))
}

// A trail whose bytes begin at an offset, just after its first number, passes; or the refusal: EndsTooSoon, ThirdTopBit, Padded, TrailStep, BytesRemain or
// TrailEnd.
#[tactic(auto, unfolding(crate::specs::Trail::trail_answer))]
pub fn replay(space: &Space, bytes: &[u8], at: usize) -> Result<(), Refusal>
    ensures { let m = space.now.plan.now.model in refusal_number result ≡ trail_answer m bytes.now at }
{
    let got = evidence_number::read(bytes, at);
    let Number::Value(count, p) = got else {
        return Err(got.refusal());
    };
    let (s, end) = all_steps(space, bytes, p, count)?;
    if end < bytes.len() {
        return Err(Refusal::BytesRemain);
    }
    if !space.forbidden(s) {
        return Err(Refusal::TrailEnd);
    }
    Ok(())
}

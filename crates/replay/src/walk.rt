// Time and jump steps, and the closed walk of a touch, replayed from the part of the evidence that spells it.
ghost use Rattle.std.specs.Prelude.{◌≡◌, suc, ◌≤◌, ◌<◌, length};
ghost use Rattle.graph.specs.States.{states};
ghost use Rattle.replay.specs.Trail.{flow_to, run, walk_step, closed_walk};
ghost use Rattle.replay.specs.Steps.{numbered_reached, go_to, steps_end, walk_part};

use graph::Space;
use limits::refusal::Refusal;
use number::Number;
use trail_numbers::Label;

fn go(next: Option<usize>, at: usize) -> Result<(usize, usize), Refusal>
    ensures { numbered_reached result ≡ go_to next at }
{
    let q = next.ok_or(Refusal::TrailStep)?;
    Ok((q, at))
}

// A time step.
pub fn to_time(space: &Space, s: usize, at: usize) -> Result<(usize, usize), Refusal>
    requires { s < states space.now.plan.now.model }
    ensures { let m = space.now.plan.now.model in numbered_reached result ≡ flow_to m 0 s at }
{
    go(space.time_step(s), at)
}

// A jump; an edge that the model lacks leads nowhere.
pub fn to_jump(space: &Space, e: u32, s: usize, at: usize) -> Result<(usize, usize), Refusal>
    requires { s < states space.now.plan.now.model }
    ensures { let m = space.now.plan.now.model in numbered_reached result ≡ flow_to m (suc e) s at }
{
    if u32::from(space.plan.model.edges) <= e {
        return Err(Refusal::TrailStep);
    }
    go(space.jump_step(e as usize, s), at)
}

// One step of a walk.
#[tactic(auto, unfolding(crate::specs::Trail::walk_step))]
fn walk_step(space: &Space, part: &[u8], s: usize, at: usize) -> Result<(usize, usize), Refusal>
    requires { s < states space.now.plan.now.model }
    ensures { let m = space.now.plan.now.model in numbered_reached result ≡ walk_step m part.now s at }
{
    let (label, p) = trail_numbers::read_label(part, at)?;
    match label {
        Label::Time => to_time(space, s, p),
        Label::Jump(e) => to_jump(space, e, s, p),
    }
}

// Where the steps of a walk end; the end of the bytes where they spell no such steps.
fn steps_end(bytes: &[u8], at: usize, count: u32) -> usize
    requires { at ≤ length bytes.now }
    ensures value { result ≡ steps_end bytes.now count at }
    ensures lower_bound { (at ≤ result) × (result ≤ length bytes.now) }
{
    let mut p = at;
    for _ in 0..count {
        let Ok((_, next)) = trail_numbers::read_label(bytes, p) else {
            return bytes.len();
        };
        p = next;
    }
    p
}

// The part of the evidence that spells a walk of so many steps.
fn walk_part(evidence: &[u8], at: usize, count: u32) -> &[u8]
    requires { at ≤ length evidence.now }
    ensures { result.now ≡ walk_part evidence.now count at }
{
    let end = steps_end(evidence, at, count);
    &evidence[at..end]
}

// Replays the walk that a part spells.
fn replay_walk(space: &Space, part: &[u8], count: u32, q: usize) -> Result<(usize, usize), Refusal>
    requires { q < states space.now.plan.now.model }
    ensures { let m = space.now.plan.now.model in numbered_reached result ≡ run (walk_step m part.now) count q 0 }
{
    let mut s = q;
    let mut p = 0;
    for _ in 0..count {
        (s, p) = walk_step(space, part, s, p)?;
    }
    Ok((s, p))
}

// The walk of a touch of q: its count, its steps, and that it closes.
#[tactic(auto, unfolding(crate::specs::Trail::closed_walk))]
pub fn closed_walk(
    space: &Space,
    bytes: &[u8],
    q: usize,
    at: usize,
) -> Result<(usize, usize), Refusal>
    requires { q < states space.now.plan.now.model }
    ensures { let m = space.now.plan.now.model in numbered_reached result ≡ closed_walk m bytes.now q at }
{
    let got = evidence_number::read(bytes, at);
    let Number::Value(count, p) = got else {
        return Err(got.refusal());
    };
    if count == 0 {
        return Err(Refusal::TrailStep);
    }
    let part = walk_part(bytes, p, count);
    let (s, _) = replay_walk(space, part, count, q)?;
    if s != q {
        return Err(Refusal::TrailStep);
    }
    Ok((q, p + part.len()))
}

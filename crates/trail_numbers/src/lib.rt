// The numbers of a trail's steps, each judged by 1, 2 and 15 as it is read.
#![tactic(auto)]

ghost use Rattle.std.specs.Prelude.{◌≡◌, ℕ};
ghost use Rattle.region.specs.Limits.{Clocks};
ghost use Rattle.trail_numbers.specs.Numbers.{numbered_label, label_at, numbers_at};
ghost use Rattle.trail_numbers.specs.Steps.{numbered_step, step_with, capped, jump_at, region_at, step_at};
ghost use Rattle.trail_numbers.specs.Three.{numbered_three, three_of};

use evidence_number::read;
use limits::refusal::Refusal;
use number::Number;
use region::Region;

// A step of a trail, all but a touch's walk. 01: "0 time; 1 jump, edge number; 2 face, w1..wn, r1..rn; 3 touch, the region likewise".
#[derive(Clone, Copy)]
pub enum Step {
    Time,
    Jump(u32),
    Face(Region),
    Touch(Region),
}

// A step of a walk: time, or the jump along an edge.
#[derive(Clone, Copy, Debug, PartialEq, Eq)]
pub enum Label {
    Time,
    Jump(u32),
}

// As many numbers as there are clocks, 0 for the others, and the offset after them.
#[tactic(auto, using(crate::proofs::Clocks::three_read))]
fn read_three(bytes: &[u8], at: usize, clocks: u8) -> Result<(u32, u32, u32, usize), Refusal>
    requires { Clocks clocks }
    ensures { numbered_three result ≡ three_of (numbers_at bytes.now clocks at) }
{
    let first = read(bytes, at);
    let Number::Value(a, p) = first else {
        return Err(first.refusal());
    };
    if clocks < 2 {
        return Ok((a, 0, 0, p));
    }
    let second = read(bytes, p);
    let Number::Value(b, q) = second else {
        return Err(second.refusal());
    };
    if clocks < 3 {
        return Ok((a, b, 0, q));
    }
    let third = read(bytes, q);
    let Number::Value(c, end) = third else {
        return Err(third.refusal());
    };
    Ok((a, b, c, end))
}

// A number that a byte can't hold is kept as 255: no region has either.
fn kept(v: u32) -> u8
    ensures { result ≡ capped v }
{
    v.min(255) as u8
}

// A face's or a touch's region, all whole parts and then all ranks.
#[tactic(auto, unfolding(crate::specs::Steps::region_at))]
fn read_region(bytes: &[u8], at: usize, clocks: u8) -> Result<(Region, usize), Refusal>
    requires { Clocks clocks }
    ensures { (kind : ℕ) → numbered_step (step_with kind result) ≡ region_at clocks bytes.now kind at }
{
    let (a, b, c, p) = read_three(bytes, at, clocks)?;
    let (d, e, f, q) = read_three(bytes, p, clocks)?;
    let region = Region {
        w1: kept(a),
        w2: kept(b),
        w3: kept(c),
        r1: kept(d),
        r2: kept(e),
        r3: kept(f),
    };
    Ok((region, q))
}

#[tactic(auto, unfolding(crate::specs::Steps::jump_at))]
fn read_jump(bytes: &[u8], at: usize) -> Result<(Step, usize), Refusal>
    ensures { numbered_step result ≡ jump_at bytes.now at }
{
    let got = read(bytes, at);
    let Number::Value(e, p) = got else {
        return Err(got.refusal());
    };
    Ok((Step::Jump(e), p))
}

// A step of the trail, all but a touch's walk.
#[tactic(auto, unfolding(crate::specs::Steps::step_at))]
pub fn read_step(bytes: &[u8], at: usize, clocks: u8) -> Result<(Step, usize), Refusal>
    requires { Clocks clocks }
    ensures { numbered_step result ≡ step_at clocks bytes.now at }
{
    let got = read(bytes, at);
    let Number::Value(kind, p) = got else {
        return Err(got.refusal());
    };
    match kind {
        0 => Ok((Step::Time, p)),
        1 => read_jump(bytes, p),
        2 => {
            let (region, end) = read_region(bytes, p, clocks)?;
            Ok((Step::Face(region), end))
        }
        3 => {
            let (region, end) = read_region(bytes, p, clocks)?;
            Ok((Step::Touch(region), end))
        }
        _ => Err(Refusal::TrailStep),
    }
}

// The label of a step of a walk.
#[tactic(auto, unfolding(crate::specs::Numbers::label_at))]
pub fn read_label(bytes: &[u8], at: usize) -> Result<(Label, usize), Refusal>
    ensures { numbered_label result ≡ label_at bytes.now at }
{
    let got = read(bytes, at);
    let Number::Value(kind, p) = got else {
        return Err(got.refusal());
    };
    match kind {
        0 => Ok((Label::Time, p)),
        1 => {
            let edge = read(bytes, p);
            let Number::Value(e, end) = edge else {
                return Err(edge.refusal());
            };
            Ok((Label::Jump(e), end))
        }
        _ => Err(Refusal::TrailStep),
    }
}

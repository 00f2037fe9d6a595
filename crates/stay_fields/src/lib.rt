// What each stay field of a model means, once all its numbers are read.
#![tactic(auto)]

ghost use Rattle.std.specs.Prelude.{◌≡◌, ◌<◌};
ghost use Rattle.limits.specs.Limits.{max_clocks, max_locations};
ghost use Rattle.stay_fields.specs.Resolve.{Resolvable, meant_at, resolved_at, resolved};

use model::{Model, STRIDE};
use stay_limits::blank_limit;

// The limit that a field of m means: that of a blank, or one less than the field.
fn limit(mark: u8, m: &Model, l: usize, x: usize) -> u8
    requires { Resolvable m.now × (l < max_locations) × (x < max_clocks) }
    ensures { result ≡ meant_at mark m.now l x }
{
    let s = m.invariant[STRIDE * l + x];
    if s == 0 {
        return blank_limit(mark, m.ceiling, m.edges, &m.source, &m.upper, l, x);
    }
    s - 1
}

// The limits of one location of m go into t.
#[tactic(auto, unfolding(model::specs::Each::each))]
fn resolve_location(mark: u8, m: &Model, l: usize, t: &mut Model)
    requires { Resolvable m.now × (l < max_locations) }
    ensures { t.new ≡ resolved_at mark m.now l t.old }
{
    for x in 0..usize::from(m.clocks) {
        t.invariant[STRIDE * l + x] = limit(mark, m, l, x);
    }
}

// The model with limits for stay fields.
#[tactic(auto, unfolding(model::specs::Each::each, crate::specs::Resolve::resolved))]
pub fn resolve_model(mark: u8, m: &Model) -> Model
    requires { Resolvable m.now }
    ensures { result ≡ resolved mark m.now }
{
    let mut t = *m;
    for l in 0..usize::from(m.locations) {
        resolve_location(mark, m, l, &mut t);
    }
    t
}

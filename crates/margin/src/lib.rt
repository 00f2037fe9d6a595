// The margin of a model: how slight a drift is harmless for ever, counted by the half values on entry.
#![tactic(auto)]

ghost use Rattle.std.specs.Prelude.{◌≡◌, cond, [], ◌∷◌, ◌+◌, ◌*◌, ◌≤◌, ◌<◌, min, ltb, eqb, take};
ghost use Rattle.theory.specs.Below.{bit};
ghost use Rattle.robust.specs.Margin.{half_values, entry_limits, entries_by, entries_of, margin as margin_of, max_factor, max_values};
ghost use Rattle.region.specs.Limits.{Clocks};
ghost use Rattle.limits.specs.Limits.{max_clocks, max_ceiling, max_edges};
ghost use Rattle.model.specs.Model.{target_of};
ghost use Rattle.graph.specs.Plan.{automaton_of, edge_of};
ghost use Rattle.margin.specs.Limits.{stay_limit, entry_limit};

use model::Plan;

// ---- Limits.

fn stay_limit(plan: &Plan, l: usize, x: usize) -> u32
    requires { let m = plan.now.model in (l < m.locations) × (x < max_clocks) }
    ensures { let m = plan.now.model in (result ≡ stay_limit m l x) × (result ≤ max_ceiling) }
{
    let m = &plan.model;
    u32::from(m.invariant[model::STRIDE * l + x])
}

// What a jump along an edge leaves on a clock at most.
fn entry_limit(plan: &Plan, e: usize, x: usize) -> u32
    requires { let m = plan.now.model in (e < m.edges) × (x < max_clocks) }
    ensures { let m = plan.now.model in (result ≡ entry_limit m e x) × (result ≤ max_ceiling) }
{
    let m = &plan.model;
    if (m.reset[e] >> x) % 2 == 1 {
        return 0;
    }
    let high = u32::from(m.upper[model::STRIDE * e + x]);
    let here = stay_limit(plan, usize::from(m.source[e]), x);
    let there = stay_limit(plan, usize::from(m.target[e]), x);
    high.min(here.min(there))
}

// ---- Half values within limits.

// The half values of a clock, or 1 if it is not counted.
fn factor(clocks: u8, x: u8, limit: u32) -> u32
    requires { limit ≤ max_ceiling }
    ensures { (result ≡ cond (ltb x clocks) (2 * limit + 1) 1) × (result ≤ max_factor) }
{
    if x < clocks { 2 * limit + 1 } else { 1 }
}

fn half_values(clocks: u8, a: u32, b: u32, c: u32) -> u32
    requires { Clocks clocks × (a ≤ max_ceiling) × (b ≤ max_ceiling) × (c ≤ max_ceiling) }
    ensures { (result ≡ half_values (take clocks (a ∷ b ∷ c ∷ []))) × (result ≤ max_values) }
{
    factor(clocks, 0, a) * (factor(clocks, 1, b) * factor(clocks, 2, c))
}

fn stay_values(plan: &Plan, l: usize) -> u32
    requires { let m = plan.now.model in (l < m.locations) }
    ensures { let m = plan.now.model in (result ≡ half_values ((automaton_of m).invariant l)) × (result ≤ max_values) }
{
    let m = &plan.model;
    half_values(
        m.clocks,
        stay_limit(plan, l, 0),
        stay_limit(plan, l, 1),
        stay_limit(plan, l, 2),
    )
}

fn entry_values(plan: &Plan, e: usize) -> u32
    requires { let m = plan.now.model in (e < m.edges) }
    ensures { let m = plan.now.model in (result ≡ half_values (entry_limits (automaton_of m) (edge_of m e))) × (result ≤ max_values) }
{
    let m = &plan.model;
    half_values(
        m.clocks,
        entry_limit(plan, e, 0),
        entry_limit(plan, e, 1),
        entry_limit(plan, e, 2),
    )
}

// ---- Entries of a location.

fn by_start(plan: &Plan, l: usize) -> u32
    requires { let m = plan.now.model in (l < m.locations) }
    ensures { let m = plan.now.model in (result ≡ bit (eqb l m.start)) × (result ≤ 1) }
{
    let m = &plan.model;
    u32::from(l == usize::from(m.start))
}

// The count with the entries by an edge, if it leads to the location.
fn with_edge(plan: &Plan, l: usize, e: usize, count: u32) -> u32
    requires { let m = plan.now.model in (e < m.edges) × (count ≤ max_edges * max_values) }
    ensures { let m = plan.now.model in (result ≡ cond (eqb (target_of m e) l) (half_values (entry_limits (automaton_of m) (edge_of m e)) + count) count) × (result ≤ max_values + count) }
{
    let m = &plan.model;
    if usize::from(m.target[e]) == l {
        return entry_values(plan, e) + count;
    }
    count
}

// By the start and the edges, from the last to the first.
fn entries_by(plan: &Plan, l: usize) -> u32
    requires { let m = plan.now.model in (l < m.locations) }
    ensures { let m = plan.now.model in result ≡ entries_by (automaton_of m) l (automaton_of m).edges }
{
    let m = &plan.model;
    let mut count = by_start(plan, l);
    for e in (0..usize::from(m.edges)).rev() {
        count = with_edge(plan, l, e, count);
    }
    count
}

#[tactic(auto, unfolding(robust::specs::Margin::entries_of))]
fn entries_of(plan: &Plan, l: usize) -> u32
    requires { let m = plan.now.model in (l < m.locations) }
    ensures { let m = plan.now.model in (result ≡ entries_of (automaton_of m) l) × (result ≤ max_values) }
{
    stay_values(plan, l).min(entries_by(plan, l))
}

// Every drift e/D below 1/A is harmless for ever if the plan is safe: the number A of a model.
pub fn margin(plan: &Plan) -> u32
    ensures { let m = plan.now.model in result ≡ margin_of (automaton_of m) m.locations }
{
    let m = &plan.model;
    let mut count = 0;
    for l in 0..usize::from(m.locations) {
        count += entries_of(plan, l);
    }
    2 * count + u32::from(m.clocks)
}

// A plan in shortest numbers into a lent output, part by part; each answers the offset after it. With no output they measure.
#![tactic(auto)]

ghost use Rattle.std.specs.Prelude.{◌≡◌, [], ◌∷◌, ◌+◌, ◌<◌, ◌≤◌, length};
ghost use Rattle.limits.specs.Limits.{max_clocks, max_locations, max_edges};
ghost use Rattle.number.specs.Number.{spell_all};
ghost use Rattle.spelling.specs.Lays.{Lays, max_bytes, filled};
ghost use Rattle.model.specs.Each.{gather};
ghost use Rattle.parser.specs.Parse.{reading_of};
ghost use Rattle.canonical.specs.Canonical.{header_numbers, stay_numbers, location_numbers, edge_numbers, shortest_plan};

use model::{Plan, STRIDE};
use stay_limits::blank_limit;

// A number of the plan.
fn put(out: &mut [u8], at: usize, v: u8) -> usize
    requires { at + length (spell_all (v ∷ [])) ≤ max_bytes }
    ensures { Lays out.old out.new at result (spell_all (v ∷ [])) }
{
    spelling::put(out, at, u32::from(v))
}

// Some numbers, one after the other.
fn put_numbers(values: &[u8], out: &mut [u8], at: usize) -> usize
    requires { at + length (spell_all values.now) ≤ max_bytes }
    ensures { Lays out.old out.new at result (spell_all values.now) }
{
    let mut end = at;
    for &v in values {
        end = put(out, end, v);
    }
    end
}

// The stay field of a location for a clock: 0 where a blank means the limit, else one more than the limit.
fn stay_field(plan: &Plan, l: usize, x: usize) -> u8
    requires { (l < max_locations) × (x < max_clocks) }
    ensures { result ∷ [] ≡ stay_numbers (reading_of plan.now) l x }
{
    let m = &plan.model;
    let limit = m.invariant[STRIDE * l + x];
    if limit == blank_limit(plan.mark, m.ceiling, m.edges, &m.source, &m.upper, l, x) {
        return 0;
    }
    limit + 1
}

// A location: its kind, then its stay fields.
fn put_location(plan: &Plan, l: usize, out: &mut [u8], at: usize) -> usize
    requires location { l < max_locations }
    requires room { at + length (spell_all (location_numbers (stay_numbers (reading_of plan.now)) (reading_of plan.now) l)) ≤ max_bytes }
    ensures { Lays out.old out.new at result (spell_all (location_numbers (stay_numbers (reading_of plan.now)) (reading_of plan.now) l)) }
{
    let mut end = put(out, at, plan.model.kind[l]);
    for x in 0..usize::from(plan.model.clocks) {
        end = put(out, end, stay_field(plan, l, x));
    }
    end
}

fn put_locations(plan: &Plan, out: &mut [u8], at: usize) -> usize
    requires { at + length (spell_all (gather plan.now.model.locations (location_numbers (stay_numbers (reading_of plan.now)) (reading_of plan.now)))) ≤ max_bytes }
    ensures { Lays out.old out.new at result (spell_all (gather plan.now.model.locations (location_numbers (stay_numbers (reading_of plan.now)) (reading_of plan.now)))) }
{
    let mut end = at;
    for l in 0..usize::from(plan.model.locations) {
        end = put_location(plan, l, out, end);
    }
    end
}

// An edge: from, to, reset mask, then low and high for each clock.
fn put_edge(plan: &Plan, e: usize, out: &mut [u8], at: usize) -> usize
    requires edge { e < max_edges }
    requires room { at + length (spell_all (edge_numbers (reading_of plan.now) e)) ≤ max_bytes }
    ensures { Lays out.old out.new at result (spell_all (edge_numbers (reading_of plan.now) e)) }
{
    let m = &plan.model;
    let mut end = put_numbers(&[m.source[e], m.target[e], m.reset[e]], out, at);
    for x in 0..usize::from(m.clocks) {
        let i = STRIDE * e + x;
        end = put_numbers(&[m.lower[i], m.upper[i]], out, end);
    }
    end
}

// Not one loop with that of the locations, over a closure: nothing would be known of the output that the closure has written.
fn put_edges(plan: &Plan, out: &mut [u8], at: usize) -> usize
    requires { at + length (spell_all (gather plan.now.model.edges (edge_numbers (reading_of plan.now)))) ≤ max_bytes }
    ensures { Lays out.old out.new at result (spell_all (gather plan.now.model.edges (edge_numbers (reading_of plan.now)))) }
{
    let mut end = at;
    for e in 0..usize::from(plan.model.edges) {
        end = put_edge(plan, e, out, end);
    }
    end
}

fn put_header(plan: &Plan, out: &mut [u8]) -> usize
    ensures { Lays out.old out.new 0 result (spell_all (header_numbers (reading_of plan.now))) }
{
    let m = &plan.model;
    put_numbers(
        &[
            plan.mark,
            m.clocks,
            m.ceiling,
            m.locations,
            m.edges,
            m.start,
        ],
        out,
        0,
    )
}

fn put_plan(plan: &Plan, out: &mut [u8]) -> usize
    ensures { Lays out.old out.new 0 result (shortest_plan (reading_of plan.now)) }
{
    let locations = put_header(plan, out);
    let edges = put_locations(plan, out, locations);
    put_edges(plan, out, edges)
}

// The bytes of the shortest plan: how many; written if the output has room for them.
pub fn write(plan: &Plan, out: &mut [u8]) -> usize
    ensures count { result ≡ length (shortest_plan (reading_of plan.now)) }
    ensures out_after { out.new ≡ filled (shortest_plan (reading_of plan.now)) out.old }
{
    let need = put_plan(plan, &mut out[..0]);
    if need <= out.len() {
        put_plan(plan, out);
    }
    need
}

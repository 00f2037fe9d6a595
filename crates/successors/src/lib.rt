#![tactic(auto)]

// The time and jump steps of all states of a model as adjacency lists. The steps of regions come from tables by region number, so none is searched
// for. State l * len + i is region i of location l, len being the number of regions.

ghost use Rattle.std.specs.Prelude.{◌≡◌, true, [], ◌∷◌, suc, ◌+◌, ◌*◌, ◌≤◌, ◌<◌, length, take};
ghost use Rattle.theory.specs.Below.{bit};
ghost use Rattle.theory.specs.Labels.{Leads};
ghost use Rattle.region_steps.specs.Tables.{Indexed};
ghost use Rattle.model.specs.Model.{source_of};
ghost use Rattle.graph.specs.Plan.{system_of_model, labelled_of_model};
ghost use Rattle.graph.specs.States.{states};
ghost use Rattle.limits.specs.Limits.{max_states};
ghost use Rattle.successors.specs.Flags.{PackedAll, Flagged, FlagsBelow, AllowedFlags};
ghost use Rattle.successors.specs.Rows.{Puts, HoldsBelow};
ghost use Rattle.successors.specs.Words.{EdgeWords};
ghost use Rattle.successors.specs.Flow.{Given, AllowedAt, IfFlagged, TimeTo, regions_in, state_of, leaving, LeavingEdges, FlowLists, room};

mod edges;

use graph::Space;
use limits::{MAX_EDGES, Word};
use model::Plan;
use region::Region;

// From `base` on a flag for each region of the table: 1 where it is within the limits l1, l2 and l3, 0 elsewhere.
fn flag_within(table: &[u32], l1: u8, l2: u8, l3: u8, base: usize, allowed: &mut [u8])
    requires { PackedAll table.now × (base + length table.now ≤ length allowed.old) × (length allowed.old ≤ max_states) }
    ensures { Flagged table.now (l1 ∷ l2 ∷ l3 ∷ []) base (length table.now) allowed.old allowed.new }
{
    for i in 0..table.len() {
        let g = Region::unpack(table[i]);
        allowed[base + i] = u8::from(g.fits(l1, l2, l3));
    }
}

// The flags of the states of location l.
fn flag_location(space: &Space, l: usize, allowed: &mut [u8])
    requires { let m = space.now.plan.now.model in (l < m.locations) × FlagsBelow m (l * regions_in m) allowed.old }
    ensures { let m = space.now.plan.now.model in FlagsBelow m ((l + 1) * regions_in m) allowed.new }
{
    let m = &space.plan.model;
    let i = model::STRIDE * l;
    let l1 = m.invariant[i];
    let l2 = m.invariant[i + 1];
    let l3 = m.invariant[i + 2];
    flag_within(space.table, l1, l2, l3, l * space.table.len(), allowed);
}

// For every state 1 where it is allowed, 0 elsewhere.
pub fn fill_allowed(space: &Space, allowed: &mut [u8])
    requires { length allowed.old ≡ states space.now.plan.now.model }
    ensures { AllowedFlags space.now.plan.now.model allowed.new }
{
    for l in 0..usize::from(space.plan.model.locations) {
        flag_location(space, l, allowed);
    }
}

// The edges that leave location l, in order, at the front of `edges`; how many.
fn list_leaving(plan: &Plan, l: usize, edges: &mut [u8]) -> usize
    requires { plan.now.model.edges ≤ length edges.old }
    ensures { let m = plan.now.model in (result ≤ m.edges) × (take result edges.new ≡ leaving m l) }
{
    let m = &plan.model;
    let mut n = 0;
    for e in 0..m.edges {
        if usize::from(m.source[usize::from(e)]) == l {
            edges[n] = e;
            n += 1;
        }
    }
    n
}

// What the steps of states are filled from: a plan and its regions, their time successors by number, the number at each code, the allowed states, and a
// word for each edge.
#[derive(Clone, Copy)]
struct Sources<'a> {
    space: Space<'a>,
    later: &'a [u16],
    index: &'a [u16],
    allowed: &'a [u8],
    words: &'a [u32],
    ghost given: { Given space.plan.now.model space.table.now later.now index.now allowed.now },
    ghost spelled: { EdgeWords space.plan.now.model words.now },
}

impl<'a> Sources<'a> {
    // If state q is allowed, it is put at place n; the next free place.
    fn put(&self, q: usize, targets: &mut [Word], n: usize) -> usize
        requires { (q < length self.now.allowed.now) × (n < length targets.old) }
        ensures { Puts 1 (IfFlagged self.now.allowed.now q) targets.old targets.new n result }
    {
        if self.allowed[q] == 1 {
            targets[n] = q as Word;
            return n + 1;
        }
        n
    }

    // The time step of region i of a location whose states begin at `base`. Past the ceiling `later` holds the number of regions.
    fn put_time(&self, base: usize, i: usize, targets: &mut [Word], n: usize) -> usize
        requires { (i < length self.now.later.now) × (base + length self.now.later.now ≤ length self.now.allowed.now)
            × (n < length targets.old) }
        ensures { Puts 1 (TimeTo self.now.later.now self.now.allowed.now base i) targets.old targets.new n result }
    {
        let j = usize::from(self.later[i]);
        if j < self.later.len() {
            return self.put(base + j, targets, n);
        }
        n
    }

    // The jump along edge e of region i, which is g, of the edge's source.
    fn put_jump(&self, e: usize, i: usize, g: Region, targets: &mut [Word], n: usize) -> usize
        requires { let m = self.now.space.plan.now.model in (e < m.edges) × AllowedAt m (source_of m e) i g × (n < length targets.old) }
        ensures { let m = self.now.space.plan.now.model in
            Puts 1 (Leads (labelled_of_model m) (suc e) (state_of m (source_of m e) i)) targets.old targets.new n result }
    {
        let w = self.words[e];
        if edges::opens(w, g) {
            let j = region_steps::reset_number(self.index, g, edges::mask(w));
            return self.put(edges::target(w) * self.space.table.len() + j, targets, n);
        }
        n
    }

    // The steps of region i of location l, which `edges` leave.
    fn put_row(&self, edges: &[u8], l: usize, i: usize, targets: &mut [Word], n: usize) -> usize
        requires { LeavingEdges self.now.space.plan.now.model l edges.now × (i < length self.now.space.table.now) × (n + length edges.now < length targets.old) }
        ensures { let m = self.now.space.plan.now.model in
            Puts (length edges.now + 1) (λ q. (system_of_model m).flow (state_of m l i) q ≡ true) targets.old targets.new n result }
    {
        let base = l * self.space.table.len();
        if self.allowed[base + i] == 0 {
            return n;
        }
        let g = Region::unpack(self.space.table[i]);
        let mut end = self.put_time(base, i, targets, n);
        for &e in edges {
            end = self.put_jump(usize::from(e), i, g, targets, end);
        }
        end
    }

    // The steps of all states of location l, which `edges` leave.
    fn put_rows(
        &self,
        edges: &[u8],
        l: usize,
        first: &mut [u32],
        targets: &mut [Word],
        n: usize,
    ) -> usize
        requires { let m = self.now.space.plan.now.model in LeavingEdges m l edges.now
            × (n ≤ room m l) × (states m + m.edges * regions_in m ≤ length targets.old)
            × HoldsBelow first.old targets.old (states m) (system_of_model m).flow (l * regions_in m) n }
        ensures { let m = self.now.space.plan.now.model in (result ≤ room m (l + 1)) × (length targets.new ≡ length targets.old)
            × HoldsBelow first.new targets.new (states m) (system_of_model m).flow ((l + 1) * regions_in m) result }
    {
        let base = l * self.space.table.len();
        let mut end = n;
        for i in 0..self.space.table.len() {
            end = self.put_row(edges, l, i, targets, end);
            first[base + (i + 1)] = end as u32;
        }
        end
    }

    // The steps of all states of location l.
    fn fill_location(&self, l: usize, first: &mut [u32], targets: &mut [Word], n: usize) -> usize
        requires { let m = self.now.space.plan.now.model in (l < m.locations)
            × (n ≤ room m l) × (states m + m.edges * regions_in m ≤ length targets.old)
            × HoldsBelow first.old targets.old (states m) (system_of_model m).flow (l * regions_in m) n }
        ensures { let m = self.now.space.plan.now.model in (result ≤ room m (l + 1)) × (length targets.new ≡ length targets.old)
            × HoldsBelow first.new targets.new (states m) (system_of_model m).flow ((l + 1) * regions_in m) result }
    {
        let mut edges = [0u8; MAX_EDGES];
        let count = list_leaving(self.space.plan, l, &mut edges);
        self.put_rows(&edges[..count], l, first, targets, n)
    }
}

// Into `first` and `targets` the time and jump steps of all states: those of state p stand in `targets` from place first[p] up to first[p + 1]. There
// is room for a time step from each state and, along each edge, a jump from each region.
pub fn fill_flow(
    space: &Space,
    later: &[u16],
    index: &[u16],
    allowed: &[u8],
    first: &mut [u32],
    targets: &mut [Word],
)
    requires { let m = space.now.plan.now.model in Given m space.now.table.now later.now index.now allowed.now
        × (length first.old ≡ states m + 1) × (states m + m.edges * length space.now.table.now ≤ length targets.old) }
    ensures { FlowLists space.now.plan.now.model first.new targets.new }
{
    let mut words = [0u32; MAX_EDGES];
    edges::fill_words(space.plan, &mut words);
    let sources = Sources {
        space: *space,
        later,
        index,
        allowed,
        words: &words,
    };
    first[0] = 0;
    let mut n = 0;
    for l in 0..usize::from(space.plan.model.locations) {
        n = sources.fill_location(l, first, targets, n);
    }
}

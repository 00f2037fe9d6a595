#![tactic(auto)]

// The states of a plan by their numbers: allowed, forbidden, time and jump steps, faces, shared corners.
ghost use Rattle.std.specs.Prelude.{◌≡◌, cond, ◌<◌, ltb};
ghost use Rattle.theory.specs.Region.{fits};
ghost use Rattle.theory.specs.RegionGraph.{guard_holds};
ghost use Rattle.region.specs.View.{view, Known};
ghost use Rattle.graph.specs.Plan.{automaton_of, edge_of};
ghost use Rattle.graph.specs.States.{Listed, states};

use model::Plan;
use region::Region;

// The number of states.
pub fn state_count(plan: &Plan) -> usize
    ensures { result ≡ states plan.now.model }
{
    let m = &plan.model;
    usize::from(m.locations) * usize::from(region_table::count(m.clocks, m.ceiling))
}

// A limit that counts from n clocks on: 0 for a plan of fewer.
pub fn counted(clocks: u8, n: u8, limit: u8) -> u8
    ensures { result ≡ cond (ltb clocks n) 0 limit }
{
    if clocks < n { 0 } else { limit }
}

// A region is within the stay limits of a location.
pub fn stays(plan: &Plan, l: usize, g: Region) -> bool
    requires { let m = plan.now.model in (l < m.locations) × Known m.clocks m.ceiling g }
    ensures { let m = plan.now.model in result ≡ fits (view m.clocks g) ((automaton_of m).invariant l) }
{
    let m = &plan.model;
    let i = model::STRIDE * l;
    g.fits(m.invariant[i], m.invariant[i + 1], m.invariant[i + 2])
}

// The guard of an edge holds.
pub fn guard(plan: &Plan, e: usize, g: Region) -> bool
    requires { let m = plan.now.model in (e < m.edges) × Known m.clocks m.ceiling g }
    ensures { let m = plan.now.model in result ≡ guard_holds (edge_of m e) (view m.clocks g) }
{
    let m = &plan.model;
    let i = model::STRIDE * e;
    let n = m.clocks;
    g.attains(
        m.lower[i],
        counted(n, 2, m.lower[i + 1]),
        counted(n, 3, m.lower[i + 2]),
    ) && g.fits(m.upper[i], m.upper[i + 1], m.upper[i + 2])
}

// A plan and the list of its regions, packed, as region_table::select gives it: state p is region p % len of location p / len.
#[derive(Clone, Copy)]
pub struct Space<'a> {
    pub plan: &'a Plan,
    pub table: &'a [u32],
    pub ghost listed: { Listed plan.now.model table.now },
}

impl<'a> Space<'a> {
    ghost use Rattle.theory.specs.Region.{face, shares};
    ghost use Rattle.theory.specs.StateGraph.{region_of, allowed_state, state_at, time_from, jump_from, beside};
    ghost use Rattle.graph.specs.Plan.{system_of_model};
    ghost use Rattle.graph.specs.States.{next_of, joined};

    // The region of a state.
    pub fn region_of(&self, p: usize) -> Region
        requires { p < states self.now.plan.now.model }
        ensures { let m = self.now.plan.now.model in Known m.clocks m.ceiling result × (view m.clocks result ≡ region_of (automaton_of m) p) }
    {
        let count = self.table.len();
        Region::unpack(self.table[p % count])
    }

    // The allowed state of a location and a region.
    pub fn state_at(&self, l: usize, g: Region) -> Option<usize>
        requires { let m = self.now.plan.now.model in (l < m.locations) × Known m.clocks m.ceiling g }
        ensures { let m = self.now.plan.now.model in result ≡ next_of m (state_at (automaton_of m) m.locations l (view m.clocks g)) }
    {
        if !stays(self.plan, l, g) {
            return None;
        }
        let i = region_table::find(self.table, g.pack())?;
        Some(l * self.table.len() + i)
    }

    pub fn allowed(&self, p: usize) -> bool
        requires { p < states self.now.plan.now.model }
        ensures { let m = self.now.plan.now.model in result ≡ allowed_state (automaton_of m) m.locations p }
    {
        stays(self.plan, p / self.table.len(), self.region_of(p))
    }

    pub fn forbidden(&self, p: usize) -> bool
        requires { p < states self.now.plan.now.model }
        ensures { result ≡ (system_of_model self.now.plan.now.model).forbidden p }
    {
        let l = p / self.table.len();
        self.plan.model.kind[l] == 1
    }

    // The time step of a state.
    pub fn time_step(&self, p: usize) -> Option<usize>
        requires { p < states self.now.plan.now.model }
        ensures { let m = self.now.plan.now.model in result ≡ next_of m (time_from (automaton_of m) m.locations p) }
    {
        let here = self.region_of(p);
        let l = p / self.table.len();
        if !stays(self.plan, l, here) {
            return None;
        }
        let later = here.successor(self.plan.model.clocks, self.plan.model.ceiling)?;
        self.state_at(l, later)
    }

    // The jump of a state along an edge.
    pub fn jump_step(&self, e: usize, p: usize) -> Option<usize>
        requires { let m = self.now.plan.now.model in (e < m.edges) × (p < states m) }
        ensures { let m = self.now.plan.now.model in result ≡ next_of m (jump_from (automaton_of m) m.locations e p) }
    {
        let m = &self.plan.model;
        let l = p / self.table.len();
        if usize::from(m.source[e]) != l {
            return None;
        }
        let g = self.region_of(p);
        if !stays(self.plan, l, g) || !guard(self.plan, e, g) {
            return None;
        }
        self.state_at(usize::from(m.target[e]), g.reset(m.reset[e]))
    }

    // Two allowed states of one location.
    fn together(&self, p: usize, q: usize) -> bool
        requires { let m = self.now.plan.now.model in (p < states m) × (q < states m) }
        ensures { result ≡ joined self.now.plan.now.model p q }
    {
        p / self.table.len() == q / self.table.len() && self.allowed(p) && self.allowed(q)
    }

    // Two allowed states of one location, the second's region a face of the first's.
    pub fn has_face(&self, p: usize, q: usize) -> bool
        requires { let m = self.now.plan.now.model in (p < states m) × (q < states m) }
        ensures { let m = self.now.plan.now.model in result ≡ beside (automaton_of m) m.locations face p q }
    {
        self.together(p, q) && self.region_of(p).has_face(self.region_of(q))
    }

    // Two allowed states of one location whose regions share a corner.
    pub fn near(&self, p: usize, q: usize) -> bool
        requires { let m = self.now.plan.now.model in (p < states m) × (q < states m) }
        ensures { let m = self.now.plan.now.model in result ≡ beside (automaton_of m) m.locations shares p q }
    {
        self.together(p, q) && self.region_of(p).shares_corner(self.region_of(q))
    }
}

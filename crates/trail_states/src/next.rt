// The least state with a number that a state leads to: scans of its steps that keep the best so far.
// Beside marking's scans, which keep a queue and skip visited points: one visitor for both would be a trait with laws for joining parts, longer than these.

ghost use Rattle.std.specs.Prelude.{◌≡◌, true, ◌*◌, ◌%◌, ◌<◌, length, get_or, IfSome};
ghost use Rattle.limits.specs.Limits.{point_count};
ghost use Rattle.shapes.specs.Layout.{corners_in};
ghost use Rattle.search.specs.Least.{LeastFound, At};
ghost use Rattle.marking.specs.Tables.{RegionTables};
ghost use Rattle.marking.specs.Corners.{Touches};
ghost use Rattle.marking.specs.Along.{AtPointOf};

use limits::{SLOTS, Word};
use marking::Ways;
use search::{Guide, least_listed, lower};
use shapes::{corners_at, heads_at, links_at};

// Where each state leads, and the kinds of locations: a forbidden one is where our trail ends.
#[derive(Clone, Copy)]
pub struct Trail<'s, 'a, 'k> {
    pub ways: Ways<'s, 'a>,
    pub kind: &'k [u8],
}

impl<'s, 'a, 'k> Trail<'s, 'a, 'k> {
    // The lower of `best` and q, if it lies on a closed walk and has y.
    fn least_closed(&self, level: &[Word], y: usize, q: usize, best: Option<usize>) -> Option<usize>
        requires { let w = self.now.ways in (q < length level.now) × (length w.heights.now ≡ length level.now)
            × IfSome best (λ b. b < length level.now) }
        ensures { let w = self.now.ways in LeastFound (length level.now)
            (At level.now y (λ z. (z ≡ q) × (get_or w.heights.now q 0 % 2 ≡ 1))) best result }
    {
        if self.ways.heights[q] % 2 == 1 {
            return lower(level, y, q, best);
        }
        best
    }

    // The same for the states of a location that have a corner at point v: those at the slots of its chain.
    fn least_point(
        &self,
        level: &[Word],
        y: usize,
        location: usize,
        v: usize,
        best: Option<usize>,
    ) -> Option<usize>
        requires { let w = self.now.ways in (location * w.regions < length level.now) × (v < point_count)
            × RegionTables true (length level.now) w.regions w.shapes.now w.heights.now × IfSome best (λ b. b < length level.now) }
        ensures { let w = self.now.ways in LeastFound (length level.now) (At level.now y (AtPointOf w (location * w.regions) v)) best result }
    {
        let ways = &self.ways;
        let links = links_at(ways.regions);
        let heads = heads_at(ways.regions);
        let mut low = best;
        let mut next = usize::from(ways.shapes[heads + v]);
        // A while: each slot of the chain tells the next.
        while 0 < next {
            let slot = next - 1;
            low = self.least_closed(level, y, location * ways.regions + slot / SLOTS, low);
            next = usize::from(ways.shapes[links + slot]);
        }
        low
    }

    // The touch steps of region i of a location: those at its corner slots.
    fn least_touched(
        &self,
        level: &[Word],
        y: usize,
        location: usize,
        i: usize,
        best: Option<usize>,
    ) -> Option<usize>
        requires { let w = self.now.ways in (location * w.regions < length level.now) × (i < w.regions)
            × RegionTables true (length level.now) w.regions w.shapes.now w.heights.now × IfSome best (λ b. b < length level.now) }
        ensures { let w = self.now.ways in LeastFound (length level.now)
            (At level.now y (Touches (corners_in w.regions w.shapes.now) w.heights.now (location * w.regions) i 0)) best result }
    {
        let corners = corners_at(self.ways.regions);
        let mut low = best;
        for k in 0..SLOTS {
            let v = usize::from(self.ways.shapes[corners + (SLOTS * i + k)]);
            low = self.least_point(level, y, location, v, low);
        }
        low
    }
}

impl<'s, 'a, 'k> Guide for Trail<'s, 'a, 'k> {
    ghost use Rattle.marking.specs.Along.{leads_by};
    ghost use Rattle.trail_states.specs.Guided.{Fits, forbidden_at};

    ghost size = { λ t. t.ways.steps.nodes };

    ghost lawful = { Fits };

    ghost leads = { λ t. leads_by t.ways };

    ghost ends = { forbidden_at };

    // By its time and jump steps, the faces and with `touch` the touch steps.
    fn least(&self, level: &[Word], y: usize, p: usize) -> Option<usize> {
        let ways = &self.ways;
        let location = p / ways.regions;
        let i = p % ways.regions;
        let step = ways.steps.least(level, y, p);
        let face = least_listed(level, y, location * ways.regions, ways.faces(i), step);
        if ways.touch {
            return self.least_touched(level, y, location, i, face);
        }
        face
    }

    fn is_goal(&self, p: usize) -> bool {
        self.kind[p / self.ways.regions] == 1
    }
}

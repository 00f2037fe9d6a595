// What a state at a level leads to: the states not reached before get the next level and a place in the queue.

ghost use Rattle.std.specs.Prelude.{◌≡◌, true, ℕ, ◌+◌, ◌*◌, ◌%◌, ◌≤◌, ◌<◌, length, get_or};
ghost use Rattle.limits.specs.Limits.{max_states, slot_count, point_count};
ghost use Rattle.shapes.specs.Layout.{rows_in, faces_in, corners_in};
ghost use Rattle.search.specs.Queue.{row_of};
ghost use Rattle.search.specs.Held.{SameQueue, InOrder, TakesIn};
ghost use Rattle.marking.specs.Tables.{Faces, RegionTables};
ghost use Rattle.marking.specs.Corners.{Touches};

use limits::{POINTS, SLOTS, Word};
use search::{Reached, Spread, Steps};
use shapes::{corners_at, faces_of, heads_at, links_at, rows_of};

// What each state leads to: its time and jump steps, and by regions the faces, and with `touch` the states on closed walks that share a corner.
// `heights` tells in its lowest bits which states are on closed walks.
#[derive(Clone, Copy)]
pub struct Ways<'s, 'a> {
    pub touch: bool,
    pub regions: usize,
    pub steps: Steps<'s>,
    pub shapes: &'a [Word],
    pub heights: &'a [Word],
}

impl<'s, 'a> Ways<'s, 'a> {
    ghost use Rattle.marking.specs.Along.{AtPointOf, ReadyIn, TakesMarked};

    // The faces of region i.
    pub fn faces(self, i: usize) -> &'a [Word]
        requires { (i < self.regions) × Faces self.regions self.shapes.now }
        ensures { let w = self.entry in result.now ≡ row_of (rows_in w.regions w.shapes.now) (faces_in w.regions w.shapes.now) i }
    {
        let rows = rows_of(self.shapes, self.regions);
        let from = usize::from(rows[i]);
        let to = usize::from(rows[i + 1]);
        &faces_of(self.shapes, self.regions)[from..to]
    }

    // If q lies on a closed walk, it is taken in.
    fn take_closed(&self, reached: &mut Reached, x: Word, q: usize)
        requires { (x ≤ max_states) × (q < length reached.old.level.now) × (length self.now.heights.now ≡ length reached.old.level.now)
            × InOrder reached.old }
        ensures takes { TakesIn x (λ y. (y ≡ q) × (get_or self.now.heights.now q 0 % 2 ≡ 1)) reached.old reached.new }
        ensures same { SameQueue reached.old reached.new }
    {
        if self.heights[q] % 2 == 1 {
            reached.take(x, q);
        }
    }

    // The same for the states of a location that have a corner at point v: those at the slots of its chain.
    fn take_point(&self, reached: &mut Reached, x: Word, location: usize, v: usize)
        requires { let w = self.now in (x ≤ max_states) × (location * w.regions < length reached.old.level.now) × (v < point_count)
            × RegionTables true (length reached.old.level.now) w.regions w.shapes.now w.heights.now × InOrder reached.old }
        ensures takes { TakesIn x (AtPointOf self.now (location * self.now.regions) v) reached.old reached.new }
        ensures same { SameQueue reached.old reached.new }
    {
        let links = links_at(self.regions);
        let heads = heads_at(self.regions);
        let mut next = usize::from(self.shapes[heads + v]);
        // A while: each slot of the chain tells the next.
        while 0 < next {
            let slot = next - 1;
            self.take_closed(reached, x, location * self.regions + slot / SLOTS);
            next = usize::from(self.shapes[links + slot]);
        }
    }

    // The same for the point of a slot, unless it is visited: its states were taken in before.
    fn take_corner(
        &self,
        visited: &mut [u8],
        reached: &mut Reached,
        x: Word,
        location: usize,
        slot: usize,
    )
        requires { (location * self.now.regions < length reached.old.level.now) × (slot < slot_count * self.now.regions)
            × ReadyIn x self.now visited.old reached.old }
        ensures takes { let w = self.now in TakesMarked x (AtPointOf w (location * w.regions) (get_or (corners_in w.regions w.shapes.now) slot 0))
            w visited.new reached.old reached.new }
        ensures same { SameQueue reached.old reached.new }
    {
        let corners = corners_at(self.regions);
        let v = usize::from(self.shapes[corners + slot]);
        let spot = location * POINTS + v;
        if visited[spot] == 0 {
            visited[spot] = 1;
            self.take_point(reached, x, location, v);
        }
    }

    // The touch steps of region i of a location: those at its corner slots.
    fn take_corners(
        &self,
        visited: &mut [u8],
        reached: &mut Reached,
        x: Word,
        location: usize,
        i: usize,
    )
        requires { (location * self.now.regions < length reached.old.level.now) × (i < self.now.regions)
            × ReadyIn x self.now visited.old reached.old }
        ensures takes { let w = self.now in TakesMarked x (Touches (corners_in w.regions w.shapes.now) w.heights.now (location * w.regions) i 0)
            w visited.new reached.old reached.new }
        ensures same { SameQueue reached.old reached.new }
    {
        for k in 0..SLOTS {
            self.take_corner(visited, reached, x, location, SLOTS * i + k);
        }
    }
}

impl<'s, 'a> Spread for Ways<'s, 'a> {
    ghost use Rattle.marking.specs.Along.{leads_by, Agreed};

    ghost leads = { leads_by };

    ghost agrees = { Agreed };

    // Its time and jump steps, the faces, and with `touch` the touch steps.
    fn spread(&self, visited: &mut [u8], reached: &mut Reached, x: Word, p: usize) {
        let location = p / self.regions;
        let i = p % self.regions;
        reached.take_all(x, 0, self.steps.row(p));
        reached.take_all(x, location * self.regions, self.faces(i));
        if self.touch {
            self.take_corners(visited, reached, x, location, i);
        }
    }
}

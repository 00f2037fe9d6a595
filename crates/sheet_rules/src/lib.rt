#![tactic(auto)]

// The rules of a sheet, tested by the arrays: each state, step, face and corner slot is looked at once. The states of a location are
// `base`, `base` + 1, .., one for each region; `shapes` has the tables by region, one after the other (crate shapes).

ghost use Rattle.std.specs.Prelude.{◌≡◌, true, ◌↔◌, ◌+◌, ◌≤◌, ◌<◌, length};
ghost use Rattle.theory.specs.Sheet.{in_of, height_of, keeps};
ghost use Rattle.model.specs.Model.{Lawful};
ghost use Rattle.graph.specs.Plan.{system_of_model};
ghost use Rattle.graph.specs.States.{states};
ghost use Rattle.shapes.specs.Layout.{rows_in, faces_in, corners_in};
ghost use Rattle.successors.specs.Flow.{regions_in};
ghost use Rattle.sheet_rules.specs.Tables.{Slots};
ghost use Rattle.sheet_rules.specs.Rules.{Noted, Touched, StepKeeps, StepsKeep, FacesIn, StateKeeps, LocationKeeps, LocationAsked, SheetAsked};

use limits::{POINTS, SLOTS, Word};
use model::Model;
use shapes::{corners_of, faces_of, rows_of};

pub fn is_in(sheet: &[Word], p: usize) -> bool
    requires { p < length sheet.now }
    ensures { result ≡ in_of sheet.now p }
{
    sheet[p] % 2 == 1
}

fn step_keeps(x: Word, inside: Word, bound: Word) -> bool
    ensures { (result ≡ true) ↔ StepKeeps inside bound x }
{
    inside <= x % 2 && x / 2 < bound
}

// The corners of the regions of a location, whose states are `base`, `base` + 1, .., one for each region.
#[derive(Clone, Copy)]
pub struct Corners<'a> {
    pub sheet: &'a [Word],
    pub slots: &'a [Word],
    pub base: usize,
    pub regions: usize,
    pub ghost points: { Slots regions slots.now },
}

impl<'a> Corners<'a> {
    // Sets the flags of the corners of region i, if its state is in.
    fn note(&self, i: usize, noted: &mut [u8; POINTS])
        requires room { self.now.base + self.now.regions ≤ length self.now.sheet.now }
        requires below { i < self.now.regions }
        requires flags { Noted self.now.sheet.now self.now.slots.now noted.old self.now.base i }
        ensures { Noted self.now.sheet.now self.now.slots.now noted.new self.now.base (i + 1) }
    {
        if !is_in(self.sheet, self.base + i) {
            return;
        }
        for &v in &self.slots[SLOTS * i..SLOTS * i + SLOTS] {
            noted[usize::from(v)] = 1;
        }
    }

    // For each point 1 where it is a corner of an in-state of the location.
    pub fn noted(&self) -> [u8; POINTS]
        requires { self.now.base + self.now.regions ≤ length self.now.sheet.now }
        ensures { Noted self.now.sheet.now self.now.slots.now result self.now.base self.now.regions }
    {
        let mut noted = [0u8; POINTS];
        for i in 0..self.regions {
            self.note(i, &mut noted);
        }
        noted
    }

    // Region i has a corner that is noted.
    pub fn touches(&self, noted: &[u8; POINTS], i: usize) -> bool
        requires below { i < self.now.regions }
        requires flags { Noted self.now.sheet.now self.now.slots.now noted.now self.now.base self.now.regions }
        ensures { (result ≡ true) ↔ Touched self.now.sheet.now self.now.slots.now self.now.base self.now.regions i }
    {
        let slots = &self.slots[SLOTS * i..SLOTS * i + SLOTS];
        slots.iter().any(|&v| noted[usize::from(v)] == 1)
    }
}

// A location with the time and jump steps of all states and the tables by region.
#[derive(Clone, Copy)]
struct Location<'a> {
    sheet: &'a [Word],
    first: &'a [u32],
    targets: &'a [Word],
    shapes: &'a [Word],
    base: usize,
    regions: usize,
    ghost asked: { LocationAsked sheet.now first.now targets.now shapes.now base regions },
}

impl<'a> Location<'a> {
    fn corners(&self) -> Corners<'a>
        ensures sheet { result.sheet.now ≡ self.now.sheet.now }
        ensures slots { result.slots.now ≡ corners_in self.now.regions self.now.shapes.now }
        ensures base { result.base ≡ self.now.base }
        ensures regions { result.regions ≡ self.now.regions }
    {
        Corners {
            sheet: self.sheet,
            slots: corners_of(self.shapes, self.regions),
            base: self.base,
            regions: self.regions,
        }
    }

    // Each time and jump step of p leads to a state that is in, if `inside` is 1, and whose height is below `bound`.
    fn steps_keep(&self, p: usize, inside: Word, bound: Word) -> bool
        requires { p < length self.now.sheet.now }
        ensures { (result ≡ true) ↔ StepsKeep self.now.sheet.now self.now.first.now self.now.targets.now p inside bound }
    {
        let row = &self.targets[self.first[p] as usize..self.first[p + 1] as usize];
        row.iter()
            .all(|&q| step_keeps(self.sheet[usize::from(q)], inside, bound))
    }

    // Each face of region i is in.
    fn faces_in(&self, i: usize) -> bool
        requires { i < self.now.regions }
        ensures { (result ≡ true) ↔ FacesIn self.now.sheet.now (rows_in self.now.regions self.now.shapes.now)
            (faces_in self.now.regions self.now.shapes.now) self.now.base i }
    {
        let rows = rows_of(self.shapes, self.regions);
        let faces = faces_of(self.shapes, self.regions);
        let row = &faces[usize::from(rows[i])..usize::from(rows[i + 1])];
        row.iter()
            .all(|&j| is_in(self.sheet, self.base + usize::from(j)))
    }

    // The rules for region i.
    fn state_keeps(&self, noted: &[u8; POINTS], forbidden: bool, i: usize) -> bool
        requires below { i < self.now.regions }
        requires flags { Noted self.now.sheet.now (corners_in self.now.regions self.now.shapes.now) noted.now self.now.base self.now.regions }
        ensures { (result ≡ true)
            ↔ StateKeeps self.now.sheet.now self.now.first.now self.now.targets.now self.now.shapes.now self.now.base self.now.regions forbidden i }
    {
        let p = self.base + i;
        let height = self.sheet[p] / 2;
        if is_in(self.sheet, p) {
            return !forbidden && self.faces_in(i) && self.steps_keep(p, 1, height + 1);
        }
        if self.corners().touches(noted, i) {
            return self.steps_keep(p, 0, height);
        }
        self.steps_keep(p, 0, height + 1)
    }

    // The rules for all regions.
    fn keeps(&self, forbidden: bool) -> bool
        ensures { (result ≡ true)
            ↔ LocationKeeps self.now.sheet.now self.now.first.now self.now.targets.now self.now.shapes.now self.now.base self.now.regions forbidden }
    {
        let noted = self.corners().noted();
        (0..self.regions).all(|i| self.state_keeps(&noted, forbidden, i))
    }
}

// The number of regions, by the number of states.
pub fn regions_in(m: Model, count: usize) -> usize
    requires { Lawful m × (count ≡ states m) }
    ensures { result ≡ regions_in m }
{
    count / usize::from(m.locations)
}

// All rules.
pub fn sheet_keeps(
    m: Model,
    first: &[u32],
    targets: &[Word],
    shapes: &[Word],
    sheet: &[Word],
) -> bool
    requires { SheetAsked m first.now targets.now shapes.now sheet.now }
    ensures { result ≡ keeps (system_of_model m) (in_of sheet.now) (height_of sheet.now) }
{
    let regions = regions_in(m, sheet.len());
    if !is_in(sheet, usize::from(m.start) * regions) {
        return false;
    }
    for l in 0..usize::from(m.locations) {
        let location = Location {
            sheet,
            first,
            targets,
            shapes,
            base: l * regions,
            regions,
        };
        if !location.keeps(m.kind[l] == 1) {
            return false;
        }
    }
    true
}

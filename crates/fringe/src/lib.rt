// The fringe of a sheet: the states that are out and share a corner with an in-state of their location.
#![tactic(auto)]

ghost use Rattle.std.specs.Prelude.{◌+◌, ◌≤◌, ◌<◌, length};
ghost use Rattle.shapes.specs.Layout.{corners_in};
ghost use Rattle.sheet_rules.specs.Rules.{Noted};
ghost use Rattle.fringe.specs.Flags.{FringeFlags, FringeAsked, StateFlag, LocationFlags, LocationAsked};

use limits::{POINTS, Word};
use model::Model;
use shapes::corners_of;
use sheet_rules::Corners;

// The flag of region i of a location; `allowed` is 1 where its state is allowed.
fn flag_state(corners: &Corners, noted: &[u8; POINTS], i: usize, allowed: u8) -> u8
    requires room { corners.now.base + corners.now.regions ≤ length corners.now.sheet.now }
    requires below { i < corners.now.regions }
    requires flags { Noted corners.now.sheet.now corners.now.slots.now noted.now corners.now.base corners.now.regions }
    ensures { StateFlag corners.now.sheet.now corners.now.slots.now corners.now.base corners.now.regions i allowed result }
{
    let out = allowed == 1 && !sheet_rules::is_in(corners.sheet, corners.base + i);
    u8::from(out && corners.touches(noted, i))
}

// The flags of a location.
fn flag_location(shapes: &[Word], sheet: &[Word], base: usize, regions: usize, flags: &mut [u8])
    requires { LocationAsked shapes.now sheet.now base regions flags.old }
    ensures { LocationFlags sheet.now (corners_in regions shapes.now) base regions regions
        flags.old flags.new }
{
    let slots = corners_of(shapes, regions);
    let corners = Corners {
        sheet,
        slots,
        base,
        regions,
    };
    let noted = corners.noted();
    for i in 0..regions {
        let p = base + i;
        flags[p] = flag_state(&corners, &noted, i, flags[p]);
    }
}

// The flags of allowed states become those of the fringe. `shapes` has the corners of the regions (crate shapes).
pub fn fill_fringe(m: Model, shapes: &[Word], sheet: &[Word], flags: &mut [u8])
    requires { FringeAsked m shapes.now sheet.now flags.old }
    ensures { FringeFlags m sheet.now flags.new }
{
    let regions = sheet_rules::regions_in(m, sheet.len());
    for l in 0..usize::from(m.locations) {
        flag_location(shapes, sheet, l * regions, regions, flags);
    }
}

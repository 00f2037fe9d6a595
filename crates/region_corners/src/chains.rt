// Chains through the slots that hold a point.

ghost use Rattle.region_corners.specs.Shapes.{Slotted, Chained};

use limits::{SLOTS, Word};
use shapes::{corners_at, heads_at, links_at};

// For every point a chain through the slots of corners that hold it, the last one first: heads and links have one more than a slot, or 0 at the end.
pub fn link_corners(regions: usize, shapes: &mut [Word])
    requires { Slotted regions shapes.old }
    ensures { Chained regions shapes.old shapes.new }
{
    let corners = corners_at(regions);
    let links = links_at(regions);
    let heads = heads_at(regions);
    shapes[heads..].fill(0);
    for slot in 0..SLOTS * regions {
        let head = heads + usize::from(shapes[corners + slot]);
        shapes[links + slot] = shapes[head];
        shapes[head] = (slot + 1) as Word;
    }
}

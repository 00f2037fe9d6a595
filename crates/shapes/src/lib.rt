// Where the tables by region stand in one lent slice, for R regions: where the faces of each region begin (R + 1 places), the faces, a slot for each
// corner, for each slot the link of the chain through the slots that hold its point, and for each point the head of that chain.
#![tactic(auto)]

ghost use Rattle.std.specs.Prelude.{◌≡◌, ◌≤◌};
ghost use Rattle.limits.specs.Limits.{max_regions};
ghost use Rattle.shapes.specs.Layout.{faces_at, corners_at, links_at, heads_at, shapes_end, rows_in, faces_in, corners_in, ShapesRoom};

use limits::{MAX_FACES, MAX_REGIONS, POINTS, SLOTS, SMALL_REGIONS, Word};

// The length for the largest plan. It and the next are written out, since the value of a constant calls no function.
pub const MAX_SHAPES: usize = MAX_REGIONS
    + 1
    + MAX_FACES * MAX_REGIONS
    + 2 * SLOTS * MAX_REGIONS
    + POINTS;

// And for a small one.
pub const SMALL_SHAPES: usize = SMALL_REGIONS
    + 1
    + MAX_FACES * SMALL_REGIONS
    + 2 * SLOTS * SMALL_REGIONS
    + POINTS;

pub fn faces_at(regions: usize) -> usize
    requires { regions ≤ max_regions }
    ensures { result ≡ faces_at regions }
{
    regions + 1
}

pub fn corners_at(regions: usize) -> usize
    requires { regions ≤ max_regions }
    ensures { result ≡ corners_at regions }
{
    regions + 1 + MAX_FACES * regions
}

pub fn links_at(regions: usize) -> usize
    requires { regions ≤ max_regions }
    ensures { result ≡ links_at regions }
{
    regions + 1 + MAX_FACES * regions + SLOTS * regions
}

pub fn heads_at(regions: usize) -> usize
    requires { regions ≤ max_regions }
    ensures { result ≡ heads_at regions }
{
    regions + 1 + MAX_FACES * regions + SLOTS * regions + SLOTS * regions
}

pub fn shapes_end(regions: usize) -> usize
    requires { regions ≤ max_regions }
    ensures { result ≡ shapes_end regions }
{
    regions + 1 + MAX_FACES * regions + SLOTS * regions + SLOTS * regions + POINTS
}

// ---- the parts that a check of evidence reads

// Where the faces of each region begin.
pub fn rows_of(shapes: &[Word], regions: usize) -> &[Word]
    requires { ShapesRoom regions shapes.now }
    ensures { result.now ≡ rows_in regions shapes.now }
{
    let end = faces_at(regions);
    &shapes[..end]
}

pub fn faces_of(shapes: &[Word], regions: usize) -> &[Word]
    requires { ShapesRoom regions shapes.now }
    ensures { result.now ≡ faces_in regions shapes.now }
{
    let start = faces_at(regions);
    let end = corners_at(regions);
    &shapes[start..end]
}

pub fn corners_of(shapes: &[Word], regions: usize) -> &[Word]
    requires { ShapesRoom regions shapes.now }
    ensures { result.now ≡ corners_in regions shapes.now }
{
    let start = corners_at(regions);
    let end = links_at(regions);
    &shapes[start..end]
}

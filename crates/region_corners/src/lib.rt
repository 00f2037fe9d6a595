#![tactic(auto)]

// Tables by region number, for n clocks and a ceiling: the faces of each region, its corners, the slots that hold a point. They stand in one slice.

mod chains;
mod corners;
mod faces;
mod table;

ghost use Rattle.std.specs.Prelude.{◌≡◌};
ghost use Rattle.region.specs.Limits.{Clocks, Ceiling};
ghost use Rattle.region_table.specs.Table.{packed_regions};
ghost use Rattle.region_corners.specs.Shapes.{FaceShapes, Shapes};

pub use chains::link_corners;
use corners::fill_corners;
pub use faces::fill_faces;
use limits::Word;
use shapes::{corners_at, links_at};

// The corners of every region, behind the faces that are there.
pub fn add_corners(n: u8, ceiling: u8, table: &[u32], shapes: &mut [Word])
    requires { Clocks n × Ceiling ceiling × (table.now ≡ packed_regions n ceiling) × FaceShapes n ceiling shapes.old }
    ensures { Shapes n ceiling shapes.new }
{
    let corners = corners_at(table.len());
    let links = links_at(table.len());
    fill_corners(n, ceiling, table, &mut shapes[corners..links]);
}

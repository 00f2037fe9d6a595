// The corners of every region as numbers of points.

ghost use Rattle.std.specs.Prelude.{◌≡◌, ◌+◌, ◌*◌, ◌≤◌, length};
ghost use Rattle.limits.specs.Limits.{slot_count};
ghost use Rattle.theory.specs.Region.{regions};
ghost use Rattle.region.specs.Limits.{Clocks, Ceiling};
ghost use Rattle.region.specs.View.{Small};
ghost use Rattle.region_table.specs.Table.{packed_regions};
ghost use Rattle.region_corners.specs.Corners.{CornersFrom, CornerSlots};

use limits::{SLOTS, Word};
use region::Region;

// The corners of a region from slot s on, by the thresholds from the largest down to 1; some stand there more than once.
fn put_corners(g: Region, corner: &mut [Word], s: usize)
    requires { Small g × (s + slot_count ≤ length corner.old) }
    ensures { CornersFrom g s slot_count corner.old corner.new }
{
    for t in 0..SLOTS {
        corner[s + t] = g.code((SLOTS - t) as u8);
    }
}

// Into the slots from SLOTS * i on the corners of region i, for every region.
pub fn fill_corners(n: u8, ceiling: u8, table: &[u32], corner: &mut [Word])
    requires { Clocks n × Ceiling ceiling × (table.now ≡ packed_regions n ceiling)
        × (length corner.old ≡ slot_count * length (regions n ceiling)) }
    ensures { CornerSlots n ceiling corner.new }
{
    for i in 0..table.len() {
        put_corners(Region::unpack(table[i]), corner, SLOTS * i);
    }
}

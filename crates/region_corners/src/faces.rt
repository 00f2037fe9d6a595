// The faces of every region, by the regions' numbers.

ghost use Rattle.std.specs.Prelude.{◌≡◌, ℕ, ◌+◌, ◌≤◌, ◌<◌, length, get_or};
ghost use Rattle.theory.specs.Lists.{flat};
ghost use Rattle.theory.specs.Region.{regions};
ghost use Rattle.shapes.specs.Layout.{shapes_end};
ghost use Rattle.region.specs.Limits.{Clocks, Ceiling};
ghost use Rattle.region.specs.View.{Small};
ghost use Rattle.region_table.specs.Table.{packed_regions};
ghost use Rattle.region_steps.specs.Tables.{Indexed};
ghost use Rattle.region_corners.specs.Faces.{whole_code, rank_code, face_codes, face_rows, starts, LookedUp};
ghost use Rattle.region_corners.specs.Shapes.{FaceShapes};

use super::table::face_row;
use limits::Word;
use region::Region;
use region_steps::{rank_code, whole_code};
use shapes::{corners_at, faces_at};

// The numbers of the faces of a region from place `at` on; the place after the last. The faces are those of its ranks, moved by its whole parts.
fn put_faces(g: Region, index: &[u16], faces: &mut [Word], at: usize) -> usize
    requires { Small g × (at + length (face_codes (rank_code g)) ≤ length faces.old)
        × ((k : ℕ) → k < length (face_codes (rank_code g)) → whole_code g + get_or (face_codes (rank_code g)) k 0 < length index.now) }
    ensures value { result ≡ at + length (face_codes (rank_code g)) }
    ensures looked_up { LookedUp index.now (face_codes (rank_code g)) (whole_code g) at (length (face_codes (rank_code g)))
        faces.old faces.new }
{
    let base = whole_code(g);
    let row = face_row(rank_code(g));
    let mut end = at;
    for &x in row {
        faces[end] = index[base + usize::from(x)];
        end += 1;
    }
    end
}

// The numbers of the faces of every region, those of region i from place `rows[i]` up to place `rows[i + 1]` of the faces. Rows and faces stand one
// behind the other, so what lies behind the rows is lent.
pub fn fill_faces(n: u8, ceiling: u8, table: &[u32], index: &[u16], shapes: &mut [Word])
    requires { Clocks n × Ceiling ceiling × (table.now ≡ packed_regions n ceiling) × Indexed n ceiling index.now
        × (length shapes.old ≡ shapes_end (length (regions n ceiling))) }
    ensures { FaceShapes n ceiling shapes.new }
{
    let faces = faces_at(table.len());
    let corners = corners_at(table.len());
    shapes[0] = 0;
    let mut at = 0;
    for i in 0..table.len() {
        let g = Region::unpack(table[i]);
        at = put_faces(g, index, &mut shapes[faces..corners], at);
        shapes[i + 1] = at as Word;
    }
}

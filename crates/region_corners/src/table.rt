// The faces of the regions of three clocks whose whole parts are 0: their codes, those of each code of ranks in a row.
ghost use Rattle.std.specs.Prelude.{◌≡◌, ◌<◌};
ghost use Rattle.theory.specs.Lists.{flat};
ghost use Rattle.region_corners.specs.Faces.{face_codes, face_rows, starts};
ghost use Rattle.limits.specs.Limits.{rank_code_count};

use limits::RANK_CODES;

const FACE_COUNT: usize = 170;

const START_COUNT: usize = RANK_CODES + 1;

// The rows, one after the other; each ascends.
const FACES: [u16; FACE_COUNT] = [
    0, 64, 0, 320, 0, 384, 0, 1, 5, 64, 68, 384, 0, 4, 5, 320, 321, 384, 0, 1600, 0, 1664, 0, 1,
    17, 64, 80, 1664, 0, 1920, 0, 1984, 0, 1, 21, 64, 84, 1984, 0, 4, 20, 320, 336, 1920, 0, 4, 21,
    320, 337, 1984, 0, 5, 21, 384, 400, 1984, 0, 1, 5, 6, 21, 22, 26, 64, 68, 84, 88, 384, 400,
    1984, 0, 4, 5, 9, 21, 25, 26, 320, 321, 337, 338, 384, 400, 1984, 0, 16, 17, 1600, 1601, 1664,
    0, 16, 20, 1600, 1604, 1920, 0, 16, 21, 1600, 1605, 1984, 0, 17, 21, 1664, 1668, 1984, 0, 1,
    17, 18, 21, 22, 38, 64, 80, 84, 100, 1664, 1668, 1984, 0, 20, 21, 1920, 1921, 1984, 0, 4, 20,
    21, 24, 25, 41, 320, 336, 337, 353, 1920, 1921, 1984, 0, 16, 17, 21, 33, 37, 38, 1600, 1601,
    1605, 1606, 1664, 1668, 1984, 0, 16, 20, 21, 36, 37, 41, 1600, 1604, 1605, 1609, 1920, 1921,
    1984,
];

// Where they begin, and where the last one ends. The 38 codes that no lawful region has stand for empty rows.
const STARTS: [u8; START_COUNT] = [
    0, 0, 2, 2, 2, 4, 6, 12, 12, 12, 18, 18, 18, 18, 18, 18, 18, 20, 22, 28, 28, 30, 32, 38, 38,
    44, 50, 56, 70, 70, 70, 84, 84, 84, 90, 90, 90, 96, 102, 108, 122, 122, 128, 128, 128, 128,
    142, 142, 142, 142, 142, 142, 142, 142, 142, 156, 156, 156, 170, 170, 170, 170, 170, 170, 170,
];

fn face_list() -> &'static [u16; FACE_COUNT]
    ensures { result.now ≡ flat face_rows }
{
    &FACES
}

fn start_list() -> &'static [u8; START_COUNT]
    ensures { result.now ≡ starts 0 face_rows }
{
    &STARTS
}

// The row of a code of ranks.
pub fn face_row(c: usize) -> &'static [u16]
    requires { c < rank_code_count }
    ensures { result.now ≡ face_codes c }
{
    let starts = start_list();
    let list = face_list();
    let from = usize::from(starts[c]);
    let to = usize::from(starts[c + 1]);
    &list[from..to]
}

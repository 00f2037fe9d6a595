// The ranks of three clocks closed up, as a table: r1 r2 r3 read as the digits of a number.
ghost use Rattle.std.specs.Prelude.{◌≡◌, ◌<◌};
ghost use Rattle.limits.specs.Limits.{rank_code_count};
ghost use Rattle.region_steps.specs.Codes.{closed_code};

use limits::RANK_CODES;

// By the code of three ranks, their code when they are closed up.
const CLOSED: [u8; RANK_CODES] = [
    0, 1, 1, 1, 4, 5, 6, 6, 4, 9, 5, 6, 4, 9, 9, 5, 16, 17, 18, 18, 20, 21, 22, 22, 24, 25, 26, 27,
    24, 25, 30, 26, 16, 33, 17, 18, 36, 37, 38, 39, 20, 41, 21, 22, 24, 45, 25, 26, 16, 33, 33, 17,
    36, 37, 54, 38, 36, 57, 37, 38, 20, 41, 41, 21,
];

pub fn closed(c: usize) -> u8
    requires { c < rank_code_count }
    ensures value { result ≡ closed_code c }
    ensures upper_bound { result < rank_code_count }
{
    CLOSED[c]
}

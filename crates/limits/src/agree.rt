// Each constant is the number that contracts name.

ghost use Rattle.std.specs.Prelude.{◌≡◌, [], ◌∷◌};
ghost use Rattle.limits.specs.Limits.{max_clocks, max_ceiling, max_locations, max_edges, newest_mark, max_regions, max_states, max_steps, slot_count, point_base, point_count, whole_base, rank_base, rank_code_count, code_count, max_faces, level_flag, small_regions, small_states, small_steps, digit_base, two_digits, three_digits};

use super::{
    CODES, DIGIT_BASE, LEVEL_FLAG, MAX_CEILING, MAX_CLOCKS, MAX_EDGES, MAX_FACES, MAX_LOCATIONS,
    MAX_REGIONS, MAX_STATES, MAX_STEPS, NEWEST_MARK, POINT_BASE, POINTS, RANK_BASE, RANK_CODES,
    SLOTS, SMALL_REGIONS, SMALL_STATES, SMALL_STEPS, THREE_DIGITS, TWO_DIGITS, WHOLE_BASE,
};

pub fn sizes() -> [usize; 20]
    ensures { result ≡ max_clocks ∷ max_ceiling ∷ max_locations ∷ max_edges ∷ newest_mark
        ∷ max_regions ∷ max_states ∷ max_steps
        ∷ slot_count ∷ point_base ∷ point_count ∷ whole_base ∷ rank_base ∷ rank_code_count ∷ code_count ∷ max_faces
        ∷ level_flag ∷ small_regions ∷ small_states ∷ small_steps ∷ [] }
{
    [
        MAX_CLOCKS,
        MAX_CEILING,
        MAX_LOCATIONS,
        MAX_EDGES,
        NEWEST_MARK,
        MAX_REGIONS,
        MAX_STATES,
        MAX_STEPS,
        SLOTS,
        POINT_BASE,
        POINTS,
        WHOLE_BASE,
        RANK_BASE,
        RANK_CODES,
        CODES,
        MAX_FACES,
        LEVEL_FLAG,
        SMALL_REGIONS,
        SMALL_STATES,
        SMALL_STEPS,
    ]
}

pub fn digits() -> [u32; 3]
    ensures { result ≡ digit_base ∷ two_digits ∷ three_digits ∷ [] }
{
    [DIGIT_BASE, TWO_DIGITS, THREE_DIGITS]
}

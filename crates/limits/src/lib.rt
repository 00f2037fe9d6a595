// Every limit of a plan, and the numbers that follow from them: the one place where they stand. Each number stands here twice, as a constant and under
// specs/Limits, which is what contracts name; module `agree` shows that the two are one, so that a constant that is changed alone is refused.
#![tactic(auto)]

mod agree;
pub mod cast;
pub mod refusal;
pub mod zero;

// What holds a state number: elements of scratch, distances, sheet numbers, places in a list of steps.
pub type Word = u16;

// 01: "clocks n, 1..3; ceiling M, 1..4; locations L, 1..8; edges E, 0..24".
pub const MAX_CLOCKS: usize = 3;

pub const MAX_CEILING: usize = 4;

pub const MAX_LOCATIONS: usize = 8;

pub const MAX_EDGES: usize = 24;

// 01 and 02: a plan's mark is 1 or 2.
pub const NEWEST_MARK: usize = 2;

// ---- what follows

// 01's count for n = 3 at the ceiling.
pub const MAX_REGIONS: usize = (MAX_CEILING + 1) * (MAX_CEILING + 1) * (MAX_CEILING + 1)
    + 3 * MAX_CEILING * (MAX_CEILING + 1) * (MAX_CEILING + 1)
    + 9 * MAX_CEILING * MAX_CEILING * (MAX_CEILING + 1)
    + 13 * MAX_CEILING * MAX_CEILING * MAX_CEILING;

pub const MAX_STATES: usize = MAX_LOCATIONS * MAX_REGIONS;

// A time step from each state, and along each edge a jump from each region.
pub const MAX_STEPS: usize = MAX_STATES + MAX_EDGES * MAX_REGIONS;

// A slot for each corner that a region can have: the thresholds from n + 1 down to 1.
pub const SLOTS: usize = MAX_CLOCKS + 1;

// Whole points: coordinates up to one more than the ceiling.
pub const POINT_BASE: usize = MAX_CEILING + 2;

pub const POINTS: usize = POINT_BASE * POINT_BASE * POINT_BASE;

// Codes of regions: whole parts up to the ceiling, ranks up to the number of clocks.
pub const WHOLE_BASE: usize = MAX_CEILING + 1;

pub const RANK_BASE: usize = MAX_CLOCKS + 1;

pub const RANK_CODES: usize = RANK_BASE * RANK_BASE * RANK_BASE;

pub const CODES: usize = WHOLE_BASE * WHOLE_BASE * WHOLE_BASE * RANK_CODES;

// The faces of one region: some, not all, of its corners, and not none.
pub const MAX_FACES: usize = (1 << SLOTS) - 2;

// Added to a level, and above every level: a level is at most one more than the number of states.
pub const LEVEL_FLAG: usize = MAX_STATES + 2;

// ---- a small plan: at most as many regions as three clocks have at ceiling 2

pub const SMALL_REGIONS: usize = 3 * 3 * 3 + 3 * 2 * 3 * 3 + 9 * 2 * 2 * 3 + 13 * 2 * 2 * 2;

pub const SMALL_STATES: usize = MAX_LOCATIONS * SMALL_REGIONS;

pub const SMALL_STEPS: usize = SMALL_STATES + MAX_EDGES * SMALL_REGIONS;

// ---- an edge in one number of eight digits: a low and a high for each clock, the reset mask, the target

pub const DIGIT_BASE: u32 = 16;

pub const TWO_DIGITS: u32 = DIGIT_BASE * DIGIT_BASE;

pub const THREE_DIGITS: u32 = DIGIT_BASE * DIGIT_BASE * DIGIT_BASE;

#![tactic(auto)]

// Regions of up to three clocks (01, "Regions"), by value: time successor, reset, corners, faces, and the packed number.
ghost use Rattle.std.specs.Prelude.{◌≡◌, cond, ◌&&◌, ◌||◌, [], ◌∷◌, map, ◌+◌, ◌≤◌, ◌<◌, max, eqb, leb};
ghost use Rattle.theory.specs.Lists.{every, some, down};
ghost use Rattle.theory.specs.Region.{rounded_up, fits, attains, has_rank, top_rank, raise, rise_ranks, carry, successor, reset_clocks, close_up, face, shares};
ghost use Rattle.limits.specs.Limits.{max_clocks, max_ceiling, slot_count};
ghost use Rattle.region.specs.Limits.{Clocks};
ghost use Rattle.region.specs.View.{view, struct_of, Small, time_of, later_of, mask_bits, point_list};
ghost use Rattle.region.specs.Corners.{codes, code_at};
ghost use Rattle.region.specs.Packed.{packed_bound, pack, unpack};

use limits::Word;

// Packed numbers have six digits.
pub const PACKED_BOUND: u32 = 1000000;

// Coordinates of a corner are the digits of its number in this base.
const BASE: Word = limits::POINT_BASE as Word;

// A whole part and a rank for each clock; clocks past the model's number are 0.
#[derive(Clone, Copy)]
pub struct Region {
    pub w1: u8,
    pub w2: u8,
    pub w3: u8,
    pub r1: u8,
    pub r2: u8,
    pub r3: u8,
}

// A whole point.
#[derive(Clone, Copy)]
pub struct Point {
    pub x1: u8,
    pub x2: u8,
    pub x3: u8,
}

// The corners of a region as numbers, by the thresholds 4, 3, 2, 1; some more than once.
#[derive(Clone, Copy)]
pub struct Codes {
    pub c4: Word,
    pub c3: Word,
    pub c2: Word,
    pub c1: Word,
}

// A clock is within a limit: w at rank 0, w + 1 otherwise.
fn limited(w: u8, r: u8, limit: u8) -> bool
    ensures { result ≡ leb (rounded_up w r) limit }
{
    (w < limit) | ((w == limit) & (r == 0))
}

// The whole part of a clock, raised by one at rank t or more.
fn raised(t: u8, w: u8, r: u8) -> u8
    requires { w ≤ max_ceiling }
    ensures value { result ≡ cond (leb t r) (w + 1) w }
    ensures upper_bound { result ≤ max_ceiling + 1 }
{
    if t <= r { w + 1 } else { w }
}

// How many of the ranks 1..x are present, from the presence of 1, 2 and 3.
fn count_up_to(p: bool, q: bool, s: bool, x: u8) -> u8
    ensures { result ≡ cond (p && leb 1 x) 1 0 + cond (q && leb 2 x) 1 0 + cond (s && leb 3 x) 1 0 }
{
    u8::from(p & (1 <= x)) + u8::from(q & (2 <= x)) + u8::from(s & (3 <= x))
}

impl Codes {
    fn has(self, p: Word) -> bool
        ensures { result ≡ some (eqb p) (codes self) }
    {
        (p == self.c4) | ((p == self.c3) | ((p == self.c2) | (p == self.c1)))
    }

    // Some corner of self is one of b's.
    fn meets(self, b: Codes) -> bool
        ensures { result ≡ some (λ p. some (eqb p) (codes b)) (codes self) }
    {
        b.has(self.c4) | (b.has(self.c3) | (b.has(self.c2) | b.has(self.c1)))
    }

    // Every corner of self is one of b's.
    fn inside(self, b: Codes) -> bool
        ensures { result ≡ every (λ p. some (eqb p) (codes b)) (codes self) }
    {
        b.has(self.c4) & (b.has(self.c3) & (b.has(self.c2) & b.has(self.c1)))
    }
}

impl Region {
    // The first n clocks; the others are 0.
    pub fn first(self, n: u8) -> Region
        requires { Clocks n }
        ensures { result ≡ struct_of (view n self) }
    {
        match n {
            1 => Region {
                w2: 0,
                w3: 0,
                r2: 0,
                r3: 0,
                ..self
            },
            2 => Region {
                w3: 0,
                r3: 0,
                ..self
            },
            _ => self,
        }
    }

    // Some clock of the first n has rank 0.
    fn has_whole(self, n: u8) -> bool
        requires { Clocks n }
        ensures { result ≡ has_rank (view n self) 0 }
    {
        (self.r1 == 0) | (((2 <= n) & (self.r2 == 0)) | ((3 <= n) & (self.r3 == 0)))
    }

    fn has_rank(self, t: u8) -> bool
        ensures { result ≡ has_rank (view max_clocks self) t }
    {
        (self.r1 == t) | ((self.r2 == t) | (self.r3 == t))
    }

    // The largest rank.
    pub fn top_rank(self) -> u8
        ensures { result ≡ top_rank (view max_clocks self) }
    {
        self.r1.max(self.r2.max(self.r3))
    }

    // All ranks rise.
    fn risen(self) -> Region
        requires { Small self }
        ensures { result ≡ struct_of (rise_ranks (view max_clocks self)) }
    {
        Region {
            w1: self.w1,
            w2: self.w2,
            w3: self.w3,
            r1: self.r1 + 1,
            r2: self.r2 + 1,
            r3: self.r3 + 1,
        }
    }

    // The clocks of rank t go to the next whole number.
    fn carried(self, t: u8) -> Region
        requires { Small self }
        ensures { result ≡ struct_of (carry t (view max_clocks self)) }
    {
        Region {
            w1: self.w1 + u8::from(self.r1 == t),
            w2: self.w2 + u8::from(self.r2 == t),
            w3: self.w3 + u8::from(self.r3 == t),
            r1: self.r1 * u8::from(self.r1 != t),
            r2: self.r2 * u8::from(self.r2 != t),
            r3: self.r3 * u8::from(self.r3 != t),
        }
    }

    // The time successor of n clocks, with no ceiling.
    fn after(self, n: u8) -> Region
        requires { Clocks n × Small self }
        ensures { result ≡ struct_of (successor (view n self)) }
    {
        if self.has_whole(n) {
            return self.risen().first(n);
        }
        let t = self.first(n).top_rank();
        self.carried(t).first(n)
    }

    // The time successor of n clocks; none past the ceiling.
    pub fn successor(self, n: u8, ceiling: u8) -> Option<Region>
        requires { Clocks n × Small self }
        ensures { result ≡ later_of (time_of n ceiling (view n self)) }
    {
        let g = self.after(n);
        if g.fits(ceiling, ceiling, ceiling) {
            Some(g)
        } else {
            None
        }
    }

    // Each clock is within its limit from above.
    pub fn fits(self, l1: u8, l2: u8, l3: u8) -> bool
        ensures { result ≡ fits (view max_clocks self) (l1 ∷ l2 ∷ l3 ∷ []) }
    {
        limited(self.w1, self.r1, l1)
            & (limited(self.w2, self.r2, l2) & limited(self.w3, self.r3, l3))
    }

    // Each clock is within its limit from below.
    pub fn attains(self, l1: u8, l2: u8, l3: u8) -> bool
        ensures { result ≡ attains (view max_clocks self) (l1 ∷ l2 ∷ l3 ∷ []) }
    {
        (l1 <= self.w1) & ((l2 <= self.w2) & (l3 <= self.w3))
    }

    // The ranks closed up.
    pub fn close_up(self) -> Region
        requires { Small self }
        ensures { result ≡ struct_of (close_up (view max_clocks self)) }
    {
        let p = self.has_rank(1);
        let q = self.has_rank(2);
        let s = self.has_rank(3);
        Region {
            w1: self.w1,
            w2: self.w2,
            w3: self.w3,
            r1: count_up_to(p, q, s, self.r1),
            r2: count_up_to(p, q, s, self.r2),
            r3: count_up_to(p, q, s, self.r3),
        }
    }

    // The clocks of the mask are 0.
    pub fn cleared(self, mask: u8) -> Region
        requires { Small self }
        ensures value { result ≡ struct_of (reset_clocks (mask_bits max_clocks mask) (view max_clocks self)) }
        ensures small { Small result }
    {
        let (w1, r1) = if mask % 2 == 1 {
            (0, 0)
        } else {
            (self.w1, self.r1)
        };
        let (w2, r2) = if mask / 2 % 2 == 1 {
            (0, 0)
        } else {
            (self.w2, self.r2)
        };
        let (w3, r3) = if mask / 2 / 2 % 2 == 1 {
            (0, 0)
        } else {
            (self.w3, self.r3)
        };
        Region {
            w1,
            w2,
            w3,
            r1,
            r2,
            r3,
        }
    }

    // The clocks of the mask are reset, and the remaining ranks close up.
    pub fn reset(self, mask: u8) -> Region
        requires { Small self }
        ensures { result ≡ struct_of (close_up (reset_clocks (mask_bits max_clocks mask) (view max_clocks self))) }
    {
        self.cleared(mask).close_up()
    }

    // The whole parts, raised by one at the clocks of rank t or more.
    pub fn corner(self, t: u8) -> Point
        requires { Small self }
        ensures { point_list result ≡ raise t (view max_clocks self) }
    {
        Point {
            x1: raised(t, self.w1, self.r1),
            x2: raised(t, self.w2, self.r2),
            x3: raised(t, self.w3, self.r3),
        }
    }

    pub fn code(self, t: u8) -> Word
        requires { Small self }
        ensures { result ≡ code_at self t }
    {
        let x = raised(t, self.w1, self.r1) as Word;
        let y = raised(t, self.w2, self.r2) as Word;
        let z = raised(t, self.w3, self.r3) as Word;
        (x * BASE + y) * BASE + z
    }

    fn codes(self) -> Codes
        requires { Small self }
        ensures { codes result ≡ map (code_at self) (down slot_count) }
    {
        Codes {
            c4: self.code(4),
            c3: self.code(3),
            c2: self.code(2),
            c1: self.code(1),
        }
    }

    // Some corner of self is one of b's.
    pub fn shares_corner(self, b: Region) -> bool
        requires { Small self × Small b }
        ensures { result ≡ shares (view max_clocks self) (view max_clocks b) }
    {
        self.codes().meets(b.codes())
    }

    // The corners of b are some, not all, of self's.
    pub fn has_face(self, b: Region) -> bool
        requires { Small self × Small b }
        ensures { result ≡ face (view max_clocks self) (view max_clocks b) }
    {
        let mine = self.codes();
        let other = b.codes();
        other.inside(mine) & !mine.inside(other)
    }

    // The packed number: w1 w2 w3 r1 r2 r3 as decimal digits.
    pub fn pack(self) -> u32
        requires { Small self }
        ensures value { result ≡ pack self }
        ensures upper_bound { result < packed_bound }
    {
        let w = (self.w1 as u32 * 10 + self.w2 as u32) * 10 + self.w3 as u32;
        ((w * 10 + self.r1 as u32) * 10 + self.r2 as u32) * 10 + self.r3 as u32
    }

    // The region of a packed number.
    pub fn unpack(p: u32) -> Region
        requires { p < packed_bound }
        ensures { result ≡ unpack p }
    {
        Region {
            w1: (p / 100000) as u8,
            w2: (p / 10000 % 10) as u8,
            w3: (p / 1000 % 10) as u8,
            r1: (p / 100 % 10) as u8,
            r2: (p / 10 % 10) as u8,
            r3: (p % 10) as u8,
        }
    }
}

#![tactic(auto)]

// The steps of regions as tables by their numbers, filled once for a number of clocks and a ceiling, so that no step of a state is a search.
// `table` is the list of the regions, packed, as region_table::select gives it; a region's number is its place there.
ghost use Rattle.std.specs.Prelude.{◌≡◌, cond, [], ℕ, ◌≤◌, ◌<◌, length, get_or};
ghost use Rattle.theory.specs.Region.{successor, reset_clocks, close_up, regions};
ghost use Rattle.theory.specs.StateGraph.{index_in};
ghost use Rattle.region.specs.Limits.{Clocks, Ceiling};
ghost use Rattle.region.specs.View.{view, mask_bits, Small, Known};
ghost use Rattle.region_table.specs.Table.{packed_regions};
ghost use Rattle.limits.specs.Limits.{rank_code_count, code_count};
ghost use Rattle.region_steps.specs.Codes.{whole_code, rank_code, code_of, reset_code};
ghost use Rattle.region_steps.specs.Tables.{Indexed, Laters};

mod ranks;

use limits::{RANK_BASE, RANK_CODES, WHOLE_BASE};
use ranks::closed;
use region::Region;

// The part of the code of a region that its whole parts give.
pub fn whole_code(g: Region) -> usize
    requires { Small g }
    ensures { result ≡ whole_code g }
{
    let w = usize::from(g.w1) * WHOLE_BASE + usize::from(g.w2);
    (w * WHOLE_BASE + usize::from(g.w3)) * RANK_CODES
}

// The part that its ranks give.
pub fn rank_code(g: Region) -> usize
    requires { Small g }
    ensures value { result ≡ rank_code g }
    ensures upper_bound { result < rank_code_count }
{
    (usize::from(g.r1) * RANK_BASE + usize::from(g.r2)) * RANK_BASE + usize::from(g.r3)
}

// The code of a region.
fn code(g: Region) -> usize
    requires { Small g }
    ensures value { result ≡ code_of g }
    ensures upper_bound { result < code_count }
{
    whole_code(g) + rank_code(g)
}

// The code of a region after a reset: the ranks that are left close up.
fn reset_code(g: Region, mask: u8) -> usize
    requires { Small g }
    ensures value { result ≡ reset_code g mask }
    ensures upper_bound { result < code_count }
{
    let left = g.cleared(mask);
    whole_code(left) + usize::from(closed(rank_code(left)))
}

// Region i of the list.
fn region_at(n: u8, ceiling: u8, table: &[u32], i: usize) -> Region
    requires { Clocks n × Ceiling ceiling × (table.now ≡ packed_regions n ceiling) × (i < length (regions n ceiling)) }
    ensures known { Known n ceiling result }
    ensures result_value { view n result ≡ get_or (regions n ceiling) i [] }
{
    Region::unpack(table[i])
}

// Into `index`, at the code of each region, its number.
pub fn fill_index(n: u8, ceiling: u8, table: &[u32], index: &mut [u16])
    requires { Clocks n × Ceiling ceiling × (table.now ≡ packed_regions n ceiling) × (length index.old ≡ code_count) }
    ensures { Indexed n ceiling index.new }
{
    for i in 0..region_table::count(n, ceiling) {
        let at = code(region_at(n, ceiling, table, usize::from(i)));
        index[at] = i;
    }
}

// The number of a region.
pub fn number_of(index: &[u16], g: Region) -> usize
    requires { Small g × (length index.now ≡ code_count) }
    ensures { (n M : ℕ) → Indexed n M index.now → Known n M g → result ≡ index_in (regions n M) (view n g) }
{
    usize::from(index[code(g)])
}

// The number of a region after a reset.
pub fn reset_number(index: &[u16], g: Region, mask: u8) -> usize
    requires { Small g × (length index.now ≡ code_count) }
    ensures { (n M : ℕ) → Clocks n → Ceiling M → Indexed n M index.now → Known n M g
        → result ≡ index_in (regions n M) (close_up (reset_clocks (mask_bits n mask) (view n g))) }
{
    usize::from(index[reset_code(g, mask)])
}

// The number of the region next in time, or `past` where there is none.
fn later_of(n: u8, ceiling: u8, index: &[u16], past: u16, g: Region) -> u16
    requires { Clocks n × Ceiling ceiling × Indexed n ceiling index.now × (past ≡ length (regions n ceiling)) × Known n ceiling g }
    ensures { result ≡ index_in (regions n ceiling) (successor (view n g)) }
{
    match g.successor(n, ceiling) {
        Some(h) => index[code(h)],
        None => past,
    }
}

// Into `later`, for each region, the number of its time successor, or the number of regions where there is none.
pub fn fill_later(n: u8, ceiling: u8, table: &[u32], index: &[u16], later: &mut [u16])
    requires { Clocks n × Ceiling ceiling × (table.now ≡ packed_regions n ceiling) × Indexed n ceiling index.now
        × (length later.old ≡ length (regions n ceiling)) }
    ensures { Laters n ceiling later.new }
{
    let past = region_table::count(n, ceiling);
    for i in 0..usize::from(past) {
        let g = region_at(n, ceiling, table, i);
        later[i] = later_of(n, ceiling, index, past, g);
    }
}

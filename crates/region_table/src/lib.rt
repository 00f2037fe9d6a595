#![tactic(auto)]

// The table of all regions (01, "Regions"): selection for a plan's clocks and ceiling, counts, and the index of a region.
ghost use Rattle.std.specs.Prelude.{◌≡◌, cond, ◌&&◌, ◌++◌, ◌%◌, ◌≤◌, ◌<◌, eqb, leb, ltb, length, get_or, drop};
ghost use Rattle.theory.specs.Region.{regions};
ghost use Rattle.limits.specs.Limits.{max_clocks, max_ceiling, max_regions};
ghost use Rattle.region.specs.Limits.{Clocks, Ceiling};
ghost use Rattle.region.specs.Packed.{packed_bound};
ghost use Rattle.region_table.specs.Table.{packed_regions, chosen, Gap, Skips};
ghost use Rattle.region_table.specs.Lookup.{found_in, Increasing, Place};

mod table;

use limits::{MAX_CEILING, MAX_CLOCKS, MAX_REGIONS};
use region::Region;
use table::entries;

// The limit of a clock of the table, where a plan has n clocks: 0 past them.
fn limit(x: u8, n: u8, ceiling: u8) -> u8
    ensures { result ≡ cond (leb x n) ceiling 0 }
{
    if x <= n { ceiling } else { 0 }
}

// Whether an entry has a rank of the last clock, where a plan has fewer. Most entries that are looked at in vain do, and this is seen without unpacking.
fn is_ranked_past(n: u8, p: u32) -> bool
    ensures { result ≡ (ltb n max_clocks && ltb 0 (p % 10)) }
{
    (usize::from(n) < MAX_CLOCKS) & (0 < p % 10)
}

// Whether an entry of the table is a region of n clocks at the ceiling.
fn selected(n: u8, ceiling: u8, p: u32) -> bool
    requires { p < packed_bound }
    ensures { result ≡ chosen n ceiling p }
{
    if is_ranked_past(n, p) {
        return false;
    }
    Region::unpack(p).fits(ceiling, limit(2, n, ceiling), limit(3, n, ceiling))
}

// How far the entries after p can be passed over: a whole part above its limit stays so until a clock before it moves on.
fn gap(n: u8, ceiling: u8, p: u32) -> u32
    requires { p < packed_bound }
    ensures { Gap n ceiling p result }
{
    if is_ranked_past(n, p) {
        return p + 1;
    }
    let g = Region::unpack(p);
    if ceiling < g.w1 {
        return region::PACKED_BOUND;
    }
    if limit(2, n, ceiling) < g.w2 {
        return (p / 100000 + 1) * 100000;
    }
    if limit(3, n, ceiling) < g.w3 {
        return (p / 10000 + 1) * 10000;
    }
    p + 1
}

// The first index of an ascending slice whose number is at least p, or the length.
fn place(regions: &[u32], p: u32) -> usize
    requires { Increasing regions.now }
    ensures { Place regions.now p result }
{
    regions.partition_point(|&x| x < p)
}

// The entry to try after entry i, which is not selected.
fn next(n: u8, ceiling: u8, all: &[u32], i: usize) -> usize
    requires { Increasing all.now × (i < length all.now) × (get_or all.now i 0 < packed_bound) }
    ensures { Skips n ceiling all.now i result }
{
    let p = all[i];
    let q = gap(n, ceiling, p);
    if q == p + 1 {
        return i + 1;
    }
    place(all, q)
}

// Whether the whole table is asked for.
fn is_whole(n: u8, ceiling: u8) -> bool
    ensures { result ≡ eqb n max_clocks && eqb ceiling max_ceiling }
{
    (usize::from(n) == MAX_CLOCKS) & (usize::from(ceiling) == MAX_CEILING)
}

// The regions of n clocks at the ceiling, packed and in order, at the front of out; how many.
pub fn select(n: u8, ceiling: u8, out: &mut [u32]) -> usize
    requires { Clocks n × Ceiling ceiling × (max_regions ≤ length out.old) }
    ensures value { result ≡ length (regions n ceiling) }
    ensures out_after { out.new ≡ packed_regions n ceiling ++ drop result out.old }
    ensures upper_bound { result ≤ max_regions }
{
    let all = entries();
    if is_whole(n, ceiling) {
        out[..MAX_REGIONS].copy_from_slice(all);
        return MAX_REGIONS;
    }
    // A while: behind an entry that is not selected i passes over all that cannot be.
    let mut i = 0;
    let mut k = 0;
    while i < MAX_REGIONS {
        let p = all[i];
        if selected(n, ceiling, p) {
            out[k] = p;
            i += 1;
            k += 1;
        } else {
            i = next(n, ceiling, all, i);
        }
    }
    k
}

// The index of p in an ascending slice.
pub fn find(regions: &[u32], p: u32) -> Option<usize>
    requires { Increasing regions.now }
    ensures { result ≡ found_in regions.now p }
{
    regions.binary_search(&p).ok()
}

// How many regions n clocks have at the ceiling (01, "Count").
pub fn count(n: u8, ceiling: u8) -> u16
    requires { Clocks n × Ceiling ceiling }
    ensures { result ≡ length (regions n ceiling) }
{
    let m = u16::from(ceiling);
    let k = m + 1;
    match n {
        1 => 2 * m + 1,
        2 => 6 * (m * m) + 4 * m + 1,
        _ => k * k * k + 3 * m * (k * k) + 9 * (m * m) * k + 13 * (m * m * m),
    }
}

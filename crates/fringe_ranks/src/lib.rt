// How many jumps a walk through the fringe of a sheet takes at most. Every step from a fringe state lowers the height, so from height 0 up the ranks of
// a state's successors are there before its own: each state and each step is looked at once.
#![tactic(auto)]

ghost use Rattle.std.specs.Prelude.{◌≡◌, cond, ◌+◌, ◌≤◌, ◌<◌, max, eqb, length, unwrap_or};
ghost use Rattle.theory.specs.Sheet.{in_of, height_of};
ghost use Rattle.theory.specs.Adjacency.{Rows, Chains};
ghost use Rattle.graph.specs.Plan.{labelled_of_model};
ghost use Rattle.graph.specs.States.{states};
ghost use Rattle.robust.specs.Fringe.{fringe_entries};
ghost use Rattle.fringe_ranks.specs.Ranks.{RanksAsked, RanksRoom, HeightsRoom, RankedBelow, RankedUpto, StateRanked, heights_in, rank_in};

use graph::Space;
use limits::Word;

// For every height a chain through the states that have it, the last one first: heads and links have one more than a state, or 0 at the end.
fn link_heights(sheet: &[Word], heads: &mut [Word], links: &mut [Word])
    requires { HeightsRoom sheet.now heads.old links.old }
    ensures { Chains (heights_in sheet.now) heads.new links.new }
{
    heads.fill(0);
    for (p, &number) in sheet.iter().enumerate() {
        let h = usize::from(number / 2);
        links[p] = heads[h];
        heads[h] = (p + 1) as Word;
    }
}

// The greater of `most` and the rank that a step to a state with a flag gives: that state's by time, one more by a jump.
fn raised(most: usize, flag: u8, rank: Word, timed: bool) -> usize
    ensures { result ≡ max most (cond (eqb flag 0) 0 (cond timed rank (rank + 1))) }
{
    if flag == 0 {
        return most;
    }
    let rank = usize::from(rank);
    most.max(if timed { rank } else { rank + 1 })
}

// The rank of a state by its steps, `later` being the one by time, if there is one. No jump leads there.
fn most_jumps(
    first: &[u32],
    targets: &[Word],
    flags: &[u8],
    ranks: &[Word],
    p: usize,
    later: Option<usize>,
) -> usize
    requires { Rows first.now targets.now (length flags.now) × (length ranks.now ≡ length flags.now) × (p < length flags.now) }
    ensures { result ≡ rank_in first.now targets.now flags.now ranks.now (unwrap_or later (length flags.now)) p }
{
    let row = &targets[first[p] as usize..first[p + 1] as usize];
    let mut most = 0;
    for &q in row {
        let q = usize::from(q);
        most = raised(most, flags[q], ranks[q], later == Some(q));
    }
    most
}

// The rank of a state, if it is of the fringe; the greater of c and one more than it.
fn rank_state(
    space: &Space,
    first: &[u32],
    targets: &[Word],
    flags: &[u8],
    sheet: &[Word],
    ranks: &mut [Word],
    p: usize,
    c: usize,
) -> usize
    requires { let m = space.now.plan.now.model in RanksAsked m space.now.table.now first.now targets.now sheet.now flags.now × (p < states m)
        × (length ranks.old ≡ states m) × RankedBelow m sheet.now (height_of sheet.now p) ranks.old }
    ensures { StateRanked space.now.plan.now.model sheet.now ranks.old ranks.new p c result }
{
    if flags[p] == 0 {
        return c;
    }
    let later = space.time_step(p);
    let rank = most_jumps(first, targets, flags, ranks, p, later);
    ranks[p] = rank as Word;
    c.max(rank + 1)
}

// The ranks of the fringe states of height h; the greater of c and one more than the greatest of them.
fn rank_chain(
    space: &Space,
    first: &[u32],
    targets: &[Word],
    flags: &[u8],
    sheet: &[Word],
    heads: &[Word],
    links: &[Word],
    ranks: &mut [Word],
    h: usize,
    c: usize,
) -> usize
    requires { let m = space.now.plan.now.model in RanksAsked m space.now.table.now first.now targets.now sheet.now flags.now
        × Chains (heights_in sheet.now) heads.now links.now × (h < length heads.now) × RankedUpto m sheet.now h ranks.old c }
    ensures { RankedUpto space.now.plan.now.model sheet.now (h + 1) ranks.new result }
{
    let mut entries = c;
    let mut link = usize::from(heads[h]);
    // A while: each state of the chain tells of the next one.
    while 0 < link {
        let p = link - 1;
        link = usize::from(links[p]);
        entries = rank_state(space, first, targets, flags, sheet, ranks, p, entries);
    }
    entries
}

// One more than the most jumps of a walk of time and jump steps through the fringe; 0 where there is none.
pub fn fringe_entries(
    space: &Space,
    first: &[u32],
    targets: &[Word],
    flags: &[u8],
    sheet: &[Word],
    heads: &mut [Word],
    links: &mut [Word],
    ranks: &mut [Word],
) -> usize
    requires { let m = space.now.plan.now.model in RanksAsked m space.now.table.now first.now targets.now sheet.now flags.now
        × RanksRoom m heads.old links.old ranks.old }
    ensures value { result ≡ fringe_entries (labelled_of_model space.now.plan.now.model) (in_of sheet.now) }
    ensures upper_bound { result ≤ states space.now.plan.now.model }
{
    link_heights(sheet, heads, links);
    let mut entries = 0;
    for h in 0..heads.len() {
        entries = rank_chain(
            space, first, targets, flags, sheet, heads, links, ranks, h, entries,
        );
    }
    entries
}

// What drift does to a plan in the end, from its tables: how slight a drift is harmless for ever, or how soon it does harm.
#![tactic(auto)]

ghost use Rattle.std.specs.Prelude.{◌≡◌, true, false, ◌*◌, ◌≤◌, length};
ghost use Rattle.limits.specs.Limits.{max_states};
ghost use Rattle.theory.specs.Marked.{unsafe};
ghost use Rattle.robust.specs.Fringe.{span};
ghost use Rattle.graph.specs.Plan.{system_of_model};
ghost use Rattle.graph.specs.States.{states};
ghost use Rattle.successors.specs.Flags.{AllowedFlags};
ghost use Rattle.region_corners.specs.Shapes.{Linked};
ghost use Rattle.tables.specs.Tables.{Steps};
ghost use Rattle.call.specs.Scratch.{Scratch};
ghost use Rattle.survey.specs.Surveyed.{Surveyed};
ghost use Rattle.evidence_writer.specs.Searched.{Searched};
ghost use Rattle.outlook.specs.Outlook.{our_margin, outlook_for};

use graph::Space;
use limits::Word;
use model::Plan;
use tables::Task;

// The margin of our sheet if the plan is safe, or else the base and the rate of our trail; 0 for what is not asked for.
#[derive(Clone, Copy, Debug, PartialEq, Eq)]
pub enum Outlook {
    Safe(usize),
    Unsafe(u64, u64),
}

// Two windows of c jumps, or one jump.
fn span_of(c: usize) -> usize
    requires { c ≤ max_states }
    ensures { (result ≡ span c) × (result ≤ 2 * max_states) }
{
    if c == 0 { 1 } else { 2 * c }
}

// The margin of a safe plan. The slices of the search are used again: the third for our sheet, the others for its fringe.
fn margin_of(
    space: &Space,
    allowed: &mut [u8],
    first: &[u32],
    targets: &[Word],
    shapes: &[Word],
    heights: &mut [Word],
    distance: &mut [Word],
    sheet: &mut [Word],
    ranks: &mut [Word],
) -> usize
    requires lawful { let m = space.now.plan.now.model in Steps m allowed.old first.now targets.now × Linked m.clocks m.ceiling shapes.now }
    requires surveyed { let m = space.now.plan.now.model in Surveyed true m heights.old distance.old × (length sheet.old ≡ states m) × (length ranks.old ≡ states m) }
    requires m_value { let m = space.now.plan.now.model in unsafe (system_of_model m) ≡ false }
    ensures { let m = space.now.plan.now.model in result ≡ our_margin m }
{
    let m = &space.plan.model;
    sheet_writer::fill_sheet(*m, true, heights, distance, sheet);
    fringe::fill_fringe(*m, shapes, sheet, allowed);
    let entries = fringe_ranks::fringe_entries(
        space, first, targets, allowed, sheet, heights, distance, ranks,
    );
    span_of(entries) + usize::from(m.clocks)
}

// With all that is known of the states: by the trail where a marked state is forbidden, or else by the sheet.
fn outlook_found(
    space: &Space,
    harm: bool,
    allowed: &mut [u8],
    first: &[u32],
    targets: &[Word],
    shapes: &[Word],
    heights: &mut [Word],
    distance: &mut [Word],
    queue: &mut [Word],
    path: &mut [Word],
) -> Outlook
    requires { let m = space.now.plan.now.model in Searched true m space.now.table.now first.now targets.now shapes.now heights.old distance.old queue.old path.old
        × AllowedFlags m allowed.old }
    ensures { let m = space.now.plan.now.model in result ≡ outlook_for harm m }
{
    let m = &space.plan.model;
    let r = usize::from(region_table::count(m.clocks, m.ceiling));
    if let Some(steps) = marking::fewest(distance, &m.kind, r) {
        if !harm {
            return Outlook::Unsafe(0, 0);
        }
        let start = usize::from(m.start) * r;
        trail_states::trail_states(
            true, steps, start, r, first, targets, shapes, heights, &m.kind, distance, queue, path,
        );
        let delay = trail_delay::trail_delay(
            space,
            first,
            targets,
            &path[..steps],
            heights,
            distance,
            queue,
        );
        return Outlook::Unsafe(delay.base, delay.rate);
    }
    if harm {
        return Outlook::Safe(0);
    }
    Outlook::Safe(margin_of(
        space, allowed, first, targets, shapes, heights, distance, queue, path,
    ))
}

// Looking as a task for the tables of a model, with the slices that it is lent.
#[derive(Drop)]
struct Looking<'a> {
    harm: bool,
    heights: &'a mut [Word],
    distance: &'a mut [Word],
    queue: &'a mut [Word],
    path: &'a mut [Word],
}

impl<'a> Task for Looking<'a> {
    ghost use Rattle.outlook.specs.Task.{Asks, Gives};

    type Answer = Outlook;

    ghost asks = { Asks };

    ghost gives = { Gives };

    fn run(
        &mut self,
        space: &Space,
        allowed: &mut [u8],
        first: &mut [u32],
        targets: &mut [Word],
        shapes: &mut [Word],
    ) -> Outlook {
        tables::fill_search_tables(space, true, allowed, first, targets, shapes);
        survey::search(
            space.plan,
            true,
            first,
            targets,
            shapes,
            self.heights,
            self.distance,
            self.queue,
            self.path,
        );
        outlook_found(
            space,
            self.harm,
            allowed,
            first,
            targets,
            shapes,
            self.heights,
            self.distance,
            self.queue,
            self.path,
        )
    }
}

// What drift does to a model in the end: harm, if that is asked for, or else the margin. What the four slices held before does not matter; they are
// left with numbers of the search.
pub fn find(
    plan: &Plan,
    harm: bool,
    s1: &mut [Word],
    s2: &mut [Word],
    s3: &mut [Word],
    s4: &mut [Word],
) -> Outlook
    requires { let m = plan.now.model in Scratch (states m) s1.old s2.old s3.old s4.old }
    ensures { let m = plan.now.model in result ≡ outlook_for harm m }
{
    let mut task = Looking {
        harm,
        heights: s1,
        distance: s2,
        queue: s3,
        path: s4,
    };
    tables::run(&mut task, plan)
}

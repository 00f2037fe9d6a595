// Our evidence for a model into a lent output: measured first, and written only where it fits.
#![tactic(auto)]

ghost use Rattle.std.specs.Prelude.{◌≡◌, Bool, true, false, ◌≤◌, ◌<◌, length};
ghost use Rattle.theory.specs.Region.{regions};
ghost use Rattle.theory.specs.Marked.{unsafe};
ghost use Rattle.theory.specs.Trail.{trail_steps, trail_states};
ghost use Rattle.theory.specs.WithoutTouch.{with_touch};
ghost use Rattle.graph.specs.Plan.{system_of_model};
ghost use Rattle.graph.specs.States.{states};
ghost use Rattle.successors.specs.Flow.{FlowLists};
ghost use Rattle.call.specs.Scratch.{Scratch};
ghost use Rattle.survey.specs.Surveyed.{Surveyed};
ghost use Rattle.spelling.specs.Lays.{filled};
ghost use Rattle.sheet_writer.specs.Data.{SheetData};
ghost use Rattle.trail_writer.specs.Lent.{WalkRoom};
ghost use Rattle.evidence_writer.specs.Searched.{Searched};
ghost use Rattle.evidence_writer.specs.Written.{numbered, evidence_by, verdict_with, written_by};

use graph::Space;
use limits::Word;
use limits::refusal::Refusal;
use model::Plan;
use tables::Task;
use trail_writer::put_trail;

// The verdict with the number of bytes written.
#[derive(Clone, Copy, Debug, PartialEq, Eq)]
pub enum Written {
    Safe(usize),
    Unsafe(usize),
}

// The bytes of our trail: how many; written if the output has room for them. No code reads `touch` here: contracts name it.
fn write_trail(
    space: &Space,
    touch: bool,
    first: &[u32],
    targets: &[Word],
    path: &[Word],
    level: &mut [Word],
    queue: &mut [Word],
    walk: &mut [Word],
    out: &mut [u8],
) -> usize
    requires { let m = space.now.plan.now.model in WalkRoom m space.now.table.now first.now targets.now (length level.old) (length queue.old) (length walk.old)
        × (unsafe (with_touch touch (system_of_model m)) ≡ true) × (path.now ≡ trail_states (with_touch touch (system_of_model m))) }
    ensures { let m = space.now.plan.now.model in (result ≡ length (evidence_by touch m)) × (out.new ≡ filled (evidence_by touch m) out.old) }
{
    let need = put_trail(
        space,
        first,
        targets,
        path,
        level,
        queue,
        walk,
        &mut out[..0],
    );
    if need <= out.len() {
        put_trail(space, first, targets, path, level, queue, walk, out);
    }
    need
}

// The same for our sheet.
fn write_sheet(plan: &Plan, touch: bool, heights: &[Word], marks: &[Word], out: &mut [u8]) -> usize
    requires { let m = plan.now.model in SheetData (with_touch touch (system_of_model m)) heights.now marks.now × (unsafe (with_touch touch (system_of_model m)) ≡ false) }
    ensures { let m = plan.now.model in (result ≡ length (evidence_by touch m)) × (out.new ≡ filled (evidence_by touch m) out.old) }
{
    let need = sheet_writer::put_sheet(plan.model, touch, heights, marks, &mut out[..0]);
    if need <= out.len() {
        sheet_writer::put_sheet(plan.model, touch, heights, marks, out);
    }
    need
}

// The answer for an output of so many bytes.
#[tactic(auto, unfolding(crate::specs::Written::verdict_with))]
fn verdict_with(bad: bool, need: usize, room: usize) -> Result<Written, Refusal>
    ensures { numbered result ≡ verdict_with bad need room }
{
    if room < need {
        return Err(Refusal::OutputShort);
    }
    Ok(if bad {
        Written::Unsafe(need)
    } else {
        Written::Safe(need)
    })
}

// Our trail, of `steps` steps, where a marked state is forbidden: its states, then its bytes.
fn write_trail_for(
    space: &Space,
    touch: bool,
    steps: usize,
    r: usize,
    first: &[u32],
    targets: &[Word],
    shapes: &[Word],
    heights: &mut [Word],
    distance: &mut [Word],
    queue: &mut [Word],
    path: &mut [Word],
    out: &mut [u8],
) -> usize
    requires searched { let m = space.now.plan.now.model in Searched touch m space.now.table.now first.now targets.now shapes.now heights.old distance.old queue.old path.old }
    requires r_value { let m = space.now.plan.now.model in (r ≡ length (regions m.clocks m.ceiling)) × (steps ≡ trail_steps (with_touch touch (system_of_model m)))
        × (steps < length distance.old) }
    ensures { let m = space.now.plan.now.model in (result ≡ length (evidence_by touch m)) × (out.new ≡ filled (evidence_by touch m) out.old) }
{
    let m = &space.plan.model;
    let start = usize::from(m.start) * r;
    trail_states::trail_states(
        touch, steps, start, r, first, targets, shapes, heights, &m.kind, distance, queue, path,
    );
    write_trail(
        space,
        touch,
        first,
        targets,
        &path[..steps],
        heights,
        distance,
        queue,
        out,
    )
}

// Our sheet where none is. Without touch steps the search did not ask for heights: they are added now, and the marks wait in `allowed`, which nothing
// reads any more.
fn write_sheet_for(
    plan: &Plan,
    touch: bool,
    allowed: &mut [u8],
    first: &[u32],
    targets: &[Word],
    heights: &mut [Word],
    distance: &mut [Word],
    queue: &mut [Word],
    path: &mut [Word],
    out: &mut [u8],
) -> usize
    requires lawful { let m = plan.now.model in FlowLists m first.now targets.now × (length allowed.old ≡ states m) }
    requires surveyed { let m = plan.now.model in Surveyed touch m heights.old distance.old × Scratch (states m) heights.old distance.old queue.old path.old }
    requires m_value { let m = plan.now.model in unsafe (with_touch touch (system_of_model m)) ≡ false }
    ensures { let m = plan.now.model in (result ≡ length (evidence_by touch m)) × (out.new ≡ filled (evidence_by touch m) out.old) }
{
    if touch {
        return write_sheet(plan, touch, heights, distance, out);
    }
    survey::add_heights(
        plan, first, targets, allowed, heights, distance, queue, path,
    );
    write_sheet(plan, touch, heights, distance, out)
}

// With all that is known of the states: the trail where a marked state is forbidden, or else the sheet.
fn write_found(
    space: &Space,
    touch: bool,
    allowed: &mut [u8],
    first: &[u32],
    targets: &[Word],
    shapes: &[Word],
    heights: &mut [Word],
    distance: &mut [Word],
    queue: &mut [Word],
    path: &mut [Word],
    out: &mut [u8],
) -> Result<Written, Refusal>
    requires { let m = space.now.plan.now.model in Searched touch m space.now.table.now first.now targets.now shapes.now heights.old distance.old queue.old path.old
        × (length allowed.old ≡ states m) }
    ensures { let m = space.now.plan.now.model in (numbered result ≡ written_by touch m (length out.old)) × (out.new ≡ filled (evidence_by touch m) out.old) }
{
    let m = &space.plan.model;
    let r = usize::from(region_table::count(m.clocks, m.ceiling));
    let room = out.len();
    if let Some(steps) = marking::fewest(distance, &m.kind, r) {
        let need = write_trail_for(
            space, touch, steps, r, first, targets, shapes, heights, distance, queue, path, out,
        );
        return verdict_with(true, need, room);
    }
    let need = write_sheet_for(
        space.plan, touch, allowed, first, targets, heights, distance, queue, path, out,
    );
    verdict_with(false, need, room)
}

// Writing evidence as a task for the tables of a model, with the slices that it is lent.
#[derive(Drop)]
struct Writing<'a> {
    touch: bool,
    heights: &'a mut [Word],
    distance: &'a mut [Word],
    queue: &'a mut [Word],
    path: &'a mut [Word],
    out: &'a mut [u8],
}

impl<'a> Task for Writing<'a> {
    ghost use Rattle.limits.specs.declared.refusal.Refusal.{Refusal};
    ghost use Rattle.evidence_writer.specs.Task.{Asks, Gives};

    type Answer = Result<Written, Refusal>;

    ghost asks = { Asks };

    ghost gives = { Gives };

    fn run(
        &mut self,
        space: &Space,
        allowed: &mut [u8],
        first: &mut [u32],
        targets: &mut [Word],
        shapes: &mut [Word],
    ) -> Result<Written, Refusal> {
        let touch = self.touch;
        tables::fill_search_tables(space, touch, allowed, first, targets, shapes);
        survey::search(
            space.plan,
            touch,
            first,
            targets,
            shapes,
            self.heights,
            self.distance,
            self.queue,
            self.path,
        );
        write_found(
            space,
            touch,
            allowed,
            first,
            targets,
            shapes,
            self.heights,
            self.distance,
            self.queue,
            self.path,
            self.out,
        )
    }
}

// Our evidence for a model, with touch steps or without, at the front of the output, if that has room for it: the verdict and the number of bytes, or
// 9. What the four slices held before does not matter; they are left with numbers of the search.
pub fn write(
    plan: &Plan,
    touch: bool,
    s1: &mut [Word],
    s2: &mut [Word],
    s3: &mut [Word],
    s4: &mut [Word],
    out: &mut [u8],
) -> Result<Written, Refusal>
    requires { let m = plan.now.model in Scratch (states m) s1.old s2.old s3.old s4.old }
    ensures { let m = plan.now.model in (numbered result ≡ written_by touch m (length out.old)) × (out.new ≡ filled (evidence_by touch m) out.old) }
{
    let mut task = Writing {
        touch,
        heights: s1,
        distance: s2,
        queue: s3,
        path: s4,
        out,
    };
    tables::run(&mut task, plan)
}

// What the operations need to know of the states of a model: closed walks and heights, and the distances from the start, found in the model's tables.
// Where `touch` is false there are no touch steps: closed walks are not looked for, and all heights are left at zero.
#![tactic(auto)]

mod marks;

ghost use Rattle.std.specs.Prelude.{◌≡◌, length};
ghost use Rattle.theory.specs.Rounds.{rounds};
ghost use Rattle.theory.specs.WithoutTouch.{with_touch};
ghost use Rattle.graph.specs.Plan.{system_of_model};
ghost use Rattle.graph.specs.States.{states};
ghost use Rattle.successors.specs.Flow.{FlowLists};
ghost use Rattle.region_corners.specs.Shapes.{SearchShapes};
ghost use Rattle.call.specs.Scratch.{Scratch};
ghost use Rattle.survey.specs.Surveyed.{HeightsFor, Levelled, HeightsAdded};

use graph::Space;
use limits::{MAX_LOCATIONS, POINTS, Word};
use marks::{keep_marks, restore_marks};
use model::Plan;
use tables::Task;

// Closed walks and heights of all states into `heights`, or zeros where no touch steps are searched: only those ask for closed walks. What the four
// slices held before does not matter; the other three are left with numbers of the pass.
fn find_heights(
    plan: &Plan,
    touch: bool,
    first: &[u32],
    targets: &[Word],
    heights: &mut [Word],
    distance: &mut [Word],
    queue: &mut [Word],
    spare: &mut [Word],
)
    requires lawful { FlowLists plan.now.model first.now targets.now }
    requires scratch { Scratch (states plan.now.model) heights.old distance.old queue.old spare.old }
    ensures { HeightsFor touch plan.now.model heights.new }
{
    if touch {
        let s = heights.len();
        component::components(first, targets, heights, distance, queue, spare, s);
        return;
    }
    heights.fill(0);
}

// Closed walks and heights into `heights`, distances into `distance`, the marked states level by level into `queue`; the number of rounds. `spare` is
// left with numbers of the search.
pub fn search(
    plan: &Plan,
    touch: bool,
    first: &[u32],
    targets: &[Word],
    shapes: &[Word],
    heights: &mut [Word],
    distance: &mut [Word],
    queue: &mut [Word],
    spare: &mut [Word],
) -> Word
    requires lawful { let m = plan.now.model in FlowLists m first.now targets.now × SearchShapes touch m.clocks m.ceiling shapes.now }
    requires scratch { Scratch (states plan.now.model) heights.old distance.old queue.old spare.old }
    ensures { let m = plan.now.model in Levelled touch m heights.new distance.new queue.new × (result ≡ rounds (with_touch touch (system_of_model m))) }
{
    find_heights(plan, touch, first, targets, heights, distance, queue, spare);
    let mut visited = [0u8; MAX_LOCATIONS * POINTS];
    let m = &plan.model;
    let flags = usize::from(m.locations) * POINTS;
    let r = usize::from(region_table::count(m.clocks, m.ceiling));
    let start = usize::from(m.start) * r;
    marking::distances(
        touch,
        start,
        r,
        first,
        targets,
        shapes,
        heights,
        distance,
        queue,
        &mut visited[..flags],
    )
}

// The search as a task for the tables of a model, with the slices that it is lent.
#[derive(Drop)]
struct Surveying<'a> {
    touch: bool,
    heights: &'a mut [Word],
    distance: &'a mut [Word],
    queue: &'a mut [Word],
    spare: &'a mut [Word],
}

impl<'a> Task for Surveying<'a> {
    ghost use Rattle.survey.specs.Task.{Asks, Gives};

    type Answer = Word;

    ghost asks = { Asks };

    ghost gives = { Gives };

    fn run(
        &mut self,
        space: &Space,
        allowed: &mut [u8],
        first: &mut [u32],
        targets: &mut [Word],
        shapes: &mut [Word],
    ) -> Word {
        let touch = self.touch;
        tables::fill_search_tables(space, touch, allowed, first, targets, shapes);
        search(
            space.plan,
            touch,
            first,
            targets,
            shapes,
            self.heights,
            self.distance,
            self.queue,
            self.spare,
        )
    }
}

// Closed walks and heights of all states of a model into `heights`, distances from the start into `distance`, the marked states level by level into
// `queue`; the number of rounds. What the four slices held before does not matter; `spare` is left with numbers of the search.
pub fn survey(
    plan: &Plan,
    touch: bool,
    heights: &mut [Word],
    distance: &mut [Word],
    queue: &mut [Word],
    spare: &mut [Word],
) -> Word
    requires { Scratch (states plan.now.model) heights.old distance.old queue.old spare.old }
    ensures { let m = plan.now.model in Levelled touch m heights.new distance.new queue.new × (result ≡ rounds (with_touch touch (system_of_model m))) }
{
    let mut task = Surveying {
        touch,
        heights,
        distance,
        queue,
        spare,
    };
    tables::run(&mut task, plan)
}

// Closed walks and heights after a search without touch steps, for a sheet. The pass takes all four slices, so the marks wait in `flags`; afterwards
// `distance` has 1 for each state that had a distance, and 0 for every other.
pub fn add_heights(
    plan: &Plan,
    first: &[u32],
    targets: &[Word],
    flags: &mut [u8],
    heights: &mut [Word],
    distance: &mut [Word],
    queue: &mut [Word],
    spare: &mut [Word],
)
    requires lawful { FlowLists plan.now.model first.now targets.now × (length flags.old ≡ states plan.now.model) }
    requires scratch { Scratch (states plan.now.model) heights.old distance.old queue.old spare.old }
    ensures { HeightsAdded plan.now.model distance.old heights.new distance.new }
{
    keep_marks(distance, flags);
    find_heights(plan, true, first, targets, heights, distance, queue, spare);
    restore_marks(flags, distance);
}

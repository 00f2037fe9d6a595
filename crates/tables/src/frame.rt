// Arrays for the tables of a model, on the stack in one of two sizes, and what is run with them.

ghost use Rattle.std.specs.Prelude.{length};
ghost use Rattle.tables.specs.Tables.{Fits};

use graph::Space;
use limits::{MAX_REGIONS, MAX_STATES, MAX_STEPS, SMALL_REGIONS, SMALL_STATES, SMALL_STEPS, Word};
use model::Plan;
use shapes::{MAX_SHAPES, SMALL_SHAPES};

// Where the steps of each state begin, and where the last end.
const MAX_FIRSTS: usize = MAX_STATES + 1;

const SMALL_FIRSTS: usize = SMALL_STATES + 1;

// What is run with the tables of a model, lent to be filled.
pub trait Task {
    ghost use Rattle.model.specs.declared.Plan.{Plan};
    ghost use Rattle.tables.specs.Tables.{Room};

    type Answer: Drop;

    ghost asks: { Self → Plan → Type 0 };

    ghost gives: { Self → Plan → Self → Self.Answer → Type 0 };

    fn run(
        &mut self,
        space: &Space,
        allowed: &mut [u8],
        first: &mut [u32],
        targets: &mut [Word],
        shapes: &mut [Word],
    ) -> Self::Answer
        requires room { Room space.now.plan.now.model allowed.old first.old targets.old shapes.old }
        requires asked { asks self.old space.now.plan.now }
        ensures { gives self.old space.now.plan.now self.new result };
}

// With arrays of these sizes.
fn run_in<
    T: Task,
    const STATES: usize,
    const FIRSTS: usize,
    const STEPS: usize,
    const SHAPES: usize,
>(task: &mut T, space: &Space) -> T::Answer
    requires asked { T.asks task.old space.now.plan.now }
    requires fits { Fits (length space.now.table.now) STATES FIRSTS STEPS SHAPES }
    ensures { T.gives task.old space.now.plan.now task.new result }
{
    let mut allowed = [0u8; STATES];
    let mut first = [0u32; FIRSTS];
    let mut targets = [0 as Word; STEPS];
    let mut shapes = [0 as Word; SHAPES];
    let s = graph::state_count(space.plan);
    let allowed = &mut allowed[..s];
    let first = &mut first[..s + 1];
    let shapes = &mut shapes[..shapes::shapes_end(space.table.len())];
    task.run(space, allowed, first, &mut targets, shapes)
}

// Runs a task with tables of its own: for a small plan the smaller ones, which are sooner made. It is never put into its caller, whose frame would hold
// the tables then, also where it refuses before it gets here.
#[inline(never)]
pub fn run<T: Task>(task: &mut T, plan: &Plan) -> T::Answer
    requires { T.asks task.old plan.now }
    ensures { T.gives task.old plan.now task.new result }
{
    let mut regions = [0u32; MAX_REGIONS];
    let r = region_table::select(plan.model.clocks, plan.model.ceiling, &mut regions);
    let space = Space {
        plan,
        table: &regions[..r],
    };
    if r <= SMALL_REGIONS {
        return run_in::<T, SMALL_STATES, SMALL_FIRSTS, SMALL_STEPS, SMALL_SHAPES>(task, &space);
    }
    run_in::<T, MAX_STATES, MAX_FIRSTS, MAX_STEPS, MAX_SHAPES>(task, &space)
}

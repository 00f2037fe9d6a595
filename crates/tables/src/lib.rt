#![tactic(auto)]

// The tables of a model: by region its faces and corners, by state which are allowed and where time and jumps lead. They are filled here, and nowhere
// else.

mod frame;

ghost use Rattle.std.specs.Prelude.{◌≡◌, length};
ghost use Rattle.region_steps.specs.Tables.{Indexed};
ghost use Rattle.region_corners.specs.Shapes.{FaceShapes};
ghost use Rattle.successors.specs.Flow.{regions_in};
ghost use Rattle.tables.specs.Tables.{StepRoom, Steps, Room, Filled, Searchable};

pub use frame::{Task, run};
use graph::Space;
use limits::{CODES, MAX_REGIONS, Word};

// The time and jump steps of all states, and which are allowed, with tables by region lent.
fn fill_steps(
    space: &Space,
    index: &[u16],
    later: &mut [u16],
    allowed: &mut [u8],
    first: &mut [u32],
    targets: &mut [Word],
)
    requires lawful { let m = space.now.plan.now.model in Indexed m.clocks m.ceiling index.now }
    requires later_len { let m = space.now.plan.now.model in (length later.old ≡ regions_in m) × StepRoom m allowed.old first.old targets.old }
    ensures { let m = space.now.plan.now.model in Steps m allowed.new first.new targets.new }
{
    let m = &space.plan.model;
    region_steps::fill_later(m.clocks, m.ceiling, space.table, index, later);
    successors::fill_allowed(space, allowed);
    successors::fill_flow(space, later, index, allowed, first, targets);
}

// The same with tables by region of its own.
fn list_steps(
    space: &Space,
    index: &[u16],
    allowed: &mut [u8],
    first: &mut [u32],
    targets: &mut [Word],
)
    requires lawful { let m = space.now.plan.now.model in Indexed m.clocks m.ceiling index.now }
    requires step_room { let m = space.now.plan.now.model in StepRoom m allowed.old first.old targets.old }
    ensures { let m = space.now.plan.now.model in Steps m allowed.new first.new targets.new }
{
    let mut later = [0u16; MAX_REGIONS];
    let r = space.table.len();
    fill_steps(space, index, &mut later[..r], allowed, first, targets);
}

// The same, and the faces of all regions: what every search reads.
fn fill_steps_and_faces(
    space: &Space,
    allowed: &mut [u8],
    first: &mut [u32],
    targets: &mut [Word],
    shapes: &mut [Word],
)
    requires { let m = space.now.plan.now.model in Room m allowed.old first.old targets.old shapes.old }
    ensures { let m = space.now.plan.now.model in Steps m allowed.new first.new targets.new
        × FaceShapes m.clocks m.ceiling shapes.new }
{
    let mut index = [0u16; CODES];
    let m = &space.plan.model;
    region_steps::fill_index(m.clocks, m.ceiling, space.table, &mut index);
    list_steps(space, &index, allowed, first, targets);
    region_corners::fill_faces(m.clocks, m.ceiling, space.table, &index, shapes);
}

// All tables of a plan.
pub fn fill_tables(
    space: &Space,
    allowed: &mut [u8],
    first: &mut [u32],
    targets: &mut [Word],
    shapes: &mut [Word],
)
    requires { let m = space.now.plan.now.model in Room m allowed.old first.old targets.old shapes.old }
    ensures { let m = space.now.plan.now.model in Filled m allowed.new first.new targets.new shapes.new }
{
    fill_steps_and_faces(space, allowed, first, targets, shapes);
    let m = &space.plan.model;
    region_corners::add_corners(m.clocks, m.ceiling, space.table, shapes);
}

// The tables that a search reads: where touch steps are asked for all of them, with chains through the corners; otherwise nothing of corners.
pub fn fill_search_tables(
    space: &Space,
    touch: bool,
    allowed: &mut [u8],
    first: &mut [u32],
    targets: &mut [Word],
    shapes: &mut [Word],
)
    requires { let m = space.now.plan.now.model in Room m allowed.old first.old targets.old shapes.old }
    ensures { let m = space.now.plan.now.model in Searchable touch m allowed.new first.new targets.new shapes.new }
{
    if !touch {
        fill_steps_and_faces(space, allowed, first, targets, shapes);
        return;
    }
    fill_tables(space, allowed, first, targets, shapes);
    region_corners::link_corners(space.table.len(), shapes);
}

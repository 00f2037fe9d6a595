// The public operations, each a crate of its own. Each takes any bytes and any slices, and its contract says what it answers and what it leaves in all
// that it was lent.
#![tactic(auto)]

pub use limits::refusal::Refusal;
pub use op_check::{Evidence, check_evidence};
pub use op_harm::{Onset, harm};
pub use op_judge::{Judgement, judge};
pub use op_judge_joint::judge_joint;
pub use op_margin::{Tolerance, margin};
pub use op_marks::marks;
pub use op_marks_joint::marks_joint;
pub use op_plan::write_plan;
pub use op_room::{Space, room};
pub use op_sheet_margin::{Bound, sheet_margin};
pub use op_soonest::soonest;
pub use op_write::{Written, write_evidence};
pub use op_write_joint::write_joint;

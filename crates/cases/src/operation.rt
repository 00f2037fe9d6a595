// What a line asks for.
use lines::letter;

#[derive(Clone, Copy, Debug, PartialEq, Eq)]
pub enum Operation {
    Judge,
    JudgeJoint,
    Marks,
    MarksJoint,
    Write,
    WriteJoint,
    Margin,
    SheetMargin,
    Harm,
    Soonest,
    Plan,
    Room,
    Rounds,
    Check,
}

// `judge`, `marks` and `write`, or `judge_joint` and its like.
fn is_joint(line: &[u8]) -> bool {
    letter(line, 5) == b'_'
}

// By the first letter; `sheet_margin` or `soonest` by the second, `room` or `rounds` by the third, `marks` or `margin` by the fourth. A piece of
// evidence has none.
pub fn operation_of(line: &[u8]) -> Operation {
    match letter(line, 0) {
        b'j' if is_joint(line) => Operation::JudgeJoint,
        b'j' => Operation::Judge,
        b'w' if is_joint(line) => Operation::WriteJoint,
        b'w' => Operation::Write,
        b's' if letter(line, 1) == b'o' => Operation::Soonest,
        b's' => Operation::SheetMargin,
        b'h' => Operation::Harm,
        b'p' => Operation::Plan,
        b'r' if letter(line, 2) == b'o' => Operation::Room,
        b'r' => Operation::Rounds,
        b'm' if letter(line, 3) != b'k' => Operation::Margin,
        b'm' if is_joint(line) => Operation::MarksJoint,
        b'm' => Operation::Marks,
        _ => Operation::Check,
    }
}

// The operations for callers in C and other languages: each slice is a pointer and a length, and the answer is one number made of fields.
#![tactic(auto)]

ghost use Rattle.std.specs.Prelude.{◌≡◌, length};
ghost use Rattle.call.specs.Scratch.{lengths, ScratchLeft};
ghost use Rattle.op_judge.specs.Judge.{judged};
ghost use Rattle.op_marks.specs.Marks.{marked, output};
ghost use Rattle.op_check.specs.Check.{check_answer};
ghost use Rattle.op_margin.specs.Margin.{margin_answer};
ghost use Rattle.op_plan.specs.Plan.{plan_answer, plan_output};
ghost use Rattle.op_sheet_margin.specs.SheetMargin.{sheet_margin_answer};
ghost use Rattle.op_harm.specs.Harm.{harm_answer};
ghost use Rattle.op_soonest.specs.Sounding.{soonest_answer};
ghost use Rattle.op_write.specs.Write.{write_answer, write_output};
ghost use Rattle.op_judge_joint.specs.JudgeJoint.{joint_judged};
ghost use Rattle.op_marks_joint.specs.MarksJoint.{joint_marked, joint_output};
ghost use Rattle.op_write_joint.specs.WriteJoint.{joint_write_answer, joint_write_output};
ghost use Rattle.number.specs.Shortest.{read_spelled};
ghost use Rattle.op_room.specs.Room.{room_answer};
ghost use Rattle.c_words.specs.Words.{judge_word, count_word, check_word, write_word, number_word, margin_word, room_word, harm_word, harm_out};

use limits::Word;

// number + 2^8 · verdict (0 safe, 1 unsafe) + 2^16 · S + 2^40 · count
#[unsafe(no_mangle)]
pub extern "C" fn drift_judge(
    model: &[u8],
    s1: &mut [Word],
    s2: &mut [Word],
    s3: &mut [Word],
    s4: &mut [Word],
) -> u64
    ensures value { result ≡ judge_word (judged model.now (lengths s1.old s2.old s3.old s4.old)) }
    ensures scratch_left { ScratchLeft model.now s1.old s2.old s3.old s4.old
        s1.new s2.new s3.new s4.new }
{
    let answer = drift::judge(model, s1, s2, s3, s4);
    c_words::judge_word(answer)
}

// number + 2^16 · S
#[unsafe(no_mangle)]
pub extern "C" fn drift_marks(
    model: &[u8],
    s1: &mut [Word],
    s2: &mut [Word],
    s3: &mut [Word],
    s4: &mut [Word],
    out: &mut [u8],
) -> u64
    ensures value { result ≡ count_word (marked model.now (lengths s1.old s2.old s3.old s4.old)
        (length out.old)) }
    ensures out_after { out.new
        ≡ output model.now (lengths s1.old s2.old s3.old s4.old) out.old }
    ensures scratch_left { ScratchLeft model.now s1.old s2.old s3.old s4.old
        s1.new s2.new s3.new s4.new }
{
    let answer = drift::marks(model, s1, s2, s3, s4, out);
    c_words::marks_word(answer)
}

// number + 2^8 · kind (1 sheet, 2 trail)
#[unsafe(no_mangle)]
pub extern "C" fn drift_check_evidence(
    model: &[u8],
    evidence: &[u8],
    s1: &mut [Word],
    s2: &mut [Word],
    s3: &mut [Word],
    s4: &mut [Word],
) -> u64
    ensures value { result ≡ check_word (check_answer model.now evidence.now
        (lengths s1.old s2.old s3.old s4.old)) }
    ensures scratch_left { ScratchLeft model.now s1.old s2.old s3.old s4.old
        s1.new s2.new s3.new s4.new }
{
    let answer = drift::check_evidence(model, evidence, s1, s2, s3, s4);
    c_words::check_word(answer)
}

// number + 2^8 · verdict (0 safe, 1 unsafe) + 2^16 · bytes
#[unsafe(no_mangle)]
pub extern "C" fn drift_write_evidence(
    model: &[u8],
    s1: &mut [Word],
    s2: &mut [Word],
    s3: &mut [Word],
    s4: &mut [Word],
    out: &mut [u8],
) -> u64
    ensures value { result ≡ write_word (write_answer model.now (lengths s1.old s2.old s3.old s4.old)
        (length out.old)) }
    ensures out_after { out.new
        ≡ write_output model.now (lengths s1.old s2.old s3.old s4.old) out.old }
    ensures scratch_left { ScratchLeft model.now s1.old s2.old s3.old s4.old
        s1.new s2.new s3.new s4.new }
{
    let answer = drift::write_evidence(model, s1, s2, s3, s4, out);
    c_words::write_word(answer)
}

// number + 2^8 · verdict (0 safe, 1 unsafe) + 2^16 · S + 2^40 · count
#[unsafe(no_mangle)]
pub extern "C" fn drift_judge_joint(
    model: &[u8],
    s1: &mut [Word],
    s2: &mut [Word],
    s3: &mut [Word],
    s4: &mut [Word],
) -> u64
    ensures value { result ≡ judge_word (joint_judged model.now (lengths s1.old s2.old s3.old s4.old)) }
    ensures scratch_left { ScratchLeft model.now s1.old s2.old s3.old s4.old
        s1.new s2.new s3.new s4.new }
{
    let answer = drift::judge_joint(model, s1, s2, s3, s4);
    c_words::judge_word(answer)
}

// number + 2^16 · S
#[unsafe(no_mangle)]
pub extern "C" fn drift_marks_joint(
    model: &[u8],
    s1: &mut [Word],
    s2: &mut [Word],
    s3: &mut [Word],
    s4: &mut [Word],
    out: &mut [u8],
) -> u64
    ensures value { result ≡ count_word (joint_marked model.now (lengths s1.old s2.old s3.old s4.old)
        (length out.old)) }
    ensures out_after { out.new
        ≡ joint_output model.now (lengths s1.old s2.old s3.old s4.old) out.old }
    ensures scratch_left { ScratchLeft model.now s1.old s2.old s3.old s4.old
        s1.new s2.new s3.new s4.new }
{
    let answer = drift::marks_joint(model, s1, s2, s3, s4, out);
    c_words::marks_word(answer)
}

// number + 2^8 · verdict (0 safe, 1 unsafe) + 2^16 · bytes
#[unsafe(no_mangle)]
pub extern "C" fn drift_write_joint(
    model: &[u8],
    s1: &mut [Word],
    s2: &mut [Word],
    s3: &mut [Word],
    s4: &mut [Word],
    out: &mut [u8],
) -> u64
    ensures value { result ≡ write_word (joint_write_answer model.now (lengths s1.old s2.old s3.old s4.old)
        (length out.old)) }
    ensures out_after { out.new
        ≡ joint_write_output model.now (lengths s1.old s2.old s3.old s4.old) out.old }
    ensures scratch_left { ScratchLeft model.now s1.old s2.old s3.old s4.old
        s1.new s2.new s3.new s4.new }
{
    let answer = drift::write_joint(model, s1, s2, s3, s4, out);
    c_words::write_word(answer)
}

// number + 2^8 · verdict (0 safe, 1 unsafe) + 2^16 · S + 2^40 · A, which is 0 where unsafe
#[unsafe(no_mangle)]
pub extern "C" fn drift_sheet_margin(
    model: &[u8],
    s1: &mut [Word],
    s2: &mut [Word],
    s3: &mut [Word],
    s4: &mut [Word],
) -> u64
    ensures value { result
        ≡ judge_word (sheet_margin_answer model.now (lengths s1.old s2.old s3.old s4.old)) }
    ensures scratch_left { ScratchLeft model.now s1.old s2.old s3.old s4.old
        s1.new s2.new s3.new s4.new }
{
    let answer = drift::sheet_margin(model, s1, s2, s3, s4);
    c_words::bound_word(answer)
}

// number + 2^8 · verdict (0 safe, 1 unsafe) + 2^16 · S; where unsafe, base and rate at the front of the output
#[unsafe(no_mangle)]
pub extern "C" fn drift_harm(
    model: &[u8],
    s1: &mut [Word],
    s2: &mut [Word],
    s3: &mut [Word],
    s4: &mut [Word],
    out: &mut [u64],
) -> u64
    ensures value { result
        ≡ harm_word (harm_answer model.now (lengths s1.old s2.old s3.old s4.old))
        (length out.old) }
    ensures out_after { out.new
        ≡ harm_out (harm_answer model.now (lengths s1.old s2.old s3.old s4.old)) out.old }
    ensures scratch_left { ScratchLeft model.now s1.old s2.old s3.old s4.old
        s1.new s2.new s3.new s4.new }
{
    let answer = drift::harm(model, s1, s2, s3, s4);
    c_words::put_harm(answer, out)
}

// number + 2^16 · bytes
#[unsafe(no_mangle)]
pub extern "C" fn drift_write_plan(model: &[u8], out: &mut [u8]) -> u64
    ensures value { result ≡ count_word (plan_answer model.now (length out.old)) }
    ensures out_after { out.new ≡ plan_output model.now out.old }
{
    let answer = drift::write_plan(model, out);
    c_words::stored_word(answer)
}

// number + 2^16 · units
#[unsafe(no_mangle)]
pub extern "C" fn drift_soonest(
    model: &[u8],
    location: u64,
    s1: &mut [Word],
    s2: &mut [Word],
    s3: &mut [Word],
    s4: &mut [Word],
) -> u64
    ensures value { result
        ≡ count_word (soonest_answer model.now location (lengths s1.old s2.old s3.old s4.old)) }
    ensures scratch_left { ScratchLeft model.now s1.old s2.old s3.old s4.old
        s1.new s2.new s3.new s4.new }
{
    let answer = drift::soonest(model, location, s1, s2, s3, s4);
    c_words::time_word(answer)
}

// number + 2^8 · value + 2^31 · padded (0 shortest, 1 padded) + 2^32 · next
#[unsafe(no_mangle)]
pub extern "C" fn drift_next_number(bytes: &[u8], at: usize) -> u64
    ensures { result ≡ number_word (read_spelled bytes.now at) }
{
    let answer = number::read_spelled(bytes, at);
    c_words::number_word(answer)
}

// number + 2^16 · S + 2^40 · A
#[unsafe(no_mangle)]
pub extern "C" fn drift_margin(model: &[u8]) -> u64
    ensures { result ≡ margin_word (margin_answer model.now) }
{
    let answer = drift::margin(model);
    c_words::margin_word(answer)
}

// number + 2^16 · S + 2^40 · the most bytes of a sheet
#[unsafe(no_mangle)]
pub extern "C" fn drift_room(model: &[u8]) -> u64
    ensures { result ≡ room_word (room_answer model.now) }
{
    let answer = drift::room(model);
    c_words::room_word(answer)
}

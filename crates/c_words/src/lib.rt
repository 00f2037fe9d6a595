// Answers as one number each, made of fields, for callers in C and other languages.
#![tactic(auto)]

ghost use Rattle.std.specs.Prelude.{◌≡◌, ◌+◌, ◌*◌, ◌%◌, ◌^◌, ◌<◌, ◌≤◌, length};
ghost use Rattle.op_judge.specs.Judge.{judgement_answer};
ghost use Rattle.op_marks.specs.Marks.{marking_answer};
ghost use Rattle.op_check.specs.Check.{evidence_answer};
ghost use Rattle.op_margin.specs.Margin.{tolerance_answer};
ghost use Rattle.op_sheet_margin.specs.SheetMargin.{bound_answer};
ghost use Rattle.op_harm.specs.Harm.{onset_answer};
ghost use Rattle.op_soonest.specs.Sounding.{arrival_answer};
ghost use Rattle.op_room.specs.Room.{space_answer};
ghost use Rattle.op_write.specs.Write.{written_answer};
ghost use Rattle.evidence.specs.Evidence as evidence;
ghost use Rattle.evidence_writer.specs.Written as writer;
ghost use Rattle.call.specs.Answered.{answered};
ghost use Rattle.number.specs.Shortest.{told, number_in};
ghost use Rattle.spelling.specs.Calls.{stored_answer};
ghost use Rattle.c_words.specs.Words.{judge_word, count_word, check_word, write_word, number_word, margin_word, room_word, harm_word, harm_out, max_field, Fields, StatesFit, CountFits, only, BytesFit, StoredFit, SmallValue};

use drift::{Bound, Evidence, Judgement, Onset, Space, Tolerance, Written};
use limits::refusal::Refusal;
use number::Spelled;

// Where the fields of an answer begin; the number of a refusal stands before them.
const AT_VERDICT: u64 = 1 << 8;

const AT_STATES: u64 = 1 << 16;

const AT_COUNT: u64 = 1 << 40;

// The kinds of evidence, where the verdict is.
const SHEET: u64 = 1 << 8;

const TRAIL: u64 = 2 << 8;

// Where those of a number begin: its value, whether it is padded, and the offset after it.
const AT_VALUE: u64 = 1 << 8;

const AT_PADDED: u64 = 1 << 31;

const AT_NEXT: u64 = 1 << 32;

// The fields of a verdict.
fn verdict_word(verdict: u64, states: usize, count: usize) -> u64
    requires { (verdict ≤ 1) × (states ≤ max_field) × (count ≤ max_field) }
    ensures { result ≡ 2 ^ 8 * verdict + 2 ^ 16 * states + 2 ^ 40 * count }
{
    verdict * AT_VERDICT + states as u64 * AT_STATES + count as u64 * AT_COUNT
}

pub fn judge_word(answer: Result<Judgement, Refusal>) -> u64
    requires { Fields (judgement_answer answer) }
    ensures { result ≡ judge_word (judgement_answer answer) }
{
    match answer {
        Ok(Judgement::Safe(states, count)) => verdict_word(0, states, count),
        Ok(Judgement::Unsafe(states, count)) => verdict_word(1, states, count),
        Err(r) => r.code() as u64,
    }
}

// One count, of states, of bytes or of units of time.
fn count_word(answer: Result<usize, Refusal>) -> u64
    requires { CountFits answer }
    ensures { result ≡ count_word (answered only answer) }
{
    match answer {
        Ok(count) => count as u64 * AT_STATES,
        Err(r) => r.code() as u64,
    }
}

pub fn marks_word(answer: Result<usize, Refusal>) -> u64
    requires { Fields (marking_answer answer) }
    ensures { result ≡ count_word (marking_answer answer) }
{
    count_word(answer)
}

pub fn check_word(answer: Result<Evidence, Refusal>) -> u64
    ensures { result ≡ check_word (evidence_answer (evidence.numbered answer)) }
{
    match answer {
        Ok(Evidence::Sheet) => SHEET,
        Ok(Evidence::Trail) => TRAIL,
        Err(r) => r.code() as u64,
    }
}

pub fn write_word(answer: Result<Written, Refusal>) -> u64
    requires { BytesFit (written_answer (writer.numbered answer)) }
    ensures { result ≡ write_word (written_answer (writer.numbered answer)) }
{
    match answer {
        Ok(Written::Safe(bytes)) => bytes as u64 * AT_STATES,
        Ok(Written::Unsafe(bytes)) => AT_VERDICT + bytes as u64 * AT_STATES,
        Err(r) => r.code() as u64,
    }
}

pub fn stored_word(answer: Result<usize, Refusal>) -> u64
    requires { StoredFit (stored_answer answer) }
    ensures { result ≡ count_word (stored_answer answer) }
{
    count_word(answer)
}

pub fn time_word(answer: Result<usize, Refusal>) -> u64
    requires { Fields (arrival_answer answer) }
    ensures { result ≡ count_word (arrival_answer answer) }
{
    count_word(answer)
}

pub fn margin_word(answer: Result<Tolerance, Refusal>) -> u64
    requires { Fields (tolerance_answer answer) }
    ensures { result ≡ margin_word (tolerance_answer answer) }
{
    match answer {
        Ok(bound) => bound.states as u64 * AT_STATES + bound.margin as u64 * AT_COUNT,
        Err(r) => r.code() as u64,
    }
}

// The states and the sheet's limit; the other two values follow from the states.
pub fn room_word(answer: Result<Space, Refusal>) -> u64
    requires { Fields (space_answer answer) }
    ensures { result ≡ room_word (space_answer answer) }
{
    match answer {
        Ok(needs) => needs.states as u64 * AT_STATES + needs.sheet as u64 * AT_COUNT,
        Err(r) => r.code() as u64,
    }
}

// As the judge's, with the margin for the count.
pub fn bound_word(answer: Result<Bound, Refusal>) -> u64
    requires { Fields (bound_answer answer) }
    ensures { result ≡ judge_word (bound_answer answer) }
{
    match answer {
        Ok(Bound::Safe(states, margin)) => verdict_word(0, states, margin),
        Ok(Bound::Unsafe(states)) => verdict_word(1, states, 0),
        Err(r) => r.code() as u64,
    }
}

// Base and rate into the output, where there is harm.
pub fn put_harm(answer: Result<Onset, Refusal>, out: &mut [u64]) -> u64
    requires { StatesFit (onset_answer answer) }
    ensures value { result ≡ harm_word (onset_answer answer) (length out.old) }
    ensures out_after { out.new ≡ harm_out (onset_answer answer) out.old }
{
    match answer {
        Ok(Onset::Safe(states)) => verdict_word(0, states, 0),
        Ok(Onset::Within(states, base, rate)) => {
            if out.len() < 2 {
                return Refusal::OutputShort.code() as u64;
            }
            out[0] = base;
            out[1] = rate;
            verdict_word(1, states, 0)
        }
        Err(r) => r.code() as u64,
    }
}

// The fields of a number.
fn value_word(value: u32, padded: u64, next: usize) -> u64
    requires { (value < 2 ^ 21) × (padded ≤ 1) }
    ensures { result ≡ 2 ^ 8 * value + 2 ^ 31 * padded + 2 ^ 32 * (next % 2 ^ 32) }
{
    value as u64 * AT_VALUE + padded * AT_PADDED + next as u64 % AT_NEXT * AT_NEXT
}

pub fn number_word(answer: Spelled) -> u64
    requires { SmallValue (number_in (told answer)) }
    ensures { result ≡ number_word (told answer) }
{
    match answer {
        Spelled::Shortest(value, next) => value_word(value, 0, next),
        Spelled::Padded(value, next) => value_word(value, 1, next),
        Spelled::Refused(refusal) => refusal.code() as u64,
    }
}

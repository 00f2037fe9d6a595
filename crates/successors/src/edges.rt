// An edge in one number, so that the innermost loop reads no model: digits for its limits from below, its limits from above, its reset mask and its
// target.
ghost use Rattle.std.specs.Prelude.{◌≡◌, ◌&&◌, ◌≤◌, ◌<◌, length};
ghost use Rattle.theory.specs.Region.{fits, attains};
ghost use Rattle.limits.specs.Limits.{max_clocks, digit_base, three_digits};
ghost use Rattle.region.specs.View.{view};
ghost use Rattle.successors.specs.Words.{digits, digit_list, word_bound, low_part, high_part, mask_part, target_part, edge_word, EdgeWords};

use graph::counted;
use limits::{DIGIT_BASE, THREE_DIGITS, TWO_DIGITS};
use model::Plan;
use region::Region;

const FIVE_DIGITS: u32 = THREE_DIGITS * TWO_DIGITS;

fn three_digits(a: u8, b: u8, c: u8) -> u32
    requires { (a < digit_base) × (b < digit_base) × (c < digit_base) }
    ensures value { result ≡ digits a b c }
    ensures upper_bound { result < three_digits }
{
    (a as u32 * DIGIT_BASE + b as u32) * DIGIT_BASE + c as u32
}

fn word(plan: &Plan, e: usize) -> u32
    requires { e < plan.now.model.edges }
    ensures { result ≡ edge_word plan.now.model e }
{
    let m = &plan.model;
    let i = model::STRIDE * e;
    let n = m.clocks;
    let low = three_digits(
        m.lower[i],
        counted(n, 2, m.lower[i + 1]),
        counted(n, 3, m.lower[i + 2]),
    );
    let high = three_digits(m.upper[i], m.upper[i + 1], m.upper[i + 2]);
    (low * THREE_DIGITS + high) * TWO_DIGITS + three_digits(0, m.reset[e], m.target[e])
}

// The words of all edges, by their numbers.
pub fn fill_words(plan: &Plan, words: &mut [u32])
    requires { plan.now.model.edges ≤ length words.old }
    ensures { EdgeWords plan.now.model words.new }
{
    for e in 0..usize::from(plan.model.edges) {
        words[e] = word(plan, e);
    }
}

// The guard of a word holds.
pub fn opens(w: u32, g: Region) -> bool
    requires { w < word_bound }
    ensures { result ≡ attains (view max_clocks g) (digit_list (low_part w)) && fits (view max_clocks g) (digit_list (high_part w)) }
{
    let low = w / FIVE_DIGITS;
    let high = w / TWO_DIGITS % THREE_DIGITS;
    g.attains(
        (low / TWO_DIGITS) as u8,
        (low / DIGIT_BASE % DIGIT_BASE) as u8,
        (low % DIGIT_BASE) as u8,
    ) && g.fits(
        (high / TWO_DIGITS) as u8,
        (high / DIGIT_BASE % DIGIT_BASE) as u8,
        (high % DIGIT_BASE) as u8,
    )
}

pub fn mask(w: u32) -> u8
    ensures { result ≡ mask_part w }
{
    (w / DIGIT_BASE % DIGIT_BASE) as u8
}

pub fn target(w: u32) -> usize
    ensures { result ≡ target_part w }
{
    (w % DIGIT_BASE) as usize
}

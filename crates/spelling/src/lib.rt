// Numbers in shortest form into a lent output, one after the other. Where one doesn't fit nothing is stored and the offset goes on: so a run with no
// output measures, and the same run with enough of it writes.
#![tactic(auto)]

ghost use Rattle.std.specs.Prelude.{◌+◌, ◌<◌, ◌≤◌, ◌^◌, length};
ghost use Rattle.number.specs.Number.{spell};
ghost use Rattle.spelling.specs.Lays.{Lays, max_bytes};

// The number at an offset; the offset after it.
#[tactic(auto, using(crate::proofs::Lays::lays_not))]
pub fn put(out: &mut [u8], at: usize, v: u32) -> usize
    requires { (v < 2 ^ 21) × (at + length (spell v) ≤ max_bytes) }
    ensures { Lays out.old out.new at result (spell v) }
{
    let end = at + number::shortest_length(v);
    if end <= out.len() {
        number::write(out, at, v);
    }
    end
}

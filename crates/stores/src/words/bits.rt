//! Functions as the bits of a word.
ghost use Rattle.std.specs.Prelude.{◌≡◌, ℕ, ◌-◌, ◌^◌, ◌<◌, ◌≤◌};
ghost use Rattle.stores.specs.Functions.{bit, points, Same, combine, fixed};
ghost use Rattle.stores.specs.Words.{of_word};

use crate::operation::Operation;

// The word whose every point is 1.
pub(super) fn full(inputs: usize) -> u64
    requires { inputs ≤ 5 }
    ensures { result ≡ 2 ^ points inputs - 1 }
{
    u64::MAX >> (64 - (2u32 << inputs))
}

// The word whose bit p is bit k of p.
pub(super) fn stripes(k: usize) -> u64
    requires { k ≤ 5 }
    ensures { (p : ℕ) → p < 64 → bit result p ≡ bit p k }
{
    match k {
        0 => 0xaaaa_aaaa_aaaa_aaaa,
        1 => 0xcccc_cccc_cccc_cccc,
        2 => 0xf0f0_f0f0_f0f0_f0f0,
        3 => 0xff00_ff00_ff00_ff00,
        4 => 0xffff_0000_ffff_0000,
        _ => 0xffff_ffff_0000_0000,
    }
}

// The and, the or, or the xor of two words.
#[tactic(auto, using(crate::proofs::WordBits::bits_joined))]
pub(super) fn combined(op: Operation, x: u64, y: u64) -> u64
    ensures bits { (p : ℕ) → bit result p ≡ combine op (bit x p) (bit y p) }
    ensures fits { (k : ℕ) → x < 2 ^ k → y < 2 ^ k → result < 2 ^ k }
{
    match op {
        Operation::And => x & y,
        Operation::Or => x | y,
        Operation::Xor => x ^ y,
    }
}

// The half of a word where e is the bit, written twice. It asks for words without a bit past the points, as `Words::find`.
#[tactic(auto, using(crate::proofs::WordBits::half_below))]
pub(super) fn repeated(inputs: usize, w: u64, bit: bool) -> u64
    requires few { inputs ≤ 5 }
    requires fits { w < 2 ^ points inputs }
    ensures fits { result < 2 ^ points inputs }
    ensures means { Same inputs (of_word result) (fixed inputs (of_word w) bit) }
{
    let half = 1u32 << inputs;
    let part = if bit { w >> half } else { w % (1 << half) };
    (part << half) | part
}

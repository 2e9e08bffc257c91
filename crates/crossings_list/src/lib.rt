// Where densities pass a level, and whether altitudes rise (document 02, W-206, without the model).

#![tactic(auto)]

ghost use Rattle.std.specs.Prelude.{◌≡◌, true, cond, ◌++◌, ◌+◌, ◌-◌, ◌<◌, ◌≤◌, length, drop, set};
ghost use Rattle.crossings_list.specs.CrossingsList.{passes_of, crossings_of, list_answer, list_after, altitudes_rise};

use refusals::{Reason, Refusal};

// At or above the level on one side and below on the other.
pub fn passes(level: f64, a: f64, b: f64) -> bool
    ensures { result ≡ passes_of level a b }
{
    ((level <= a) & (b < level)) | ((a < level) & (level <= b))
}

// How many pairs pass the level.
pub fn count(d: &[f64], level: f64) -> usize
    ensures { result ≡ length (crossings_of level d.now) }
{
    let mut n = 0;
    for i in 0..d.len().saturating_sub(1) {
        if passes(level, d[i], d[i + 1]) {
            n += 1;
        }
    }
    n
}

// The indices of the pairs that pass the level at the start of the buffer.
pub fn write(d: &[f64], level: f64, out: &mut [u64])
    requires { length (crossings_of level d.now) ≤ length out.old }
    ensures { out.new ≡ crossings_of level d.now ++ drop (length (crossings_of level d.now)) out.old }
{
    let mut n = 0;
    for i in 0..d.len().saturating_sub(1) {
        if passes(level, d[i], d[i + 1]) {
            out[n] = i as u64;
            n += 1;
        }
    }
}

// The list into a lent buffer: its length is known before the first index is written.
pub fn listed(d: &[f64], level: f64, out: &mut [u64]) -> Result<usize, Refusal>
    ensures { (result ≡ list_answer (crossings_of level d.now) (length out.old)) × (out.new ≡ list_after (crossings_of level d.now) out.old) }
{
    let n = count(d, level);
    if out.len() < n {
        return Err(Reason::ListTooShort.at(n));
    }
    write(d, level, out);
    Ok(n)
}

// The index of the first altitude that is not above the one before it, or how many there are.
pub fn rises(alts: &[f64]) -> usize
    ensures { result ≡ altitudes_rise alts.now }
{
    if alts.is_empty() {
        return 0;
    }
    for i in 1..alts.len() {
        if !(alts[i - 1] < alts[i]) {
            return i;
        }
    }
    alts.len()
}

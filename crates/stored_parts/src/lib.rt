// Which parts of what a station stores an altitude reads: the tests by which a row takes its way, and the parts of an altitude and of a list of altitudes.

#![tactic(auto)]

ghost use Rattle.std.specs.Prelude.{◌≡◌};
ghost use Rattle.stored_parts.specs.Parts.{above_summit, from_summit, above_za, below_za, below300, parts_at, all_parts, no_parts, either_parts, serves_of, reached_of, parts_from};

use tables::pdl1;

// ---- the tests

// Above 72.5 km.
pub fn above_summit(alt: f64) -> bool
    ensures { result ≡ above_summit alt }
{
    alt > 72.5
}

// At 72.5 km or above it.
pub fn from_summit(alt: f64) -> bool
    ensures { result ≡ from_summit alt }
{
    alt >= 72.5
}

// Above za.
pub fn above_za(alt: f64) -> bool
    ensures { result ≡ above_za alt }
{
    let l = pdl1();
    alt > l[15]
}

// Below za.
pub fn below_za(alt: f64) -> bool
    ensures { result ≡ below_za alt }
{
    let l = pdl1();
    alt < l[15]
}

// Below 300 km.
pub fn below_300(alt: f64) -> bool
    ensures { result ≡ below300 alt }
{
    alt < 300.0
}

// ---- the parts

// Which parts are asked for: the row at 72.5 km; what lies below it, and below 32.5 km; the region up to za; from there to 300 km; from 300 km.
#[derive(Clone, Copy)]
pub struct Parts {
    pub summit: bool,
    pub below: bool,
    pub tropo: bool,
    pub low: bool,
    pub mid: bool,
    pub top: bool,
}

// The parts that an altitude reads.
pub fn parts_at(alt: f64) -> Parts
    ensures { result ≡ parts_at alt }
{
    let reached = from_summit(alt);
    let above = above_summit(alt);
    let high = above_za(alt);
    let under = below_300(alt);
    Parts {
        summit: reached & !above,
        below: !reached,
        tropo: alt < 32.5,
        low: above & !high,
        mid: high & under,
        top: high & !under,
    }
}

// All of them.
pub fn all_parts() -> Parts
    ensures { result ≡ all_parts }
{
    Parts {
        summit: true,
        below: true,
        tropo: true,
        low: true,
        mid: true,
        top: true,
    }
}

// None of them.
pub fn no_parts() -> Parts
    ensures { result ≡ no_parts }
{
    Parts {
        summit: false,
        below: false,
        tropo: false,
        low: false,
        mid: false,
        top: false,
    }
}

// The parts that are in either.
pub fn either_parts(a: Parts, b: Parts) -> Parts
    ensures { result ≡ either_parts a b }
{
    Parts {
        summit: a.summit | b.summit,
        below: a.below | b.below,
        tropo: a.tropo | b.tropo,
        low: a.low | b.low,
        mid: a.mid | b.mid,
        top: a.top | b.top,
    }
}

// Whether the part that an altitude's row is read from is among the parts h.
pub fn serves(h: Parts, alt: f64) -> bool
    ensures { result ≡ serves_of h alt }
{
    if !above_summit(alt) {
        if from_summit(alt) {
            return h.summit;
        }
        return h.below & (!(alt < 32.5) | h.tropo);
    }
    if !above_za(alt) {
        return h.low;
    }
    if below_300(alt) {
        return h.mid;
    }
    h.top
}

// The parts q, the footing with the troposphere's nodes where h has them: what is stored where h is there and q is reached.
pub fn reached(q: Parts, h: Parts) -> Parts
    ensures { result ≡ reached_of q h }
{
    Parts {
        summit: q.summit,
        below: q.below,
        tropo: q.tropo | (q.below & h.tropo),
        low: q.low,
        mid: q.mid,
        top: q.top,
    }
}

// The parts that the altitudes read.
pub fn parts_of(alts: &[f64]) -> Parts
    ensures { result ≡ parts_from no_parts alts.now }
{
    let mut p = no_parts();
    for alt in alts {
        p = either_parts(p, parts_at(*alt));
    }
    p
}

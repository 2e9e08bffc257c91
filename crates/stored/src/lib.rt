// What a station stores of a record and a switch row, as a list of numbers that no altitude changes; and the row of an altitude out of that list,
// with no expansion worked out.

#![tactic(auto)]

ghost use Rattle.std.specs.Prelude.{◌≡◌, true, cond, ◌++◌, ◌+◌, ◌≤◌, length, take, drop};
ghost use Rattle.footing.specs.Footing.{row_below_of, summit_of};
ghost use Rattle.stored.specs.Stored.{need_of, region_numbers, spine_numbers, span_numbers, ground_numbers, five_in, shape_in, root_in, roots_in, spine_in, span_in, footing_in, region_stored, low_stored, footing_stored, summit_stored, stored_of, stored_in, over_in, under_in, row_stored};

use atmosphere::row_above;
use elementary::logarithm::log;
use footing::{Curves, Footing, Summit, footing_of, row_below, unknown};
use gts7_arithmetic::{Site, anomalous};
use layers::Span;
use lower_atmosphere::Meso;
use needed_sets::Need;
use numbers::{RGAS, put_row};
use parameters::present;
use places::place::Spine;
use plan::ExpansionValues;
use profile::unchecked::Shape;
use region::{Bases, Roots, bases_of, roots_of, row_over, row_under};
use species::{Root, spine_at};
use stored_parts::{Parts, above_summit, above_za, below_300, below_za, from_summit};
use thermosphere::shape_stage;

// The coefficient sets that the parts read.
pub fn need_of(p: Parts) -> Need
    ensures { result ≡ need_of p }
{
    Need {
        high: p.summit | (p.low | (p.mid | p.top)),
        pt: p.mid | p.top,
        ps: p.low | (p.mid | p.top),
        nodes: p.summit | (p.below | (p.low | p.mid)),
        meso: p.below,
        tropo: p.tropo,
    }
}

// ---- the numbers of each part

// A region: its shape and the species' Roots.
pub fn region_numbers(h: Shape, q: Roots) -> [f64; 36]
    ensures { result ≡ region_numbers h q }
{
    let a = h.tn;
    let b = h.tgn;
    [
        h.gsurf, h.re, h.tinf, h.tlb, h.s, a[0], a[1], a[2], a[3], a[4], b[0], b[1], q.n2.db, q
            .n2
            .b, q.n2.r, q.he.db, q.he.b, q.he.r, q.o.db, q.o.b, q.o.r, q.o2.db, q.o2.b, q.o2.r, q
            .ar
            .db, q.ar.b, q.ar.r, q.h.db, q.h.b, q.h.r, q.n.db, q.n.b, q.n.r, q.rate, q.hot,
        q.factor,
    ]
}

// A spine, but for the logarithm lt, which is worked out when it is read.
pub fn spine_numbers(s: Spine) -> [f64; 24]
    ensures { result ≡ spine_numbers s }
{
    let a = s.xs;
    let b = s.ys;
    let c = s.y2;
    [
        s.base, s.k, s.s, s.zg2, s.tt, s.rt, s.glb, s.t1, s.zgdif, a[0], a[1], a[2], a[3], a[4],
        b[0], b[1], b[2], b[3], b[4], c[0], c[1], c[2], c[3], c[4],
    ]
}

// The layer of a span.
pub fn span_numbers(s: Span) -> [f64; 18]
    ensures { result ≡ span_numbers s }
{
    let a = s.xs;
    let b = s.ys;
    let c = s.y2;
    [
        s.t1, s.zgdif, s.gamm, a[0], a[1], a[2], a[3], a[4], b[0], b[1], b[2], b[3], b[4], c[0],
        c[1], c[2], c[3], c[4],
    ]
}

// A footing but for its spans.
pub fn ground_numbers(f: Footing) -> [f64; 17]
    ensures { result ≡ ground_numbers f }
{
    let x = f.x;
    let m = f.meso;
    let k = f.curves;
    let a = m.tn2;
    let b = m.tgn2;
    [
        x.gsurf, x.re, x.zhf, x.flux, f.tinf, f.dm28m, f.he, f.n2, f.o2, f.ar, a[0], a[1], a[2],
        a[3], b[0], b[1], k.d32,
    ]
}

// ---- read again

pub fn five_at(s: &[f64], at: usize) -> [f64; 5]
    requires { at + 5 ≤ length s.now }
    ensures { result ≡ five_in s.now at }
{
    [s[at], s[at + 1], s[at + 2], s[at + 3], s[at + 4]]
}

pub fn shape_from(s: &[f64]) -> Shape
    requires { length s.now ≡ 36 }
    ensures { result ≡ shape_in s.now }
{
    let a = five_at(s, 5);
    Shape {
        rgas: RGAS,
        gsurf: s[0],
        re: s[1],
        tinf: s[2],
        tlb: s[3],
        s: s[4],
        tn: a,
        tgn: [s[10], s[11]],
    }
}

pub fn root_at(s: &[f64], at: usize) -> Root
    requires { at + 3 ≤ length s.now }
    ensures { result ≡ root_in s.now at }
{
    Root {
        db: s[at],
        b: s[at + 1],
        r: s[at + 2],
    }
}

pub fn roots_from(s: &[f64]) -> Roots
    requires { length s.now ≡ 36 }
    ensures { result ≡ roots_in s.now }
{
    let n2 = root_at(s, 12);
    let he = root_at(s, 15);
    let o = root_at(s, 18);
    let o2 = root_at(s, 21);
    let ar = root_at(s, 24);
    let h = root_at(s, 27);
    let n = root_at(s, 30);
    Roots {
        n2: n2,
        he: he,
        o: o,
        o2: o2,
        ar: ar,
        h: h,
        n: n,
        rate: s[33],
        hot: s[34],
        factor: s[35],
    }
}

pub fn spine_from(s: &[f64]) -> Spine
    requires { length s.now ≡ 24 }
    ensures { result ≡ spine_in s.now }
{
    let rt = s[5];
    let lt = log(rt);
    let xs = five_at(s, 9);
    let ys = five_at(s, 14);
    let y2 = five_at(s, 19);
    Spine {
        base: s[0],
        k: s[1],
        rgas: RGAS,
        s: s[2],
        zg2: s[3],
        tt: s[4],
        rt: rt,
        lt: lt,
        glb: s[6],
        t1: s[7],
        zgdif: s[8],
        xs: xs,
        ys: ys,
        y2: y2,
    }
}

pub fn span_from(s: &[f64]) -> Span
    requires { length s.now ≡ 18 }
    ensures { result ≡ span_in s.now }
{
    let xs = five_at(s, 3);
    let ys = five_at(s, 8);
    let y2 = five_at(s, 13);
    Span {
        t1: s[0],
        zgdif: s[1],
        gamm: s[2],
        xs: xs,
        ys: ys,
        y2: y2,
    }
}

pub fn footing_from(s: &[f64]) -> Footing
    requires { length s.now ≡ 53 }
    ensures { result ≡ footing_in s.now }
{
    let u = span_from(&s[17..35]);
    let v = span_from(&s[35..53]);
    let c = present();
    let x = Site {
        gsurf: s[0],
        re: s[1],
        zhf: s[2],
        flux: s[3],
        nine: c,
    };
    let m = Meso {
        tn2: [s[10], s[11], s[12], s[13]],
        tgn2: [s[14], s[15]],
    };
    let k = Curves {
        upper: u,
        d32: s[16],
        lower: v,
    };
    Footing {
        x: x,
        tinf: s[4],
        dm28m: s[5],
        he: s[6],
        n2: s[7],
        o2: s[8],
        ar: s[9],
        meso: m,
        curves: k,
    }
}

// ---- written

pub fn put(out: &mut [f64], v: &[f64])
    requires { length out.old ≡ length v.now }
    ensures { out.new ≡ v.now }
{
    out.copy_from_slice(v);
}

// A region, made at one of its altitudes; zeros where it is not asked for.
pub fn region_stored(
    on: bool,
    sw: [f64; 24],
    x: Site,
    l: ExpansionValues,
    d: Bases,
    z: f64,
) -> [f64; 36]
    ensures { result ≡ region_stored on sw x l d z }
{
    if !on {
        return [0.0; 36];
    }
    let h = shape_stage(sw, x, z, l);
    let s = spine_at(h);
    let q = roots_of(h, s, x, d);
    region_numbers(h, q)
}

// The region up to za, whose altitudes read two spines besides.
pub fn put_low(on: bool, sw: [f64; 24], x: Site, l: ExpansionValues, d: Bases, out: &mut [f64])
    requires { length out.old ≡ 84 }
    ensures { out.new ≡ low_stored on sw x l d }
{
    if !on {
        let zeros = [0.0; 84];
        put(out, &zeros);
        return;
    }
    let h = shape_stage(sw, x, 100.0, l);
    let s = spine_at(h);
    let q = roots_of(h, s, x, d);
    let a = region_numbers(h, q);
    put(&mut out[0..36], &a);
    let b = spine_numbers(s);
    put(&mut out[36..60], &b);
    let g = anomalous(h);
    let k = spine_at(g);
    let c = spine_numbers(k);
    put(&mut out[60..84], &c);
}

// q has the densities at 72.5 km where they are known. In line, so that the footing shares the frame of what stores it.
#[inline(always)]
pub fn put_footing(
    on: bool,
    sw: [f64; 24],
    x: Site,
    l: ExpansionValues,
    tropo: bool,
    q: Summit,
    out: &mut [f64],
)
    requires { (length out.old ≡ 53) × (q.known ≡ true → q ≡ summit_of sw x l) }
    ensures { out.new ≡ footing_stored on sw x l tropo }
{
    if !on {
        let zeros = [0.0; 53];
        put(out, &zeros);
        return;
    }
    let f = footing_of(sw, x, l, tropo, q);
    let a = ground_numbers(f);
    put(&mut out[0..17], &a);
    let k = f.curves;
    let u = k.upper;
    let b = span_numbers(u);
    put(&mut out[17..35], &b);
    let v = k.lower;
    let c = span_numbers(v);
    put(&mut out[35..53], &c);
}

// The row at 72.5 km, the one altitude whose temperatures have no part of PT and PS. What the altitudes below read of it comes back.
pub fn put_summit(on: bool, sw: [f64; 24], x: Site, l: ExpansionValues, out: &mut [f64]) -> Summit
    requires { length out.old ≡ 11 }
    ensures { (out.new ≡ summit_stored on sw x l) × (result.known ≡ true → result ≡ summit_of sw x l) }
{
    if !on {
        put_row(out, [0.0; 11]);
        return unknown();
    }
    let a = row_above(sw, x, l, 72.5);
    let r = a.row;
    put_row(out, r);
    Summit {
        known: true,
        he: r[0],
        n2: r[2],
        o2: r[3],
        ar: r[4],
        dm28: a.dm28,
    }
}

// All of it behind the first fourteen numbers, which are the record's. What lies below 72.5 km comes last: it reads densities of the row there.
pub fn store(p: Parts, sw: [f64; 24], x: Site, l: ExpansionValues, out: &mut [f64])
    requires { length out.old ≡ 234 }
    ensures { out.new ≡ take 14 out.old ++ stored_of p sw x l }
{
    let d = bases_of(sw[21], l);
    put_low(p.low, sw, x, l, d, &mut out[67..151]);
    let b = region_stored(p.mid, sw, x, l, d, 200.0);
    put(&mut out[151..187], &b);
    let c = region_stored(p.top, sw, x, l, d, 300.0);
    put(&mut out[187..223], &c);
    let q = put_summit(p.summit, sw, x, l, &mut out[223..234]);
    put_footing(p.below, sw, x, l, p.tropo, q, &mut out[14..67]);
}

// ---- the same among numbers that are there: a part that is asked for, into its own place

pub fn footing_in(
    on: bool,
    sw: [f64; 24],
    x: Site,
    l: ExpansionValues,
    tropo: bool,
    out: &mut [f64],
)
    requires { length out.old ≡ 53 }
    ensures { out.new ≡ cond on (footing_stored true sw x l tropo) out.old }
{
    if !on {
        return;
    }
    let q = unknown();
    put_footing(true, sw, x, l, tropo, q, out);
}

pub fn low_in(on: bool, sw: [f64; 24], x: Site, l: ExpansionValues, d: Bases, out: &mut [f64])
    requires { length out.old ≡ 84 }
    ensures { out.new ≡ cond on (low_stored true sw x l d) out.old }
{
    if !on {
        return;
    }
    put_low(true, sw, x, l, d, out);
}

pub fn region_in(
    on: bool,
    sw: [f64; 24],
    x: Site,
    l: ExpansionValues,
    d: Bases,
    z: f64,
    out: &mut [f64],
)
    requires { length out.old ≡ 36 }
    ensures { out.new ≡ cond on (region_stored true sw x l d z) out.old }
{
    if !on {
        return;
    }
    let r = region_stored(true, sw, x, l, d, z);
    put(out, &r);
}

pub fn summit_in(on: bool, sw: [f64; 24], x: Site, l: ExpansionValues, out: &mut [f64])
    requires { length out.old ≡ 11 }
    ensures { out.new ≡ cond on (summit_stored true sw x l) out.old }
{
    if !on {
        return;
    }
    put_summit(true, sw, x, l, out);
}

// The parts p, each into its own place; what is there of the others stays.
pub fn store_in(p: Parts, sw: [f64; 24], x: Site, l: ExpansionValues, out: &mut [f64])
    requires { length out.old ≡ 234 }
    ensures { out.new ≡ stored_in p sw x l out.old }
{
    let d = bases_of(sw[21], l);
    footing_in(p.below, sw, x, l, p.tropo, &mut out[14..67]);
    low_in(p.low, sw, x, l, d, &mut out[67..151]);
    region_in(p.mid, sw, x, l, d, 200.0, &mut out[151..187]);
    region_in(p.top, sw, x, l, d, 300.0, &mut out[187..223]);
    summit_in(p.summit, sw, x, l, &mut out[223..234]);
}

// ---- the row of an altitude

// At or above za in a region.
pub fn over_from(sw0: f64, sw15: f64, s: &[f64], alt: f64) -> [f64; 11]
    requires { length s.now ≡ 36 }
    ensures { result ≡ over_in sw0 sw15 s.now alt }
{
    let h = shape_from(s);
    let q = roots_from(s);
    row_over(sw0, sw15, h, q, alt)
}

// Above 72.5 km and below za.
pub fn under_from(sw0: f64, sw15: f64, s: &[f64], alt: f64) -> [f64; 11]
    requires { length s.now ≡ 84 }
    ensures { result ≡ under_in sw0 sw15 s.now alt }
{
    let h = shape_from(&s[0..36]);
    let q = roots_from(&s[0..36]);
    let a = spine_from(&s[36..60]);
    let b = spine_from(&s[60..84]);
    row_under(sw0, sw15, h, a, b, q, alt)
}

// Each way into a lent row of eleven: below 72.5 km, from there to za, from za on. row_on and station_row_on both call these, so that they stay
// functions of their own when compiled and no frame holds what two of them need.

pub fn ground_on(sw0: f64, s: &[f64], alt: f64, out: &mut [f64])
    requires { (length s.now ≡ 53) × (length out.old ≡ 11) }
    ensures { out.new ≡ row_below_of sw0 (footing_in s.now) alt }
{
    let f = footing_from(s);
    let r = row_below(sw0, f, alt);
    put(out, &r);
}

pub fn under_on(sw0: f64, sw15: f64, s: &[f64], alt: f64, out: &mut [f64])
    requires { (length s.now ≡ 84) × (length out.old ≡ 11) }
    ensures { out.new ≡ under_in sw0 sw15 s.now alt }
{
    let r = under_from(sw0, sw15, s, alt);
    put(out, &r);
}

pub fn over_on(sw0: f64, sw15: f64, s: &[f64], alt: f64, out: &mut [f64])
    requires { (length s.now ≡ 36) × (length out.old ≡ 11) }
    ensures { out.new ≡ over_in sw0 sw15 s.now alt }
{
    let r = over_from(sw0, sw15, s, alt);
    put(out, &r);
}

// The eleven numbers at an altitude, with no View and no record; sw0 and sw15 are the main effects of switches 0 and 15. Column, crossings and
// the first altitude thin enough fill their rows by it.
pub fn row_on(sw0: f64, sw15: f64, s: &[f64], alt: f64, out: &mut [f64])
    requires { (length s.now ≡ 234) × (length out.old ≡ 11) }
    ensures { out.new ≡ row_stored sw0 sw15 s.now alt }
{
    if !above_summit(alt) {
        if from_summit(alt) {
            put(out, &s[223..234]);
            return;
        }
        ground_on(sw0, &s[14..67], alt, out);
        return;
    }
    if !above_za(alt) {
        if below_za(alt) {
            under_on(sw0, sw15, &s[67..151], alt, out);
            return;
        }
        over_on(sw0, sw15, &s[67..103], alt, out);
        return;
    }
    if below_300(alt) {
        over_on(sw0, sw15, &s[151..187], alt, out);
        return;
    }
    over_on(sw0, sw15, &s[187..223], alt, out);
}

// The same for a station's altitude.
pub fn station_row_on(sw0: f64, sw15: f64, s: &[f64], alt: f64, out: &mut [f64])
    requires { (length s.now ≡ 234) × (length out.old ≡ 11) }
    ensures { out.new ≡ row_stored sw0 sw15 s.now alt }
{
    if !above_summit(alt) {
        if from_summit(alt) {
            put(out, &s[223..234]);
            return;
        }
        ground_on(sw0, &s[14..67], alt, out);
        return;
    }
    if !above_za(alt) {
        if below_za(alt) {
            under_on(sw0, sw15, &s[67..151], alt, out);
            return;
        }
        over_on(sw0, sw15, &s[67..103], alt, out);
        return;
    }
    if below_300(alt) {
        over_on(sw0, sw15, &s[151..187], alt, out);
        return;
    }
    over_on(sw0, sw15, &s[187..223], alt, out);
}

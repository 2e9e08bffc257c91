// Runs document 01's cases of mixing, splines and profiles and prints the bits of each answer, or its refusal.

#![tactic(auto)]

use mixing::{ccor, dnet};
use profile::unchecked::Profile;
use profile_calls::{densm, densu};
use spline_calls::{NodesRefusal, spline, splini, splint};

// The bits of x; every NaN has the same.
fn pattern(x: f64) -> u64 {
    if !(x == x) {
        return 9221120237041090560;
    }
    f64::to_bits(x)
}

// A space and 16 hexadecimal digits.
fn show(x: f64) {
    io::write_all(1, b" ");
    io::print_hex(1, pattern(x), 16);
}

// A refusal's number and place in hexadecimal, each of one digit.
fn refused(e: NodesRefusal) {
    let (number, place) = match e {
        NodesRefusal::NodeCount(place) => (5, place),
        NodesRefusal::SliceLength(place) => (4, place),
    };
    io::write_all(1, b" refused ");
    io::print_hex(1, number, 1);
    io::write_all(1, b" ");
    io::print_hex(1, place as u64, 1);
}

fn value(a: Result<f64, NodesRefusal>) {
    match a {
        Ok(x) => show(x),
        Err(e) => refused(e),
    }
}

fn outcome(a: Result<Profile, NodesRefusal>) {
    match a {
        Ok(Profile::Temperature(t)) => show(t),
        Ok(Profile::Density(d, t)) => {
            show(d);
            show(t);
        }
        Err(e) => refused(e),
    }
}

fn written(a: Result<(), NodesRefusal>) {
    if let Err(e) = a {
        refused(e);
    }
}

fn label(s: &[u8]) {
    io::write_all(1, b"\n");
    io::write_all(1, s);
}

fn not_a_number() -> f64 {
    0.0 / 0.0
}

fn infinity() -> f64 {
    1.0 / 0.0
}

// ccor where e is 100, 70, -70: at 70 and at -70 the formula answers, so the first two differ.
fn corrections() {
    label(b"ccor e = 100");
    show(ccor(100.0, 1.0E30, 1.0, 0.0));
    label(b"ccor e = 70");
    show(ccor(70.0, 1.0E30, 1.0, 0.0));
    label(b"ccor e = -70");
    show(ccor(-70.0, 2.0, 1.0, 0.0));
    label(b"ccor e = -71");
    show(ccor(-71.0, 2.0, 1.0, 0.0));
}

// dnet's order of tests, NaN and infinities included.
fn blends() {
    label(b"dnet(0, 0)");
    show(dnet(0.0, 0.0, 28.0, 28.95, 28.0));
    label(b"dnet(5, 0)");
    show(dnet(5.0, 0.0, 28.0, 28.95, 28.0));
    label(b"dnet(-1, 0)");
    show(dnet(-1.0, 0.0, 28.0, 28.95, 28.0));
    label(b"dnet(0, 5)");
    show(dnet(0.0, 5.0, 28.0, 28.95, 28.0));
    label(b"dnet(0, NaN)");
    show(dnet(0.0, not_a_number(), 28.0, 28.95, 28.0));
    label(b"dnet(NaN, 0)");
    show(dnet(not_a_number(), 0.0, 28.0, 28.95, 28.0));
    label(b"dnet(infinity, 5)");
    show(dnet(infinity(), 5.0, 28.0, 28.95, 28.0));
    label(b"dnet(5, infinity)");
    show(dnet(5.0, infinity(), 28.0, 28.95, 28.0));
}

// Nodes 0 and 1, values 2 and 4, second derivatives 0.
fn interpolations() {
    label(b"splint at 0.5");
    value(splint(&[0.0, 1.0], &[2.0, 4.0], &[0.0, 0.0], 2, 0.5));
    label(b"splini to 0.5");
    value(splini(&[0.0, 1.0], &[2.0, 4.0], &[0.0, 0.0], 2, 0.5));
    label(b"splini to the first node");
    value(splini(&[0.0, 1.0], &[2.0, 4.0], &[0.0, 0.0], 2, 0.0));
    label(b"splini to NaN");
    value(splini(&[0.0, 1.0], &[2.0, 4.0], &[0.0, 0.0], 2, not_a_number()));
}

fn spline_refusals() {
    label(b"splint, 1 node");
    value(splint(&[0.0, 1.0], &[2.0, 4.0], &[0.0, 0.0], 1, 0.5));
    label(b"splint, 11 nodes");
    value(splint(&[0.0, 1.0], &[2.0, 4.0], &[0.0, 0.0], 11, 0.5));
    label(b"splini, 3 nodes of 2");
    value(splini(&[0.0, 1.0, 2.0], &[2.0, 4.0], &[0.0, 0.0, 0.0], 3, 0.5));
}

// Second derivatives over three nodes into a row of four, natural at both ends; then a refusal into the same row.
fn second_derivatives() {
    let mut y2 = [7.0, 7.0, 7.0, 7.0];
    label(b"spline");
    written(spline(
        &[0.0, 1.0, 2.0],
        &[0.0, 1.0, 0.0],
        3,
        1.0E30,
        1.0E30,
        &mut y2,
    ));
    show(y2[0]);
    show(y2[1]);
    show(y2[2]);
    show(y2[3]);
    label(b"spline, 5 nodes of 4");
    written(spline(
        &[0.0, 1.0, 2.0, 3.0, 4.0],
        &[0.0, 1.0, 0.0, 1.0, 0.0],
        5,
        1.0E30,
        1.0E30,
        &mut y2,
    ));
    show(y2[0]);
}

// densu at one altitude over five nodes: the answer, then element 0 of both slices.
fn upper(alt: f64, xm: f64) {
    let mut tn = [0.0, 400.0, 250.0, 200.0, 200.0];
    let mut tgn = [0.0, 2.0];
    outcome(densu(
        980.0,
        6357.0,
        alt,
        1.0E7,
        1000.0,
        380.0,
        xm,
        0.0,
        0.0,
        120.0,
        0.02,
        5,
        &[123.435, 110.0, 100.0, 90.0, 72.5],
        &mut tn,
        &mut tgn,
    ));
    show(tn[0]);
    show(tgn[0]);
}

fn upper_cases() {
    label(b"densu at 400");
    upper(400.0, 28.0);
    label(b"densu at 100");
    upper(100.0, 28.0);
    label(b"densu at 100, temperature");
    upper(100.0, 0.0);
    label(b"densu at the first node");
    upper(123.435, 28.0);
    label(b"densu at NaN");
    upper(not_a_number(), 28.0);
}

fn upper_refusal(n: usize) {
    let mut tn = [1.0, 400.0, 250.0];
    let mut tgn = [1.0];
    outcome(densu(
        980.0,
        6357.0,
        100.0,
        1.0E7,
        1000.0,
        380.0,
        28.0,
        0.0,
        0.0,
        120.0,
        0.02,
        n,
        &[123.435, 110.0, 100.0, 90.0, 72.5],
        &mut tn,
        &mut tgn,
    ));
    show(tn[0]);
    show(tgn[0]);
}

fn upper_refusals() {
    label(b"densu, 6 nodes");
    upper_refusal(6);
    label(b"densu, 4 nodes of 3");
    upper_refusal(4);
    label(b"densu, one gradient");
    upper_refusal(3);
}

// densm over gtd7's heights.
fn lower(alt: f64, xm: f64, mn3: usize, mn2: usize) {
    outcome(densm(
        980.0,
        6357.0,
        alt,
        1.0E15,
        xm,
        190.0,
        mn3,
        &[32.5, 20.0, 15.0, 10.0, 0.0],
        &[230.0, 217.0, 215.0, 225.0, 288.0],
        &[1.0, 5.0],
        mn2,
        &[72.5, 55.0, 45.0, 32.5],
        &[210.0, 260.0, 265.0, 230.0],
        &[2.0, 1.0],
    ));
}

fn lower_cases() {
    label(b"densm at 80");
    lower(80.0, 28.95, 5, 4);
    label(b"densm at 50");
    lower(50.0, 28.95, 5, 4);
    label(b"densm at 5");
    lower(5.0, 28.95, 5, 4);
    label(b"densm at 5, temperature");
    lower(5.0, 0.0, 5, 4);
    label(b"densm at 80, temperature");
    lower(80.0, 0.0, 5, 4);
    label(b"densm, 5 nodes of 4 in set 2, 11 nodes in set 3");
    lower(5.0, 0.0, 11, 5);
    label(b"densm, 6 nodes of 5 in set 3");
    lower(5.0, 0.0, 6, 4);
}

fn main() {
    corrections();
    blends();
    interpolations();
    spline_refusals();
    second_derivatives();
    upper_cases();
    upper_refusals();
    lower_cases();
    io::write_all(1, b"\n");
}

// The Legendre values of a latitude: an array of four arrays, and flat as State holds them.

#![tactic(auto)]

ghost use Rattle.std.specs.Prelude.{◌≡◌};
ghost use Rattle.legendre.specs.Legendre.{legendre_of, flat_of, row0_of, row1_of, row2_of, row3_of, rows_of};

// The Legendre values after globe7 of c, the sine of latitude, and s, its cosine; fourteen entries stay as they were.
pub fn legendre(c: f64, s: f64, old: [f64; 36]) -> [[f64; 9]; 4]
    ensures { result ≡ legendre_of c s old }
{
    let c2 = c * c;
    let c4 = c2 * c2;
    let s2 = s * s;
    let p04 = (35.0 * c4 - 30.0 * c2 + 3.0) / 8.0;
    let p05 = (63.0 * c2 * c2 * c - 70.0 * c2 * c + 15.0 * c) / 8.0;
    let a = [
        old[0],
        c,
        0.5 * (3.0 * c2 - 1.0),
        0.5 * (5.0 * c * c2 - 3.0 * c),
        p04,
        p05,
        (11.0 * c * p05 - 5.0 * p04) / 6.0,
        old[7],
        old[8],
    ];
    let p14 = 2.5 * (7.0 * c2 * c - 3.0 * c) * s;
    let p15 = 1.875 * (21.0 * c4 - 14.0 * c2 + 1.0) * s;
    let b = [
        old[9],
        s,
        3.0 * c * s,
        1.5 * (5.0 * c2 - 1.0) * s,
        p14,
        p15,
        (11.0 * c * p15 - 6.0 * p14) / 5.0,
        old[16],
        old[17],
    ];
    let p23 = 15.0 * s2 * c;
    let p24 = 7.5 * (7.0 * c2 - 1.0) * s2;
    let p25 = 3.0 * c * p24 - 2.0 * p23;
    let p26 = (11.0 * c * p25 - 7.0 * p24) / 4.0;
    let d = [
        old[18],
        old[19],
        3.0 * s2,
        p23,
        p24,
        p25,
        p26,
        (13.0 * c * p26 - 8.0 * p25) / 5.0,
        old[26],
    ];
    let p33 = 15.0 * s2 * s;
    let p34 = 105.0 * s2 * s * c;
    let p35 = (9.0 * c * p34 - 7.0 * p33) / 2.0;
    let e = [
        old[27],
        old[28],
        old[29],
        p33,
        p34,
        p35,
        (11.0 * c * p35 - 8.0 * p34) / 3.0,
        old[34],
        old[35],
    ];
    [a, b, d, e]
}

// The four rows one after the other, as State holds them.
pub fn flat(g: [[f64; 9]; 4]) -> [f64; 36]
    ensures { result ≡ flat_of g }
{
    [
        g[0][0], g[0][1], g[0][2], g[0][3], g[0][4], g[0][5], g[0][6], g[0][7], g[0][8], g[1][0],
        g[1][1], g[1][2], g[1][3], g[1][4], g[1][5], g[1][6], g[1][7], g[1][8], g[2][0], g[2][1],
        g[2][2], g[2][3], g[2][4], g[2][5], g[2][6], g[2][7], g[2][8], g[3][0], g[3][1], g[3][2],
        g[3][3], g[3][4], g[3][5], g[3][6], g[3][7], g[3][8],
    ]
}

fn row0(q: [f64; 36]) -> [f64; 9]
    ensures { result ≡ row0_of q }
{
    [q[0], q[1], q[2], q[3], q[4], q[5], q[6], q[7], q[8]]
}

fn row1(q: [f64; 36]) -> [f64; 9]
    ensures { result ≡ row1_of q }
{
    [q[9], q[10], q[11], q[12], q[13], q[14], q[15], q[16], q[17]]
}

fn row2(q: [f64; 36]) -> [f64; 9]
    ensures { result ≡ row2_of q }
{
    [
        q[18], q[19], q[20], q[21], q[22], q[23], q[24], q[25], q[26],
    ]
}

fn row3(q: [f64; 36]) -> [f64; 9]
    ensures { result ≡ row3_of q }
{
    [
        q[27], q[28], q[29], q[30], q[31], q[32], q[33], q[34], q[35],
    ]
}

// The four rows of what State holds.
pub fn rows(q: [f64; 36]) -> [[f64; 9]; 4]
    ensures { result ≡ rows_of q }
{
    let a = row0(q);
    let b = row1(q);
    let d = row2(q);
    let e = row3(q);
    [a, b, d, e]
}

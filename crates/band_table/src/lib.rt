// W-208: the row of a metre in a table of bands, whatever the table holds, and a metre as an altitude.

#![tactic(auto)]

ghost use Rattle.std.specs.Prelude.{◌≡◌, ◌+◌, ◌≤◌, length, take, drop, false, pos};
ghost use Rattle.std.specs.Int.Signed.{lt_z};
ghost use Rattle.band_table.specs.Table.{band_count, band_row};
ghost use Rattle.band_table.specs.Kilometres.{kilometres_of_metres};

// How many bands a table says that it has.
pub fn count(z: i32) -> usize
    ensures { (result ≡ band_count z) × (result ≤ 64) }
{
    if z < 0 {
        return 0;
    }
    if z > 64 {
        return 0;
    }
    z as usize
}

pub fn sooner(metre: i64, to: i32) -> bool
    ensures { result ≡ lt_z metre to }
{
    metre < to as i64
}

pub fn row_from(table: &[i32], k: usize) -> [i32; 24]
    requires { k + 24 ≤ length table.now }
    ensures { result ≡ take 24 (drop k table.now) }
{
    let mut w: [i32; 24] = [0; 24];
    w.copy_from_slice(&table[k..k + 24]);
    w
}

// The row of a metre, if there is one, in any table, whatever it holds.
pub fn row_at(table: &[i32], metre: i64) -> Option<[i32; 24]>
    ensures { result ≡ band_row table.now metre }
{
    if table.len() != 1601 {
        return None;
    }
    if metre < 0 {
        return None;
    }
    if 2500000 < metre {
        return None;
    }
    let bands = count(table[0]);
    for i in 0..bands {
        let k = 1 + 25 * i;
        if sooner(metre, table[k]) {
            let w = row_from(table, k + 1);
            return Some(w);
        }
    }
    None
}

// A whole metre as an altitude in km: one division.
pub fn kilometres(metre: i64) -> f64
    requires { (lt_z metre (pos 0) ≡ false) × (lt_z (pos 2500000) metre ≡ false) }
    ensures { result ≡ kilometres_of_metres metre }
{
    metre as f64 / 1000.0
}

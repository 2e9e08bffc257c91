// Many records under one switch row, each answered as the one-altitude call answers it. Records that follow each other on one day share the season.

#![tactic(auto)]

ghost use Rattle.std.specs.Prelude.{◌≡◌, true, not, cond, ◌*◌, ◌≤◌, length};
ghost use Rattle.std.specs.Float.{binary64};
ghost use Rattle.std.specs.Float.Ieee.{of_int};
ghost use Rattle.needed_sets.specs.NeededSets.{need_at};
ghost use Rattle.season.specs.Season.{Seasoned};
ghost use Rattle.expansion_values.specs.InSeason.{longitude_in};
ghost use Rattle.acceptance.specs.Acceptance.{record_answer};
ghost use Rattle.atmosphere.specs.Atmosphere.{eleven_of, row_after};
ghost use Rattle.record_list.specs.RecordList.{Listed};
ghost use Rattle.records.specs.Records.{same_need, KeptRight, answers_to, rows_to};

use acceptance::record_answer;
use atmosphere::{put_row_above, put_row_lower, takes_upper_way};
use expansion_values::{longitude_in, record_values_in};
use host_record::code;
use needed_sets::{Need, need_at};
use parameters::present;
use record_list::record_at;
use refusals::Refusal;
use season::season_into;
use setting::Input;
use views::day;

// ---- the season that is kept

// The day and the sets that it was worked out for.
#[derive(Clone, Copy)]
pub struct KeptSeason {
    pub doy: i32,
    pub need: Need,
}

pub fn agree(a: bool, b: bool) -> bool
    ensures { result ≡ cond a b (not b) }
{
    if a { b } else { !b }
}

pub fn same_need(a: Need, b: Need) -> bool
    ensures { result ≡ same_need a b }
{
    let high = agree(a.high, b.high);
    let pt = agree(a.pt, b.pt);
    let ps = agree(a.ps, b.ps);
    let nodes = agree(a.nodes, b.nodes);
    let meso = agree(a.meso, b.meso);
    let tropo = agree(a.tropo, b.tropo);
    high & pt & ps & nodes & meso & tropo
}

// Whether the season that is kept is the day's, for the same sets.
pub fn serves(k: KeptSeason, doy: i32, a: Need) -> bool
    ensures { result ≡ true → (k.doy ≡ doy) × (k.need ≡ a) }
{
    if k.doy != doy {
        return false;
    }
    same_need(k.need, a)
}

// The season of a record's day for the sets a: the one that is kept where it serves.
pub fn season_for(w: [i32; 24], n: Input, a: Need, kept: Option<KeptSeason>, s: &mut [f64])
    requires { KeptRight w kept s.old }
    ensures { Seasoned (of_int binary64 n.doy) a (longitude_in w) s.new }
{
    if let Some(k) = kept {
        if serves(k, n.doy, a) {
            return;
        }
    }
    season_into(day(n), a, longitude_in(w), s);
}

// ---- one record

// The row of a record out of its season.
pub fn row_in_season(w: [i32; 24], n: Input, a: Need, s: &[f64], out: &mut [f64])
    requires { (length out.old ≡ 11) × (a ≡ need_at n.alt) × Seasoned (of_int binary64 n.doy) a (longitude_in w) s.now }
    ensures { out.new ≡ eleven_of w n }
{
    let v = record_values_in(w, n, a, s);
    let c = present();
    if takes_upper_way(n.alt) {
        put_row_above(c, n, v, out);
        return;
    }
    put_row_lower(c, n, v, out);
}

// A record's answer; the season behind it is the one that is kept from here on.
pub fn answered(
    w: [i32; 24],
    n: Input,
    kept: &mut Option<KeptSeason>,
    s: &mut [f64],
    out: &mut [f64],
) -> Result<(), Refusal>
    requires { KeptRight w kept.old s.old × (length out.old ≡ 11) }
    ensures { (result ≡ record_answer w n) × (out.new ≡ row_after w n out.old) × KeptRight w kept.new s.new }
{
    record_answer(w, n)?;
    let a = need_at(n.alt);
    season_for(w, n, a, *kept, s);
    row_in_season(w, n, a, s, out);
    *kept = Some(KeptSeason {
        doy: n.doy,
        need: a,
    });
    Ok(())
}

// ---- all of them

pub fn gtd7_records(
    w: [i32; 24],
    days: &[i32],
    fields: &[f64],
    ap_arrays: &[f64],
    answers: &mut [u64],
    rows: &mut [f64],
)
    requires { Listed (length days.now) (length fields.now) (length ap_arrays.now) × (length days.now ≤ length answers.old) × (11 * length days.now ≤ length rows.old) }
    ensures { (answers.new ≡ answers_to w days.now fields.now ap_arrays.now (length days.now) answers.old)
        × (rows.new ≡ rows_to w days.now fields.now ap_arrays.now (length days.now) rows.old) }
{
    let mut season = [0.0; 156];
    let mut kept = None;
    for i in 0..days.len() {
        let n = record_at(days, fields, ap_arrays, i);
        let row = &mut rows[11 * i..11 * i + 11];
        answers[i] = code(answered(w, n, &mut kept, &mut season, row));
    }
}

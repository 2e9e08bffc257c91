// What a change and a new switch row of a station are carried over with: the expansions' values in the station's numbers, and what the row and the record make
// of gravity, zhf and the flux factor; and the whole season of a record's day, which no station holds yet.

#![tactic(auto)]

ghost use Rattle.std.specs.Prelude.{◌≡◌, length};
ghost use Rattle.std.specs.Float.{binary64};
ghost use Rattle.std.specs.Float.Ieee.{of_int};
ghost use Rattle.season.specs.Season.{all_needed};
ghost use Rattle.station_values.specs.StationValues.{expansion_numbers, expansion_values_in, globe7_sets, site_under};
ghost use Rattle.station_values.specs.WholeSeason.{season_of};

use gts7_arithmetic::{Site, site_of};
use needed_sets::Need;
use plan::ExpansionValues;
use season::season_into;
use setting::Input;
use views::day;

pub fn expansion_numbers(l: ExpansionValues) -> [f64; 25]
    ensures { result ≡ expansion_numbers l }
{
    [
        l.pt, l.ps, l.pd0, l.pd1, l.pd2, l.pd3, l.pd4, l.pd5, l.pd6, l.pd7, l.pd8, l.ptl0, l.ptl1,
        l.ptl2, l.ptl3, l.pma0, l.pma1, l.pma2, l.pma3, l.pma4, l.pma5, l.pma6, l.pma7, l.pma8,
        l.pma9,
    ]
}

// Read again.
pub fn expansion_values_in(s: &[f64]) -> ExpansionValues
    requires { length s.now ≡ 25 }
    ensures { result ≡ expansion_values_in s.now }
{
    ExpansionValues {
        pt: s[0],
        ps: s[1],
        pd0: s[2],
        pd1: s[3],
        pd2: s[4],
        pd3: s[5],
        pd4: s[6],
        pd5: s[7],
        pd6: s[8],
        pd7: s[9],
        pd8: s[10],
        ptl0: s[11],
        ptl1: s[12],
        ptl2: s[13],
        ptl3: s[14],
        pma0: s[15],
        pma1: s[16],
        pma2: s[17],
        pma3: s[18],
        pma4: s[19],
        pma5: s[20],
        pma6: s[21],
        pma7: s[22],
        pma8: s[23],
        pma9: s[24],
    }
}

// globe7's sets, without glob7s'.
pub fn globe7_sets() -> Need
    ensures { result ≡ globe7_sets }
{
    Need {
        high: true,
        pt: true,
        ps: true,
        nodes: false,
        meso: false,
        tropo: false,
    }
}

// Every set, globe7's and glob7s'.
pub fn all_sets() -> Need
    ensures { result ≡ all_needed }
{
    Need {
        high: true,
        pt: true,
        ps: true,
        nodes: true,
        meso: true,
        tropo: true,
    }
}

// The whole season of a record's day: for every set, and with the longitude's term, which another row may ask for.
pub fn put_season(n: Input, s: &mut [f64])
    requires { length s.old ≡ 156 }
    ensures { s.new ≡ season_of (of_int binary64 n.doy) }
{
    let a = all_sets();
    let doy = day(n);
    season_into(doy, a, true, s);
}

// sw the main effects of the row.
pub fn site_under(sw: [f64; 24], n: Input) -> Site
    ensures { result ≡ site_under sw n }
{
    let doy = day(n);
    site_of(sw, n.g_lat, doy, n.f107a)
}

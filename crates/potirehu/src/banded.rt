// A table of bands of switch rows on the host: 1,601 whole numbers that the caller keeps.
ghost use Rattle.std.specs.Prelude.{◌≡◌, length};
ghost use Rattle.refusals.specs.Refusals.{Accepted};
ghost use Rattle.band_form.specs.Bands.{read_answer, table_after};
ghost use Rattle.host_record.specs.Record.{code_of};
ghost use Rattle.potirehu.specs.Bands.{band_lengths_of, host_banded, host_banded_row};

use band_form::bands;
use bands::gtd7_in_bands;
use host_record::{code, record_of};
use refusals::{Reason, Refusal};

// Reads a text of bands into a table.
#[unsafe(no_mangle)]
pub extern "C" fn potirehu_bands(text: &[u8], table: &mut [i32]) -> u64
    ensures { (result ≡ code_of (read_answer text.now (length table.old)))
        × (table.new ≡ table_after text.now table.old) }
{
    let a = bands(text, table);
    code(a)
}

// 4 for the first of the slices that has not its length, the row's being len; accepted where all have.
pub fn band_lengths(
    len: usize,
    table: &[i32],
    fields: &[f64],
    ap_array: &[f64],
) -> Result<(), Refusal>
    ensures { result ≡ band_lengths_of len table.now fields.now ap_array.now Accepted }
{
    if len != 11 {
        return Err(Reason::WrongLength.at(11));
    }
    if table.len() != 1601 {
        return Err(Reason::WrongLength.at(1601));
    }
    if fields.len() != 8 {
        return Err(Reason::WrongLength.at(8));
    }
    if (ap_array.len() != 0) & (ap_array.len() != 7) {
        return Err(Reason::WrongLength.at(7));
    }
    Ok(())
}

// potirehu_gtd7 at a whole metre, with the row of the band in which it lies; the altitude among the fields is not looked at.
#[unsafe(no_mangle)]
pub extern "C" fn potirehu_bands_gtd7(
    table: &[i32],
    metre: i64,
    year: i32,
    doy: i32,
    fields: &[f64],
    ap_array: &[f64],
    row: &mut [f64],
) -> u64
    ensures { (result ≡ code_of (host_banded table.now metre year doy fields.now ap_array.now (length row.old)))
        × (row.new ≡ host_banded_row table.now metre year doy fields.now ap_array.now row.old) }
{
    if let Err(refusal) = band_lengths(row.len(), table, fields, ap_array) {
        return code(Err(refusal));
    }
    let n = record_of(year, doy, fields, ap_array);
    let a = gtd7_in_bands(table, metre, n, row);
    code(a)
}

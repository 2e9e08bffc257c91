// Many records under one switch row, on slices.
ghost use Rattle.std.specs.Prelude.{◌≡◌, length};
ghost use Rattle.host_record.specs.Record.{code_of};
ghost use Rattle.potirehu.specs.Records.{host_records, host_answers, host_record_rows};

use host_record::switch_row;
use record_list::lengths_code;
use records::gtd7_records;

// Each record's answer and row as potirehu_gtd7 gives them with the year 0. days has one number a record, fields eight, ap_arrays none at all or seven;
// answers and rows may be longer than one and eleven a record. 0; or 4 and the length needed, and all as it was.
#[unsafe(no_mangle)]
pub extern "C" fn potirehu_gtd7_records(
    days: &[i32],
    fields: &[f64],
    ap_arrays: &[f64],
    switches: &[i32],
    answers: &mut [u64],
    rows: &mut [f64],
) -> u64
    ensures { (result ≡ code_of (host_records days.now fields.now ap_arrays.now switches.now (length answers.old) (length rows.old)))
        × (answers.new ≡ host_answers days.now fields.now ap_arrays.now switches.now answers.old (length rows.old))
        × (rows.new ≡ host_record_rows days.now fields.now ap_arrays.now switches.now (length answers.old) rows.old) }
{
    let refusal = lengths_code(
        days.len(),
        fields.len(),
        ap_arrays.len(),
        switches.len(),
        answers.len(),
        rows.len(),
    );
    if refusal != 0 {
        return refusal;
    }
    let w = switch_row(switches);
    gtd7_records(w, days, fields, ap_arrays, answers, rows);
    0
}

// The State after gtd7 for C: liboracle_state.a, over the crate oracle_state.

#![tactic(auto)]

ghost use Rattle.std.specs.Prelude.{◌≡◌, length};
ghost use Rattle.host_record.specs.Record.{code_of};
ghost use Rattle.oracle_state.specs.OracleState.{state_answer, state_numbers};

// The State after gtd7 into a slice of 79 numbers, with no check of the record beyond its slices' lengths: 0, or 4 and the length needed, and
// then the slice as it was.
#[unsafe(no_mangle)]
pub extern "C" fn state_after_gtd7(
    year: i32,
    doy: i32,
    fields: &[f64],
    ap_array: &[f64],
    switches: &[i32],
    numbers: &mut [f64],
) -> u64
    ensures { (result ≡ code_of (state_answer fields.now ap_array.now switches.now (length numbers.old)))
        × (numbers.new ≡ state_numbers year doy fields.now ap_array.now switches.now numbers.old) }
{
    oracle_state::state_after_gtd7(year, doy, fields, ap_array, switches, numbers)
}

// The boards' logs held against each other.
ghost use Rattle.std.specs.Prelude.{◌≡◌, length};
ghost use Rattle.potirehu.specs.Boards.{log_code_of};
ghost use Rattle.logs.specs.Lent.{lent_answer, lent_after};

use host_record::packed;
use logs::{LogsRefusal, held_in};

// The count, or a refusal's number times 2^32 and its place.
pub fn log_code(a: Result<usize, LogsRefusal>) -> u64
    ensures { result ≡ log_code_of a }
{
    match a {
        Ok(n) => n as u64,
        Err(e) => packed(e.number(), e.place()),
    }
}

// Of each board its seconds and its densities by their bits: the count, and the report's 512 numbers; or a refusal, and the report as it was.
#[unsafe(no_mangle)]
pub extern "C" fn potirehu_logs(
    seconds_1: &[u64],
    bits_1: &[u64],
    seconds_2: &[u64],
    bits_2: &[u64],
    tolerance: u64,
    report: &mut [u32],
) -> u64
    ensures { (result ≡ log_code_of (lent_answer seconds_1.now bits_1.now seconds_2.now bits_2.now tolerance (length report.old))) × (report.new ≡ lent_after seconds_1.now bits_1.now seconds_2.now bits_2.now tolerance report.old) }
{
    let a = held_in(seconds_1, bits_1, seconds_2, bits_2, tolerance, report);
    log_code(a)
}

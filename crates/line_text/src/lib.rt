// The line program's answers as bytes in a lent buffer, from a given index on.

#![tactic(auto)]

ghost use Rattle.std.specs.Prelude.{◌≡◌, ◌+◌, ◌*◌, ◌≤◌, length};
ghost use Rattle.line_text.specs.Text.{Writes, pattern_of, hex_text, decimal_text, value_text, spaced_text, row_text, refused_text};

// A text into the buffer from `at` on; the index after it.
pub fn put(out: &mut [u8], at: usize, text: &[u8]) -> usize
    requires { at + length text.now ≤ length out.old }
    ensures { Writes out.old at text.now out.new result }
{
    let end = at + text.len();
    out[at..end].copy_from_slice(text);
    end
}

// The bits of x; every NaN has the same.
pub fn pattern(x: f64) -> u64
    ensures { result ≡ pattern_of x }
{
    if x != x {
        return 9221120237041090560;
    }
    f64::to_bits(x)
}

// 16 hexadecimal digits.
pub fn hex(out: &mut [u8], at: usize, x: f64) -> usize
    requires { at + 16 ≤ length out.old }
    ensures { Writes out.old at (hex_text x) out.new result × (length (hex_text x) ≡ 16) }
{
    let n = pattern(x);
    let mut text: [u8; 16] = [0; 16];
    let k = io::hex(n, 16, &mut text);
    put(out, at, &text[..k])
}

// A number in decimal.
pub fn decimal(out: &mut [u8], at: usize, n: u64) -> usize
    requires { at + 20 ≤ length out.old }
    ensures { Writes out.old at (decimal_text n) out.new result × (length (decimal_text n) ≤ 20) }
{
    let mut text: [u8; 20] = [0; 20];
    let k = io::decimal(n, &mut text);
    put(out, at, &text[..k])
}

pub fn value(out: &mut [u8], at: usize, x: f64) -> usize
    requires { at + 25 ≤ length out.old }
    ensures { Writes out.old at (value_text x) out.new result × (length (value_text x) ≤ 193) }
{
    let a = put(out, at, b"(value ");
    let b = hex(out, a, x);
    put(out, b, b")\n")
}

// A space and 16 hexadecimal digits for each number.
pub fn spaced(out: &mut [u8], at: usize, row: [f64; 11]) -> usize
    requires { at + 187 ≤ length out.old }
    ensures { Writes out.old at (spaced_text row) out.new result × (length (spaced_text row) ≡ 187) }
{
    let mut to = at;
    for x in row {
        let a = put(out, to, b" ");
        to = hex(out, a, x);
    }
    to
}

pub fn row(out: &mut [u8], at: usize, row: [f64; 11]) -> usize
    requires { at + 193 ≤ length out.old }
    ensures { Writes out.old at (row_text row) out.new result × (length (row_text row) ≤ 193) }
{
    let a = put(out, at, b"(row");
    let b = spaced(out, a, row);
    put(out, b, b")\n")
}

pub fn refused(out: &mut [u8], at: usize, n: u64, p: u64) -> usize
    requires { at + 52 ≤ length out.old }
    ensures { Writes out.old at (refused_text n p) out.new result × (length (refused_text n p) ≤ 193) }
{
    let a = put(out, at, b"(refused ");
    let b = decimal(out, a, n);
    let c = put(out, b, b" ");
    let d = decimal(out, c, p);
    put(out, d, b")\n")
}

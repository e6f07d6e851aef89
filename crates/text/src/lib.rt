// Text in a lent buffer that has room: numbers in decimal, and the line of a refusal.
#![tactic(auto)]

ghost use Rattle.std.specs.Prelude.{◌+◌, ◌≤◌, ◌<◌, length};
ghost use Rattle.writer.specs.inner.Wrote.{Wrote};
ghost use Rattle.text.specs.Text.{decimal, refused_text};
ghost use Rattle.text.specs.inner.Digits.{digit_at, upper_digits, SmallLength};

use writer::put;

// The digit of n at a unit, unless it is a zero in front of all others.
fn put_digit(out: &mut [u8], at: usize, n: usize, unit: usize) -> usize
    requires { (at + length (digit_at unit n) ≤ length out.old) × (1 ≤ unit) }
    ensures { Wrote out.old at (digit_at unit n) out.new result }
{
    if n < unit {
        return at;
    }
    put(out, at, (48 + n / unit % 10) as u8)
}

// The digits of n above its last four.
#[cycle(put_decimal_put_upper)]
fn put_upper(out: &mut [u8], at: usize, n: usize) -> usize
    requires { at + length (upper_digits 10000 n) ≤ length out.old }
    ensures { Wrote out.old at (upper_digits 10000 n) out.new result }
{
    if n < 10000 {
        return at;
    }
    put_decimal(out, at, n / 10000)
}

// A number in decimal.
#[cycle(put_decimal_put_upper)]
pub fn put_decimal(out: &mut [u8], at: usize, n: usize) -> usize
    requires { at + length (decimal n) ≤ length out.old }
    ensures { Wrote out.old at (decimal n) out.new result }
{
    let a = put_upper(out, at, n);
    let b = put_digit(out, a, n, 1000);
    let c = put_digit(out, b, n, 100);
    let d = put_digit(out, c, n, 10);
    put(out, d, (48 + n % 10) as u8)
}

// A number below 1,000 in decimal.
pub fn put_small(out: &mut [u8], at: usize, n: usize) -> usize
    requires { (n < 1000) × (at + length (decimal n) ≤ length out.old) }
    ensures { Wrote out.old at (decimal n) out.new result }
{
    if n < 10 {
        return put(out, at, (48 + n) as u8);
    }
    if n < 100 {
        let a = put(out, at, (48 + n / 10) as u8);
        return put(out, a, (48 + n % 10) as u8);
    }
    let a = put(out, at, (48 + n / 100) as u8);
    let b = put(out, a, (48 + n / 10 % 10) as u8);
    put(out, b, (48 + n % 10) as u8)
}

// How many digits a number below 1,000 has.
pub fn small_length(n: usize) -> usize
    requires { n < 1000 }
    ensures { SmallLength n result }
{
    if n < 10 {
        return 1;
    }
    if n < 100 {
        return 2;
    }
    3
}

// A text.
pub fn put_text(out: &mut [u8], at: usize, text: &[u8]) -> usize
    requires { at + length text.now ≤ length out.old }
    ensures { Wrote out.old at text.now out.new result }
{
    out[at..at + text.len()].copy_from_slice(text);
    at + text.len()
}

// A refusal.
pub fn put_refused(out: &mut [u8], refusal: usize) -> usize
    requires { 29 ≤ length out.old }
    ensures { Wrote out.old 0 (refused_text refusal) out.new result }
{
    let a = put_text(out, 0, b"refused ");
    let b = put_decimal(out, a, refusal);
    put_text(out, b, b"\n")
}

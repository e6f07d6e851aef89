// How long lparse text is, before it is written.
#![tactic(auto)]

ghost use Rattle.std.specs.Prelude.{◌≡◌, ◌≤◌, ◌<◌, length};
ghost use Rattle.bits.specs.inner.Sets.{Size};
ghost use Rattle.lparse_lines.specs.inner.Lines.{head_text, body_text, records_text, symbol_line, symbols_text, whole_text};
ghost use Rattle.lparse_sizes.specs.inner.Lengths.{AtomsLength, LineLength, TextLength};

use bits::{intersection, size};
use tables::{Table, record_at};
use text::small_length;

// How long the type and the head of a record's rule are.
fn head_length(kind: u8, head: u8) -> usize
    ensures { LineLength (head_text kind head) result }
{
    match kind {
        1 => 3,
        2 => 4 + small_length(usize::from(head) + 2),
        _ => 2 + small_length(usize::from(head) + 2),
    }
}

// How long the fields of a set's k atoms are: 3 bytes each, but 2 where the number has one digit.
fn atoms_length(x: u64, k: usize) -> usize
    requires { Size x k }
    ensures { AtomsLength x result }
{
    3 * k - size(intersection(x, 255)) as usize
}

// How long a body is, with the line's end.
fn body_length(pos: u64, neg: u64) -> usize
    ensures { LineLength (body_text pos neg) result }
{
    let k = size(neg) as usize;
    let p = size(pos) as usize;
    let numbers = small_length(k + p) + small_length(k);
    numbers + atoms_length(neg, k) + atoms_length(pos, p) + 3
}

// How long the rules of the first m records are.
fn records_length(m: usize, records: &Table) -> usize
    requires { m ≤ 128 }
    ensures { TextLength (records_text records.now m) result }
{
    let mut t = 0;
    for j in 0..m {
        let r = record_at(records, j);
        t += head_length(r.kind, r.head) + body_length(r.pos, r.neg);
    }
    t
}

// How long the line of an atom is in the symbol table.
fn symbol_length(a: usize) -> usize
    requires { a < 64 }
    ensures { LineLength (symbol_line a) result }
{
    small_length(a + 2) + small_length(a) + 3
}

// How long the symbol table of n atoms is.
fn symbols_length(n: usize) -> usize
    requires { n ≤ 64 }
    ensures { TextLength (symbols_text n) result }
{
    let mut t = 0;
    for a in 0..n {
        t += symbol_length(a);
    }
    t
}

// How long the text of n atoms and the first m records is.
pub fn lparse_length(n: usize, m: usize, records: &Table) -> usize
    requires { (n ≤ 64) × (m ≤ 128) }
    ensures { result ≡ length (whole_text n m records.now) }
{
    records_length(m, records) + symbols_length(n) + 18
}

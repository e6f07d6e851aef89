// Writing lparse text: the lines of the records, the symbol table, and what stands behind it.
#![tactic(auto)]

ghost use Rattle.std.specs.Prelude.{◌+◌, ◌≤◌, ◌<◌, length};
ghost use Rattle.writer.specs.inner.Wrote.{Wrote};
ghost use Rattle.lparse_lines.specs.inner.Lines.{records_text, symbol_line, symbols_text, whole_text};

use lparse_lines::put_record;
use tables::{Table, record_at};
use text::{put_small, put_text};
use writer::put;

// The rules of the first m records.
fn put_records(out: &mut [u8], m: usize, records: &Table) -> usize
    requires { (m ≤ 128) × (length (records_text records.now m) ≤ length out.old) }
    ensures { Wrote out.old 0 (records_text records.now m) out.new result }
{
    let mut next = 0;
    for j in 0..m {
        next = put_record(out, next, record_at(records, j));
    }
    next
}

// The line of an atom in the symbol table.
fn put_symbol(out: &mut [u8], at: usize, a: usize) -> usize
    requires { (a < 64) × (at + length (symbol_line a) ≤ length out.old) }
    ensures { Wrote out.old at (symbol_line a) out.new result }
{
    let b = put_small(out, at, a + 2);
    let c = put_text(out, b, b" a");
    let e = put_small(out, c, a);
    put(out, e, b'\n')
}

// The symbol table of n atoms.
fn put_symbols(out: &mut [u8], at: usize, n: usize) -> usize
    requires { (n ≤ 64) × (at + length (symbols_text n) ≤ length out.old) }
    ensures { Wrote out.old at (symbols_text n) out.new result }
{
    let mut next = at;
    for a in 0..n {
        next = put_symbol(out, next, a);
    }
    next
}

// The text of n atoms and the first m records.
pub fn put_lparse(out: &mut [u8], n: usize, m: usize, records: &Table) -> usize
    requires { (n ≤ 64) × (m ≤ 128) × (length (whole_text n m records.now) ≤ length out.old) }
    ensures { Wrote out.old 0 (whole_text n m records.now) out.new result }
{
    let a = put_records(out, m, records);
    let b = put_text(out, a, b"0\n");
    let c = put_symbols(out, b, n);
    put_text(out, c, b"0\nB+\n0\nB-\n1\n0\n1\n")
}

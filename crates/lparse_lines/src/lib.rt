// Writing one line of lparse text: the rule of a record.
#![tactic(auto)]

ghost use Rattle.std.specs.Prelude.{◌+◌, ◌≤◌, ◌<◌, length};
ghost use Rattle.writer.specs.inner.Wrote.{Wrote};
ghost use Rattle.lparse_format.specs.Text.{field_text};
ghost use Rattle.lparse_lines.specs.inner.Lines.{head_text, atoms_text, literals_text, body_text, record_text};

use bits::{lowest, rest, size};
use tables::SheetRecord;
use text::{put_small, put_text};
use writer::put;

// A further field of a line.
fn put_field(out: &mut [u8], at: usize, n: usize) -> usize
    requires { (n < 1000) × (at + length (field_text n) ≤ length out.old) }
    ensures { Wrote out.old at (field_text n) out.new result }
{
    let a = put(out, at, b' ');
    put_small(out, a, n)
}

// The type and the head of a record's rule; a constraint's head is 1.
fn put_head(out: &mut [u8], at: usize, kind: u8, head: u8) -> usize
    requires { at + length (head_text kind head) ≤ length out.old }
    ensures { Wrote out.old at (head_text kind head) out.new result }
{
    match kind {
        1 => put_text(out, at, b"1 1"),
        2 => {
            let a = put_text(out, at, b"3 1");
            put_field(out, a, usize::from(head) + 2)
        }
        _ => {
            let a = put_text(out, at, b"1");
            put_field(out, a, usize::from(head) + 2)
        }
    }
}

// The atoms of a set, rising.
fn put_atoms(out: &mut [u8], at: usize, x: u64) -> usize
    requires { at + length (atoms_text x) ≤ length out.old }
    ensures { Wrote out.old at (atoms_text x) out.new result }
{
    let mut next = at;
    let mut left = x;
    while 0 < left {
        let a = lowest(left);
        next = put_field(out, next, a + 2);
        left = rest(left);
    }
    next
}

// The atoms of a body, the negative ones first, and the line's end.
fn put_literals(out: &mut [u8], at: usize, pos: u64, neg: u64) -> usize
    requires { at + length (literals_text pos neg) ≤ length out.old }
    ensures { Wrote out.old at (literals_text pos neg) out.new result }
{
    let a = put_atoms(out, at, neg);
    let b = put_atoms(out, a, pos);
    put(out, b, b'\n')
}

// A body, and the line's end.
fn put_body(out: &mut [u8], at: usize, pos: u64, neg: u64) -> usize
    requires { at + length (body_text pos neg) ≤ length out.old }
    ensures { Wrote out.old at (body_text pos neg) out.new result }
{
    let k = size(neg) as usize;
    let l = k + size(pos) as usize;
    let a = put_field(out, at, l);
    let b = put_field(out, a, k);
    put_literals(out, b, pos, neg)
}

// A record's rule.
pub fn put_record(out: &mut [u8], at: usize, r: SheetRecord) -> usize
    requires { at + length (record_text r) ≤ length out.old }
    ensures { Wrote out.old at (record_text r) out.new result }
{
    let a = put_head(out, at, r.kind, r.head);
    put_body(out, a, r.pos, r.neg)
}

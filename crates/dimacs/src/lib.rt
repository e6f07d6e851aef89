// The clause program's input and text: where the sheet ends, and DIMACS CNF.
#![tactic(auto)]

ghost use Rattle.std.specs.Prelude.{◌++◌, ◌+◌, ◌≤◌, length};
ghost use Rattle.writer.specs.inner.Wrote.{Wrote};
ghost use Rattle.dimacs.specs.Text.{header_text};
ghost use Rattle.dimacs.specs.inner.Split.{SheetEnd};
ghost use Rattle.dimacs.specs.inner.Words.{sign_text, end_text, word_text, words_text};

use text::{put_decimal, put_text};
use writer::put;

// Where the sheet ends: its length field divides the input. If the input is shorter, all of it is the sheet.
pub fn sheet_end(input: &[u8]) -> usize
    ensures { SheetEnd input.now result }
{
    if input.len() < 3 {
        return input.len();
    }
    let e = usize::from(input[1]) * 256 + usize::from(input[2]);
    e.min(input.len())
}

// A minus sign, where the word is negative.
fn put_sign(out: &mut [u8], at: usize, w: i32) -> usize
    requires { at + length (sign_text w) ≤ length out.old }
    ensures { Wrote out.old at (sign_text w) out.new result }
{
    if w < 0 {
        return put(out, at, b'-');
    }
    at
}

// What stands behind a word of magnitude v: the line's end behind 0, else a space.
fn put_end(out: &mut [u8], at: usize, v: usize) -> usize
    requires { at + length (end_text v) ≤ length out.old }
    ensures { Wrote out.old at (end_text v) out.new result }
{
    if v == 0 {
        return put(out, at, b'\n');
    }
    put(out, at, b' ')
}

// A word.
fn put_word(out: &mut [u8], at: usize, w: i32) -> usize
    requires { at + length (word_text w) ≤ length out.old }
    ensures { Wrote out.old at (word_text w) out.new result }
{
    let v = w.unsigned_abs() as usize;
    let a = put_sign(out, at, w);
    let b = put_decimal(out, a, v);
    put_end(out, b, v)
}

// The words of clauses, one clause a line.
fn put_words(out: &mut [u8], at: usize, words: &[i32]) -> usize
    requires { at + length (words_text words.now) ≤ length out.old }
    ensures { Wrote out.old at (words_text words.now) out.new result }
{
    let mut next = at;
    for &w in words {
        next = put_word(out, next, w);
    }
    next
}

// The first line.
fn put_header(out: &mut [u8], variables: usize, clauses: usize) -> usize
    requires { 48 ≤ length out.old }
    ensures { Wrote out.old 0 (header_text variables clauses) out.new result }
{
    let a = put_text(out, 0, b"p cnf ");
    let b = put_decimal(out, a, variables);
    let c = put_text(out, b, b" ");
    let d = put_decimal(out, c, clauses);
    put_text(out, d, b"\n")
}

// DIMACS CNF of the words of clauses.
pub fn put_dimacs(out: &mut [u8], words: &[i32], variables: usize, clauses: usize) -> usize
    requires { 48 + length (words_text words.now) ≤ length out.old }
    ensures { Wrote out.old 0 (header_text variables clauses ++ words_text words.now) out.new result }
{
    let a = put_header(out, variables, clauses);
    put_words(out, a, words)
}

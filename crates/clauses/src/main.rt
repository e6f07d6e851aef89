// A sheet and a sequence on standard input; out come their clauses as DIMACS CNF text, or the refusal.
#![tactic(auto)]

ghost use Rattle.std.specs.Prelude.{◌≡◌, ◌≤◌, length, take, IfOk, OnErr};
ghost use Rattle.dimacs.specs.Text.{sheet_of, sequence_of};
ghost use Rattle.operations.specs.Outcome.{from_clauses};
ghost use Rattle.operations.specs.Calls.{integers, Promised};
ghost use Rattle.operations.specs.Calls as call;
ghost use Rattle.office.specs.Office.{office};
ghost use Rattle.clauses.specs.Printed.{Prints};

use dimacs::{put_dimacs, sheet_end};
use input::read_full;
use office::service;
use operations::ClauseNumbers;
use refusals::Refusal;
use std::io;
use std::io::{Read, Write};
use text::put_refused;

// Writes the clauses of the input's sheet and sequence.
fn write_clauses(input: &[u8], words: &mut [i32]) -> Result<ClauseNumbers, Refusal>
    ensures { Promised office (call.clauses (sheet_of input.now) (sequence_of input.now) words.old) (from_clauses result)
        (integers words.new) }
{
    let e = sheet_end(input);
    service().clauses(&input[0..e], &input[e..], words)
}

// The input stands in the first n bytes of the buffer; the text for it takes their place. Answers how long the text is.
// No text is longer than 98,352 bytes: 48 for the first line, 6 for each of the 16,384 words.
fn answer(buffer: &mut [u8], n: usize) -> usize
    requires { (n ≤ length buffer.old) × (98352 ≤ length buffer.old) }
    ensures { Prints (take n buffer.old) buffer.new result }
{
    let mut words = [0i32; 16384];
    match write_clauses(&buffer[0..n], &mut words) {
        Ok(numbers) => {
            let k = numbers.words;
            put_dimacs(buffer, &words[0..k], numbers.variables, numbers.clauses)
        }
        Err(refusal) => put_refused(buffer, u32::from(refusal) as usize),
    }
}

// The first 65,536 bytes of the input, at the beginning of the buffer. Answers how many they are; an error is that of a read.
fn read_input<R: Read>(reader: &mut R, buffer: &mut [u8]) -> io::Result<usize>
    requires { 65536 ≤ length buffer.old }
    ensures within { IfOk result (λ n. n ≤ length buffer.new) }
    ensures failed { OnErr result (length buffer.new ≡ length buffer.old) }
{
    read_full(reader, &mut buffer[0..65536])
}

fn main(rt: HostRuntime) -> io::Result<()> {
    let mut buffer = [0u8; 98352];
    let n = read_input(&mut rt.reader(), &mut buffer)?;
    let k = answer(&mut buffer, n);
    io::writer(&rt).write_all(&buffer[0..k])
}

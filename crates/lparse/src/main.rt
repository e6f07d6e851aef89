// A sheet on standard input; out comes its text for the usual solvers, or the refusal.
#![tactic(auto)]

ghost use Rattle.std.specs.Prelude.{◌≡◌, length};
ghost use Rattle.lparse.specs.Printed.{Prints};

use input::read_full;
use office::service;
use std::io;
use std::io::Write;
use text::put_refused;

// The text for an input, at the beginning of the buffer. Answers how long it is.
fn answer(input: &[u8], text: &mut [u8]) -> usize
    requires { length text.old ≡ 65536 }
    ensures { Prints input.now text.new result }
{
    match service().lparse(input, text) {
        Ok(bytes) => bytes,
        Err(refusal) => put_refused(text, u32::from(refusal) as usize),
    }
}

fn main(rt: HostRuntime) -> io::Result<()> {
    let mut input = [0u8; 65536];
    let n = read_full(&mut rt.reader(), &mut input)?;
    let mut text = [0u8; 65536];
    let k = answer(&input[0..n], &mut text);
    io::writer(&rt).write_all(&text[0..k])
}

// A sheet on standard input, one line out: the number of stable models and the verdict, or the refusal.
#![tactic(auto)]

use input::read_full;
use office::service;
use std::io;
use std::io::Print;

fn main(rt: HostRuntime) -> io::Result<()> {
    let mut input = [0u8; 65536];
    let n = read_full(&mut rt.reader(), &mut input)?;
    match service().count(&input[..n]) {
        Ok(counted) => println!(&rt; "{} {}", counted.states, counted.verdict),
        Err(refusal) => println!(&rt; "{refusal}"),
    }
}

// Writing components' names and the default sequence.
#![tactic(auto)]

ghost use Rattle.std.specs.Prelude.{◌≡◌, ◌+◌, ◌≤◌, length};
ghost use Rattle.bits.specs.inner.Visited.{listed};
ghost use Rattle.writer.specs.inner.Wrote.{Wrote};
ghost use Rattle.component_output.specs.inner.Names.{name_bytes, block_of, blocks_of, BlockLength};

use bits::{lowest, rest, size};
use writer::put;

// The names of the first n atoms.
pub fn put_names(out: &mut [u8], at: usize, names: &[u8; 64], n: usize) -> usize
    requires { (n ≤ 64) × (at + length (name_bytes names.now n) ≤ length out.old) }
    ensures { Wrote out.old at (name_bytes names.now n) out.new result }
{
    out[at..at + n].copy_from_slice(&names[..n]);
    at + n
}

// The atoms of a set, rising.
fn put_set(out: &mut [u8], at: usize, x: u64) -> usize
    requires { at + length (listed x) ≤ length out.old }
    ensures { Wrote out.old at (listed x) out.new result }
{
    let mut next = at;
    let mut left = x;
    while 0 < left {
        let a = lowest(left);
        next = put(out, next, a as u8);
        left = rest(left);
    }
    next
}

// A component's block.
fn put_block(out: &mut [u8], at: usize, x: u64) -> usize
    requires { at + length (block_of x) ≤ length out.old }
    ensures { Wrote out.old at (block_of x) out.new result }
{
    let mut next = at;
    for _ in 0..size(x) {
        next = put_set(out, next, x);
    }
    next
}

// The blocks of all components: the entries of the default sequence.
pub fn put_blocks(out: &mut [u8], at: usize, sets: &[u64; 64], n: usize) -> usize
    requires { (n ≤ 64) × (at + length (blocks_of sets.now n) ≤ length out.old) }
    ensures { Wrote out.old at (blocks_of sets.now n) out.new result }
{
    let mut next = at;
    for &x in &sets[..n] {
        next = put_block(out, next, x);
    }
    next
}

// How many entries a component's block has.
fn block_length(x: u64) -> usize
    ensures { BlockLength x result }
{
    let k = size(x) as usize;
    k * k
}

// How many entries the blocks have.
pub fn blocks_length(sets: &[u64; 64], n: usize) -> usize
    requires { n ≤ 64 }
    ensures { result ≡ length (blocks_of sets.now n) }
{
    let mut t = 0;
    for &x in &sets[..n] {
        t += block_length(x);
    }
    t
}

// The operations on a sheet alone: reading it, finding its components, and its default sequence.
#![tactic(auto)]

ghost use Rattle.std.specs.Prelude.{◌≤◌, length};
ghost use Rattle.writer.specs.inner.Wrote.{Wrote};
ghost use Rattle.operations.specs.Outcome.{from_read, from_write};
ghost use Rattle.operations.specs.Outputs.{sequence_header};
ghost use Rattle.operations.specs.Calls.{nothing, naturals, Promised};
ghost use Rattle.operations.specs.Calls as call;
ghost use Rattle.operations.specs.Requirements.{Supported};

use component_output::{blocks_length, put_blocks, put_names};
use reader::Header;
use refusals::Refusal;
use sheet::Limits;
use sheet_check::check_sheet;
use writer::put;

// Reading a sheet.
pub fn read(limits: Limits, s: &[u8]) -> Result<Header, Refusal>
    requires { Supported limits }
    ensures { Promised limits (call.read s.now) (from_read result) nothing }
{
    let mut edges = [0u64; 64];
    let mut names = [0u8; 64];
    let mut sets = [0u64; 64];
    let a = check_sheet(limits, s, &mut edges, &mut names, &mut sets)?;
    Ok(Header {
        atoms: a.written,
        records: a.records,
    })
}

// Finding components: for each atom one byte, the smallest atom of its component.
pub fn components(limits: Limits, s: &[u8], out: &mut [u8]) -> Result<usize, Refusal>
    requires { Supported limits }
    ensures { Promised limits (call.components s.now out.old) (from_write result) (naturals out.new) }
{
    let mut edges = [0u64; 64];
    let mut names = [0u8; 64];
    let mut sets = [0u64; 64];
    let n = check_sheet(limits, s, &mut edges, &mut names, &mut sets)?.atoms;
    if out.len() < n {
        return Err(Refusal::Room);
    }
    Ok(put_names(out, 0, &names, n))
}

// The header of a sequence of t entries.
fn put_header(out: &mut [u8], t: usize) -> usize
    requires { 3 ≤ length out.old }
    ensures { Wrote out.old 0 (sequence_header t) out.new result }
{
    let a = put(out, 0, 1);
    let b = put(out, a, (t / 256 % 256) as u8);
    put(out, b, (t % 256) as u8)
}

// The default sequence, header included.
pub fn default_sequence(limits: Limits, s: &[u8], out: &mut [u8]) -> Result<usize, Refusal>
    requires { Supported limits }
    ensures { Promised limits (call.default s.now out.old) (from_write result) (naturals out.new) }
{
    let mut edges = [0u64; 64];
    let mut names = [0u8; 64];
    let mut sets = [0u64; 64];
    let n = check_sheet(limits, s, &mut edges, &mut names, &mut sets)?.atoms;
    let t = blocks_length(&sets, n);
    if out.len() < t + 3 {
        return Err(Refusal::Room);
    }
    let at = put_header(out, t);
    Ok(put_blocks(out, at, &sets, n))
}

// The questions about a sequence.
#![tactic(auto)]

ghost use Rattle.std.specs.Prelude.{◌≤◌, length};
ghost use Rattle.chains.specs.inner.Components.{Small};
ghost use Rattle.sequence_check.specs.inner.Checked.{EntriesChecked, SequenceChecked};

use chains::passes;
use refusals::Refusal;
use sheet::{Limits, sequence_fits};

// The questions about the entries of a sequence over n atoms: 8, then 16.
pub fn check_entries(limits: Limits, n: usize, q: &[u8]) -> Result<(), Refusal>
    ensures { EntriesChecked limits n q.now result }
{
    if !sequence_fits(limits, n, q) {
        return Err(Refusal::Sequence);
    }
    if limits.taken.entries < q.len() - 3 {
        return Err(Refusal::Long);
    }
    Ok(())
}

// The questions about a sequence, of a program of n atoms with its edges and the sets of its components: 8, 16, then 9. The table is for
// the rows of a component.
pub fn check_sequence(
    limits: Limits,
    n: usize,
    edges: &[u64; 64],
    sets: &[u64; 64],
    q: &[u8],
    table: &mut [u64],
) -> Result<(), Refusal>
    requires { (n ≤ 64) × Small n sets.now (length table.old) }
    ensures { SequenceChecked limits n edges.now sets.now q.now result }
{
    check_entries(limits, n, q)?;
    if !passes(table, n, edges, sets, q) {
        return Err(Refusal::Chain);
    }
    Ok(())
}

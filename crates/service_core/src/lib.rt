// A service: the operations at its limits. All that office and hub stand on; each operation is proved in a crate of its own, and stands
// here too for limits of which no service is made.
#![tactic(auto)]

ghost use Rattle.std.specs.Prelude.{◌^◌, ◌≤◌};
ghost use Rattle.operations.specs.Outcome.{from_read, from_body, from_write, from_test, from_clauses, from_count};
ghost use Rattle.operations.specs.Calls.{nothing, naturals, integers, Promised};
ghost use Rattle.operations.specs.Calls as call;
ghost use Rattle.operations.specs.Bodies.{SlicePromise, FindPromise};
ghost use Rattle.operations.specs.Requirements.{Supported};

use operations::{BodyPlace, ClauseNumbers, Counted};
use reader::Header;
use refusals::Refusal;
use sheet::Limits;

// The operations at any limits that are supported, with a table that the caller lends where one is needed.
pub use body_operations::{body, body_slice, find_body};
pub use chain_operations::{missing, test};
pub use clauses_operation::clauses;
pub use count_operation::count;
pub use lparse_operation::lparse;
pub use sheet_operations::{components, default_sequence, read};
pub use unfolded_operation::unfolded;

// Limits that the tables have room for, and how many rows there are for the sets of a component's atoms.
#[derive(Clone, Copy)]
pub struct Service<const ROWS: usize> {
    pub limits: Limits,
    ghost supported: { Supported limits },
    ghost roomy: { 2 ^ limits.taken.component ≤ ROWS },
    ghost short: { ROWS ≤ 1024 },
}

impl<const ROWS: usize> Service<ROWS> {
    // Reading a sheet: the numbers of atoms and records.
    pub fn read(&self, s: &[u8]) -> Result<Header, Refusal>
        ensures { Promised self.now.limits (call.read s.now) (from_read result) nothing }
    {
        sheet_operations::read(self.limits, s)
    }

    // Finding components: for each atom one byte, the smallest atom of its component.
    pub fn components(&self, s: &[u8], out: &mut [u8]) -> Result<usize, Refusal>
        ensures { Promised self.now.limits (call.components s.now out.old) (from_write result) (naturals out.new) }
    {
        sheet_operations::components(self.limits, s, out)
    }

    // The default sequence, header included.
    pub fn default_sequence(&self, s: &[u8], out: &mut [u8]) -> Result<usize, Refusal>
        ensures { Promised self.now.limits (call.default s.now out.old) (from_write result) (naturals out.new) }
    {
        sheet_operations::default_sequence(self.limits, s, out)
    }

    // Showing a body: where it stands.
    pub fn find_body(&self, s: &[u8], number: usize) -> Result<BodyPlace, Refusal>
        ensures { FindPromise self.now.limits number s.now result }
    {
        body_operations::find_body(self.limits, s, number)
    }

    // Showing a body: its number of positive atoms.
    pub fn body(&self, s: &[u8], number: usize) -> Result<usize, Refusal>
        ensures { Promised self.now.limits (call.body number s.now) (from_body result) nothing }
    {
        body_operations::body(self.limits, s, number)
    }

    // Showing a body: its slice of the sheet, empty on a refusal.
    pub fn body_slice<'a>(&self, s: &'a [u8], number: usize) -> &'a [u8]
        ensures { SlicePromise self.now.limits number s.now s.entry.ref_ptr result.now result.ref_ptr }
    {
        body_operations::body_slice(self.limits, s, number)
    }

    // Writing lparse text: the number of bytes.
    pub fn lparse(&self, s: &[u8], out: &mut [u8]) -> Result<usize, Refusal>
        ensures { Promised self.now.limits (call.lparse s.now out.old) (from_write result) (naturals out.new) }
    {
        lparse_operation::lparse(self.limits, s, out)
    }

    // Testing a sequence: every chain must be found in it.
    pub fn test(&self, s: &[u8], q: &[u8]) -> Result<(), Refusal>
        ensures { Promised self.now.limits (call.test s.now q.now) (from_test result) nothing }
    {
        let mut table = [0u64; ROWS];
        chain_operations::test(self.limits, s, q, &mut table)
    }

    // Finding the missing chain, the shortest that is not found in the sequence: its number of atoms.
    pub fn missing(&self, s: &[u8], q: &[u8], out: &mut [u8]) -> Result<usize, Refusal>
        ensures { Promised self.now.limits (call.missing s.now q.now out.old) (from_write result) (naturals out.new) }
    {
        let mut table = [0u64; ROWS];
        chain_operations::missing(self.limits, s, q, out, &mut table)
    }

    // Writing the unfolded program: the number of words.
    pub fn unfolded(&self, s: &[u8], q: &[u8], out: &mut [u32]) -> Result<usize, Refusal>
        ensures { Promised self.now.limits (call.unfolded s.now q.now out.old) (from_write result) (naturals out.new) }
    {
        let mut table = [0u64; ROWS];
        unfolded_operation::unfolded(self.limits, s, q, out, &mut table)
    }

    // Writing clauses: the numbers of words, of variables and of clauses.
    pub fn clauses(&self, s: &[u8], q: &[u8], out: &mut [i32]) -> Result<ClauseNumbers, Refusal>
        ensures { Promised self.now.limits (call.clauses s.now q.now out.old) (from_clauses result) (integers out.new) }
    {
        let mut table = [0u64; ROWS];
        clauses_operation::clauses(self.limits, s, q, out, &mut table)
    }

    // Counting the stable models.
    pub fn count(&self, s: &[u8]) -> Result<Counted, Refusal>
        ensures { Promised self.now.limits (call.count s.now) (from_count result) nothing }
    {
        count_operation::count(self.limits, s)
    }
}

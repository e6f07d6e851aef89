// The hub's operations for C and Rust: include/rulehub.h declares them. What each promises is
// `Returned` of interface/specs/Seen.antt at its call.
#![tactic(auto)]

ghost use Rattle.std.specs.Prelude.{◌∷◌, []};
ghost use Rattle.operations.specs.Calls.{nothing, naturals, integers};
ghost use Rattle.operations.specs.Calls as call;
ghost use Rattle.hub.specs.Hub.{hub};
ghost use Rattle.interface.specs.Seen.{Returned};

use interface::{store_body, store_clauses, store_count, store_length, store_read, store_test};

// Reading.
#[unsafe(no_mangle)]
pub extern "C" fn rulehub_read(sheet: &[u8], atoms: &mut u64, records: &mut u64) -> u32
    ensures { Returned hub (call.read sheet.now) result
        (atoms.old ∷ records.old ∷ []) (atoms.new ∷ records.new ∷ []) nothing }
{
    store_read(hub::service().read(sheet), atoms, records)
}

// Showing a body: its number of positive atoms, and where its slice of the sheet starts and how long it is.
#[unsafe(no_mangle)]
pub extern "C" fn rulehub_body(
    sheet: &[u8],
    number: u64,
    positives: &mut u64,
    offset: &mut u64,
    length: &mut u64,
) -> u32
    ensures { Returned hub (call.body number sheet.now) result
        (positives.old ∷ offset.old ∷ length.old ∷ [])
        (positives.new ∷ offset.new ∷ length.new ∷ []) nothing }
{
    let place = hub::service().find_body(sheet, number as usize);
    store_body(place, positives, offset, length)
}

// Finding components.
#[unsafe(no_mangle)]
pub extern "C" fn rulehub_components(sheet: &[u8], out: &mut [u8], written: &mut u64) -> u32
    ensures { Returned hub (call.components sheet.now out.old) result
        (written.old ∷ []) (written.new ∷ []) (naturals out.new) }
{
    store_length(hub::service().components(sheet, out), written)
}

// The default sequence.
#[unsafe(no_mangle)]
pub extern "C" fn rulehub_default(sheet: &[u8], out: &mut [u8], written: &mut u64) -> u32
    ensures { Returned hub (call.default sheet.now out.old) result
        (written.old ∷ []) (written.new ∷ []) (naturals out.new) }
{
    store_length(hub::service().default_sequence(sheet, out), written)
}

// Writing lparse text.
#[unsafe(no_mangle)]
pub extern "C" fn rulehub_lparse(sheet: &[u8], out: &mut [u8], written: &mut u64) -> u32
    ensures { Returned hub (call.lparse sheet.now out.old) result
        (written.old ∷ []) (written.new ∷ []) (naturals out.new) }
{
    store_length(hub::service().lparse(sheet, out), written)
}

// Testing a sequence.
#[unsafe(no_mangle)]
pub extern "C" fn rulehub_test(sheet: &[u8], sequence: &[u8]) -> u32
    ensures { Returned hub (call.test sheet.now sequence.now) result [] [] nothing }
{
    store_test(hub::service().test(sheet, sequence))
}

// Finding the missing chain.
#[unsafe(no_mangle)]
pub extern "C" fn rulehub_missing(
    sheet: &[u8],
    sequence: &[u8],
    out: &mut [u8],
    written: &mut u64,
) -> u32
    ensures { Returned hub (call.missing sheet.now sequence.now out.old) result
        (written.old ∷ []) (written.new ∷ []) (naturals out.new) }
{
    store_length(hub::service().missing(sheet, sequence, out), written)
}

// Writing the unfolded program.
#[unsafe(no_mangle)]
pub extern "C" fn rulehub_unfolded(
    sheet: &[u8],
    sequence: &[u8],
    out: &mut [u32],
    written: &mut u64,
) -> u32
    ensures { Returned hub (call.unfolded sheet.now sequence.now out.old) result
        (written.old ∷ []) (written.new ∷ []) (naturals out.new) }
{
    store_length(hub::service().unfolded(sheet, sequence, out), written)
}

// Writing clauses.
#[unsafe(no_mangle)]
pub extern "C" fn rulehub_clauses(
    sheet: &[u8],
    sequence: &[u8],
    out: &mut [i32],
    written: &mut u64,
    variables: &mut u64,
    clauses: &mut u64,
) -> u32
    ensures { Returned hub (call.clauses sheet.now sequence.now out.old) result
        (written.old ∷ variables.old ∷ clauses.old ∷ [])
        (written.new ∷ variables.new ∷ clauses.new ∷ []) (integers out.new) }
{
    let answer = hub::service().clauses(sheet, sequence, out);
    store_clauses(answer, written, variables, clauses)
}

// Counting the stable models.
#[unsafe(no_mangle)]
pub extern "C" fn rulehub_count(sheet: &[u8], count: &mut u64, verdict: &mut u64) -> u32
    ensures { Returned hub (call.count sheet.now) result
        (count.old ∷ verdict.old ∷ []) (count.new ∷ verdict.new ∷ []) nothing }
{
    store_count(hub::service().count(sheet), count, verdict)
}

// The sheet on which a record's fixed part is completed.
#![tactic(auto)]

ghost use Rattle.std.specs.Prelude.{◌≡◌};
ghost use Rattle.sheet.specs.Sheet.{slot_of};

// Stays: whoever completes a record has an array of 800 bytes for it, and salvage arrays of 85 and of 10 beside it: the library takes no memory from a heap.
// Where a record of a type stands on the sheet.
pub fn slot_of(kind: u64) -> usize
    ensures { result ≡ slot_of kind }
{
    match kind {
        1 => 0,
        10 => 160,
        20 => 320,
        25 | 31 | 61 => 480,
        _ => 640,
    }
}

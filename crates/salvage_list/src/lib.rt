// What became of each record walked, in the lent list (request 11, reading 66), and whether any is kept.
#![tactic(auto)]

ghost use Rattle.std.specs.Prelude.{List, [], ◌∷◌, ◌++◌, ◌≡◌, ◌+◌, ◌≤◌, length, drop};
ghost use Rattle.std.proofs.lemmas.List.Edits.{sets};
ghost use Rattle.salvage_model.specs.Kept.{Marked};
ghost use Rattle.salvage_model.specs.Salvaged.{status_of, fault_number, listed};
ghost use Rattle.salvage_marks.specs.Left.{meant, Left, Planned};
ghost use Rattle.salvage_made.specs.ByMarks.{any_marked};
ghost use Rattle.salvage_list.specs.Listable.{Listable};

use salvage_marks::{Marking, Plan, Torn};

// Whether any record from here on is kept.
pub fn is_any_kept<'a>(torn: Torn<'a>, from: Plan) -> bool
    requires { Planned torn.set torn.file.now torn.end from }
    ensures { (ms : List Marked) → Left torn.entry.set torn.entry.file.now torn.entry.end from ms → result ≡ any_marked ms }
{
    let mut plan = from;
    // Stays: (d) the step is what the record's length says, so that no range counts it.
    while plan.at < torn.end {
        let mark = torn.mark_next(plan);
        if mark.fate.is_kept() {
            return true;
        }
        plan = mark.next;
    }
    false
}

// The four numbers of a record, at a place of the list.
fn put_row(list: &mut [u64], row: usize, at: usize, mark: Marking)
    requires { row + 4 ≤ length list.old }
    ensures { list.new ≡ sets list.old row (at ∷ mark.kind ∷ status_of (meant mark.fate) ∷ fault_number (meant mark.fate) ∷ []) }
{
    let number = mark.fate.number();
    list[row] = at as u64;
    list[row + 1] = mark.kind;
    list[row + 2] = mark.fate.status();
    list[row + 3] = number;
}

// Offset, type, status and number of each record from here on.
pub fn put_list<'a>(torn: Torn<'a>, from: Plan, list: &mut [u64])
    requires { Listable torn.set torn.file.now torn.end from (length list.old) }
    ensures { (ms : List Marked) → Left torn.entry.set torn.entry.file.now torn.entry.end from ms → list.new ≡ listed torn.entry.set from.at ms ++ drop (length (listed torn.entry.set from.at ms)) list.old }
{
    let mut plan = from;
    let mut row: usize = 0;
    // Stays: (d) as above.
    while plan.at < torn.end {
        let mark = torn.mark_next(plan);
        put_row(list, row, plan.at, mark);
        row += 4;
        plan = mark.next;
    }
}

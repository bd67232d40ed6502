// What the new file needs beside the records kept as they stand: how many addenda an item has.
#![tactic(auto)]

ghost use Rattle.std.specs.Prelude.{List, ◌≡◌, ℕ};
ghost use Rattle.file_as_records.specs.Framed.{Body};
ghost use Rattle.salvage_walk.specs.Spans.{Spans};
ghost use Rattle.salvage_made.specs.ByMarks.{addenda_among};

use text::CharacterSet;

// How many records right behind an item are its addenda. Each addendum is counted by one item, so that all counting is one more look at each record.
pub fn addenda_among(set: CharacterSet, file: &[u8], from: usize, end: usize, item: u64) -> u64
    ensures { (bs : List Body) → Spans file.now from bs end → result ≡ addenda_among set item bs }
{
    let mut at = from;
    let mut count: u64 = 0;
    // Stays: (d) the step is what the record's length says, so that no range counts it.
    while at < end {
        let seen = salvage_walk::seen_at(set, file, at, end);
        if !draft_rows::is_own_addendum(item, seen.kind) {
            return count;
        }
        count += 1;
        at = seen.next;
    }
    count
}

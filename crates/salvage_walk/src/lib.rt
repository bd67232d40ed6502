// The records of a torn file one by one: how far the lengths lead, and where records of a sort end.
#![tactic(auto)]

ghost use Rattle.std.specs.Prelude.{List, ◌≡◌, ℕ, ◌+◌, ◌<◌, ◌≤◌, length};
ghost use Rattle.file_as_records.specs.Framed.{Body};
ghost use Rattle.salvage_model.specs.Walked.{walked_from};
ghost use Rattle.salvage_walk.specs.Spans.{Stands, Spans, SeenAs, of_sort, Parted};

use frame::{Cursor, Extent};
use text::CharacterSet;

// How far the walk leads, and over how many records.
#[derive(Clone, Copy)]
pub struct Way {
    pub end: usize,
    pub count: u64,
}

// A record: where its body starts, how long it is, where the next one stands, and its type.
#[derive(Clone, Copy)]
pub struct Seen {
    pub start: usize,
    pub size: usize,
    pub next: usize,
    pub kind: u64,
}

// What is passed over: the records under a cash letter header, those of a stretch behind its 20, the views behind a 61.
#[derive(Clone, Copy)]
pub enum Sort {
    UnderHeader,
    InStretch,
    Views,
}

// The record at an offset before an end, up to which the lengths frame records.
pub fn seen_at(set: CharacterSet, file: &[u8], at: usize, end: usize) -> Seen
    ensures seen { (b : Body) → Stands file.now at b → SeenAs set at b result }
    ensures onward { at < end → at < result.next }
{
    let Some(Extent { start, size }) = Cursor::at(at).frame(file) else {
        return Seen {
            start: end,
            size: 0,
            next: end,
            kind: 0,
        };
    };
    let kind = judge::type_of(set, frame::part_of(file, start, size));
    Seen {
        start,
        size,
        next: start + size,
        kind,
    }
}

// The lengths from the start until CUT, a length below 2 or the first 99.
pub fn walk(set: CharacterSet, file: &[u8]) -> Way
    ensures { Spans file.now 0 (walked_from set (length file.now) file.now 0) result.end × (result.count ≡ length (walked_from set (length file.now) file.now 0)) × (result.end ≤ length file.now) }
{
    let mut at: usize = 0;
    let mut count: u64 = 0;
    // Stays: (d) the step is what the record's length says, so that no range counts it.
    while at < file.len() {
        let Some(Extent { start, size }) = Cursor::at(at).frame(file) else {
            return Way { end: at, count };
        };
        if size < 2 {
            return Way { end: at, count };
        }
        let kind = judge::type_of(set, frame::part_of(file, start, size));
        count += 1;
        at = start + size;
        if kind == 99 {
            return Way { end: at, count };
        }
    }
    Way { end: at, count }
}

fn is_of_sort(sort: Sort, kind: u64) -> bool
    ensures { result ≡ of_sort sort kind }
{
    match sort {
        Sort::UnderHeader => !matches!(kind, 10 | 90 | 99),
        Sort::InStretch => !matches!(kind, 20 | 70),
        Sort::Views => matches!(kind, 50 | 52 | 54),
    }
}

// Where the records of a sort end that stand one after the other from an offset on.
pub fn end_of(set: CharacterSet, file: &[u8], from: usize, end: usize, sort: Sort) -> usize
    ensures { (bs : List Body) → Spans file.now from bs end → Parted set file.now (of_sort sort) from bs end result }
{
    let mut at = from;
    // Stays: (d) the step is what the record's length says, so that no range counts it.
    while at < end {
        let seen = seen_at(set, file, at, end);
        if !is_of_sort(sort, seen.kind) {
            return at;
        }
        at = seen.next;
    }
    at
}

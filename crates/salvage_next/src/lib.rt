// The records of the new file one by one: those that are kept, and the new controls where they belong (request 11, readings 63 and 65).
#![tactic(auto)]

ghost use Rattle.std.specs.Prelude.{false, List, ◌≡◌, eqb};
ghost use Rattle.file_as_records.specs.Framed.{Body};
ghost use Rattle.draft.specs.Values.{Values};
ghost use Rattle.salvage_model.specs.Kept.{Marked};
ghost use Rattle.salvage_walk.specs.Spans.{Spans};
ghost use Rattle.salvage_marks.specs.Left.{is_kept};
ghost use Rattle.salvage_made.specs.ByMarks.{addenda_among};
ghost use Rattle.salvage_next.specs.Cued.{Going, Underway, NextLeft, closes_first, new_control, kept_entry, Cued, Cueing, NextEntry};

use salvage_marks::{Fate, Marking, Plan, Torn};

// Where the making out stands: what is marked next; whether a cash letter is open; whether the file's control has been made out.
#[derive(Clone, Copy)]
pub struct Cue {
    pub plan: Plan,
    pub open: bool,
    pub done: bool,
}

// A record of the new file: whether it is kept as it stands or a new control; its type; the body that it is, or the walked control whose free fields
// it takes (of none: size 0); how many addenda stand behind it; and where the making out stands then.
#[derive(Clone, Copy)]
pub struct Entry {
    pub kept: bool,
    pub kind: u64,
    pub start: usize,
    pub size: usize,
    pub addenda: u64,
    pub next: Cue,
}

// The next record that is not dropped, from here on. Where there is none: the file's control, as though one of no characters had been walked.
fn next_left<'a>(torn: Torn<'a>, from: Plan) -> Marking
    requires { Underway torn.set torn.file.now torn.end from }
    ensures { (ms : List Marked) → Going torn.entry.set torn.entry.file.now torn.entry.end from ms → NextLeft torn.entry.set torn.entry.file.now torn.entry.end from ms result }
{
    let mut plan = from;
    // Stays: (d) the step is what the record's length says, so that no range counts it.
    while plan.at < torn.end {
        let mark = torn.mark_next(plan);
        if !mark.fate.is_dropped() {
            return mark;
        }
        plan = mark.next;
    }
    Marking {
        start: 0,
        size: 0,
        kind: 99,
        fate: Fate::MadeNew,
        next: plan,
    }
}

// Whether a letter that is open is closed before this record: before another begins, and before the file's control.
fn closes_first(fate: Fate, kind: u64) -> bool
    ensures { result ≡ closes_first (is_kept fate) kind }
{
    match fate {
        Fate::Kept => kind == 10,
        Fate::MadeNew | Fate::Dropped(_) => kind == 99,
    }
}

// A new control, with the walked one whose free fields it takes.
fn new_control(kind: u64, start: usize, size: usize, plan: Plan) -> Entry
    ensures { result ≡ new_control kind start size plan }
{
    let next = Cue {
        plan,
        open: false,
        done: kind == 99,
    };
    Entry {
        kept: false,
        kind,
        start,
        size,
        addenda: 0,
        next,
    }
}

// A record that is kept.
fn kept_entry<'a>(torn: Torn<'a>, opened: bool, mark: Marking) -> Entry
    ensures { (bs : List Body) → Spans torn.entry.file.now mark.next.at bs torn.entry.end → result ≡ kept_entry opened mark (addenda_among torn.entry.set mark.kind bs) }
{
    let plan = mark.next;
    let kind = mark.kind;
    let addenda = salvage_pieces::addenda_among(torn.set, torn.file, plan.at, torn.end, kind);
    let next = Cue {
        plan,
        open: opened | (kind == 10),
        done: false,
    };
    Entry {
        kept: true,
        kind,
        start: mark.start,
        size: mark.size,
        addenda,
        next,
    }
}

// The next record of the new file: a letter that is open is closed before another begins and before the file ends.
pub fn next_entry<'a>(torn: Torn<'a>, cue: Cue) -> Entry
    requires { (cue.done ≡ false) × Cueing torn.set torn.file.now torn.end cue }
    ensures { (vs : List Values) → Cued torn.entry.set torn.entry.file.now torn.entry.end cue vs → NextEntry torn.entry.set torn.entry.file.now torn.entry.end cue vs result }
{
    let plan = cue.plan;
    let mark = next_left(torn, plan);
    let kind = mark.kind;
    if cue.open & closes_first(mark.fate, kind) {
        return new_control(90, 0, 0, plan);
    }
    if mark.fate.is_kept() {
        return kept_entry(torn, cue.open, mark);
    }
    let made = if kind == 99 { 99 } else { 90 };
    new_control(made, mark.start, mark.size, mark.next)
}

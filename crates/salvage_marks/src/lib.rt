// What becomes of each record walked, one after the other: kept, made new, or dropped with a number (request 11, readings 63 and 64).
#![tactic(auto)]

ghost use Rattle.std.specs.Prelude.{true, false, ◌||◌, cond, List, ◌∷◌, ◌≡◌, ℕ, ◌≤◌, ◌<◌, eqb, length};
ghost use Rattle.layout.specs.Packing.{Packed};
ghost use Rattle.file_as_records.specs.Framed.{Body};
ghost use Rattle.arrangement.specs.Sound.{indicator, N};
ghost use Rattle.salvage_model.specs.Runs.{groups_of};
ghost use Rattle.salvage_model.specs.Kept.{Marked, kept, out_of_place, any_bundle, sections_of, sections_marks, marks_of};
ghost use Rattle.salvage_model.specs.Salvaged.{status_of, fault_number};
ghost use Rattle.salvage_walk.specs.Spans.{Stands, Spans, SeenAs};
ghost use Rattle.salvage_runs.specs.RunAt.{RunAt};
ghost use Rattle.salvage_marks.specs.Left.{meant, is_kept, is_dropped, Left, Planned, NextMark, GroupFate};

use layout::Layouts;
use passes::Fault;
use salvage_runs::Grouped;
use salvage_walk::{Seen, Sort};
use text::CharacterSet;

// A torn file as far as its lengths lead, and the numbers of the layouts by which its records are judged.
// Stays: the numbers and their fact are two fields here and no `Layouts`. With that for a field, and one lifetime for all, what builds a `Torn` has no
// proof yet; with a second lifetime each caller would have to write two.
#[derive(Clone, Copy)]
pub struct Torn<'a> {
    pub set: CharacterSet,
    pub numbers: &'a [u64],
    pub file: &'a [u8],
    pub end: usize,
    pub ghost packed: { Packed numbers.now },
}

// What becomes of a record: it is kept, made new, or dropped with a fault.
#[derive(Clone, Copy)]
pub enum Fate {
    Kept,
    MadeNew,
    Dropped(Fault),
}

// Where the marking stands: the next record; where the group ends in which it lies; where the records under its cash letter header end, at which
// offset that header stands, whether it is sound alone, and whether it is kept; what becomes of the group.
#[derive(Clone, Copy)]
pub struct Plan {
    pub at: usize,
    pub group: usize,
    pub stop: usize,
    pub heading: usize,
    pub sound: bool,
    pub kept: bool,
    pub fate: Fate,
}

// A record marked: where its body starts, how long it is, its type, and what becomes of it; and where the marking stands then.
#[derive(Clone, Copy)]
pub struct Marking {
    pub start: usize,
    pub size: usize,
    pub kind: u64,
    pub fate: Fate,
    pub next: Plan,
}

impl Fate {
    // The third number of a row of the list (reading 66).
    pub fn status(self) -> u64
        ensures { result ≡ status_of (meant self) }
    {
        match self {
            Fate::Kept => 0,
            Fate::MadeNew => 1,
            Fate::Dropped(_) => 2,
        }
    }

    // The fourth.
    pub fn number(self) -> u64
        ensures { result ≡ fault_number (meant self) }
    {
        match self {
            Fate::Kept | Fate::MadeNew => 0,
            Fate::Dropped(fault) => fault.number(),
        }
    }

    pub fn is_kept(self) -> bool
        ensures { result ≡ is_kept self }
    {
        matches!(self, Fate::Kept)
    }

    pub fn is_dropped(self) -> bool
        ensures { result ≡ is_dropped self }
    {
        matches!(self, Fate::Dropped(_))
    }

    // Kept, or dropped as out of place.
    fn kept_if(test: bool) -> Self
        ensures { meant result ≡ cond test kept out_of_place }
    {
        if test {
            Fate::Kept
        } else {
            Fate::Dropped(Fault::Place)
        }
    }
}

// Under no header.
pub fn plan_at(at: usize) -> Plan
    ensures { ((set : CharacterSet) (file : List ℕ) (end : ℕ) (bs : List Body) → Spans file at bs end → end ≤ 268_435_456 → Left set file end result (sections_marks set (sections_of set bs))) × (result.at ≡ at) }
{
    Plan {
        at,
        group: at,
        stop: at,
        heading: 0,
        sound: false,
        kept: false,
        fate: Fate::Dropped(Fault::Place),
    }
}

impl<'a> Torn<'a> {
    pub fn layouts(self) -> Layouts<'a>
        ensures { result.numbers.now ≡ self.entry.numbers.now }
    {
        Layouts {
            numbers: self.numbers,
        }
    }

    // At the first record of a file, which is kept.
    pub fn plan_of_file(self) -> Plan
        ensures { ((b : Body) (bs : List Body) → Spans self.entry.file.now 0 (b ∷ bs) self.entry.end → self.entry.end ≤ 268_435_456 → Left self.entry.set self.entry.file.now self.entry.end result (marks_of self.entry.set (b ∷ bs))) × (result.at ≡ 0) }
    {
        let next = salvage_walk::seen_at(self.set, self.file, 0, self.end).next;
        Plan {
            at: 0,
            group: next,
            stop: next,
            heading: 0,
            sound: false,
            kept: false,
            fate: Fate::Kept,
        }
    }

    // A header that is sound alone, of a letter of N or, as Annex B has it, with a sound bundle.
    fn is_letter_kept(
        self,
        heading: usize,
        from: usize,
        stop: usize,
        body: &'a [u8],
        sound: bool,
    ) -> bool
        requires { sound ≡ true → RunAt self.set self.file.now heading from stop }
        ensures { (sound ≡ false → result ≡ false) × (sound ≡ true → (w : RunAt self.entry.set self.entry.file.now heading from stop) → body.now ≡ w.header → result ≡ (eqb (indicator self.entry.set w.header) N || any_bundle self.entry.set w.header (groups_of self.entry.set w.bodies))) }
    {
        if !sound {
            return false;
        }
        if salvage_runs::indicator_of(self.set, body) == 0x4E {
            return true;
        }
        salvage_runs::any_bundle(self.set, self.layouts(), self.file, heading, from, stop)
    }

    // A cash letter header.
    fn letter_begun(self, seen: Seen, plan: Plan) -> Marking
        requires { (plan.group ≤ plan.at) × (plan.stop ≤ plan.at) × (plan.at < self.end) × (seen.kind ≡ 10) × Planned self.set self.file.now self.end plan × ((b : Body) → Stands self.file.now plan.at b → SeenAs self.set plan.at b seen) }
        ensures { (ms : List Marked) → Left self.entry.set self.entry.file.now self.entry.end plan ms → NextMark self.entry.set self.entry.file.now self.entry.end plan ms result }
    {
        let at = plan.at;
        let start = seen.start;
        let size = seen.size;
        let from = seen.next;
        let body = frame::part_of(self.file, start, size);
        let stop = salvage_walk::end_of(self.set, self.file, from, self.end, Sort::UnderHeader);
        let sound = salvage_runs::is_sound_alone(self.set, self.layouts(), 10, body);
        let kept = self.is_letter_kept(at, from, stop, body, sound);
        let next = Plan {
            at: from,
            group: from,
            stop,
            heading: at,
            sound,
            kept,
            fate: Fate::Dropped(Fault::Place),
        };
        Marking {
            start,
            size,
            kind: 10,
            fate: Fate::kept_if(kept),
            next,
        }
    }

    // A record that lies under no header.
    fn outside_letters(self, seen: Seen, plan: Plan) -> Marking
        requires { (plan.group ≤ plan.at) × (plan.stop ≤ plan.at) × (plan.at < self.end) × Planned self.set self.file.now self.end plan × ((b : Body) → Stands self.file.now plan.at b → SeenAs self.set plan.at b seen) }
        ensures { (ms : List Marked) → Left self.entry.set self.entry.file.now self.entry.end plan ms → NextMark self.entry.set self.entry.file.now self.entry.end plan ms result }
    {
        let kind = seen.kind;
        if kind == 10 {
            return self.letter_begun(seen, plan);
        }
        let next = plan_at(seen.next);
        let fate = if (kind == 99) | (plan.kept & (kind == 90)) {
            Fate::MadeNew
        } else {
            Fate::Dropped(Fault::Place)
        };
        Marking {
            start: seen.start,
            size: seen.size,
            kind,
            fate,
            next,
        }
    }

    // What becomes of the records of a group.
    fn group_fate(self, plan: Plan, group: Grouped) -> Fate
        requires { plan.sound ≡ true → RunAt self.set self.file.now plan.heading plan.at group.end }
        ensures { GroupFate self.entry.set self.entry.file.now plan group result }
    {
        if !(group.group.is_run() & plan.sound) {
            return Fate::Dropped(Fault::Place);
        }
        match salvage_runs::run_fault(
            self.set,
            self.layouts(),
            self.file,
            plan.heading,
            plan.at,
            group.end,
        ) {
            Err(fault) => Fate::Dropped(fault),
            Ok(()) => Fate::kept_if(plan.kept),
        }
    }

    // The first record of a group under a header.
    fn group_begun(self, seen: Seen, plan: Plan) -> Marking
        requires { (plan.group ≤ plan.at) × (plan.at < plan.stop) × Planned self.set self.file.now self.end plan × ((b : Body) → Stands self.file.now plan.at b → SeenAs self.set plan.at b seen) }
        ensures { (ms : List Marked) → Left self.entry.set self.entry.file.now self.entry.end plan ms → NextMark self.entry.set self.entry.file.now self.entry.end plan ms result }
    {
        let group = salvage_runs::group_at(self.set, self.file, plan.at, plan.stop);
        let fate = self.group_fate(plan, group);
        let next = Plan {
            at: seen.next,
            group: group.end,
            fate,
            ..plan
        };
        Marking {
            start: seen.start,
            size: seen.size,
            kind: seen.kind,
            fate,
            next,
        }
    }

    // The next record marked.
    pub fn mark_next(self, plan: Plan) -> Marking
        requires { (plan.at < self.end) × Planned self.set self.file.now self.end plan }
        ensures { (ms : List Marked) → Left self.entry.set self.entry.file.now self.entry.end plan ms → NextMark self.entry.set self.entry.file.now self.entry.end plan ms result }
    {
        let at = plan.at;
        let seen = salvage_walk::seen_at(self.set, self.file, at, self.end);
        if at < plan.group {
            return Marking {
                start: seen.start,
                size: seen.size,
                kind: seen.kind,
                fate: plan.fate,
                next: Plan {
                    at: seen.next,
                    ..plan
                },
            };
        }
        if at < plan.stop {
            return self.group_begun(seen, plan);
        }
        self.outside_letters(seen, plan)
    }
}

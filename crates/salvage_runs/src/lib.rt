// The runs of a torn file: what lies under a cash letter header, and the first fault of a run under it.
#![tactic(auto)]

ghost use Rattle.std.specs.Prelude.{true, List, [], ◌≡◌, ℕ, ◌<◌, get_or};
ghost use Rattle.standing.specs.Standing.{standing, onward, capped_figures};
ghost use Rattle.file_as_records.specs.Framed.{Body};
ghost use Rattle.arrangement.specs.Sound.{indicator};
ghost use Rattle.salvage_model.specs.Runs.{groups_of, sound_alone, run_fault};
ghost use Rattle.salvage_model.specs.Kept.{any_bundle};
ghost use Rattle.salvage_walk.specs.Spans.{Spans};
ghost use Rattle.salvage_runs.specs.Places.{placed_at};
ghost use Rattle.salvage_runs.specs.RunAt.{read_through, is_run, is_bundle, RunAt, GroupAt};

use layout::Layouts;
use passes::Fault;
use salvage_walk::Sort;
use standing::Standing;
use text::CharacterSet;

// What a group under a header is: the run of a 20 or of a 61, or records in no run.
#[derive(Clone, Copy)]
pub enum Group {
    Bundle,
    Credit,
    Loose,
}

impl Group {
    pub fn is_run(self) -> bool
        ensures { result ≡ is_run self }
    {
        !matches!(self, Group::Loose)
    }

    pub fn is_bundle(self) -> bool
        ensures { result ≡ is_bundle self }
    {
        matches!(self, Group::Bundle)
    }
}

// A group under a header: where it ends, what it is, and the type of its first record.
#[derive(Clone, Copy)]
pub struct Grouped {
    pub end: usize,
    pub group: Group,
    pub kind: u64,
}

// Whether a record is one of a type and sound alone.
pub fn is_sound_alone<'a>(
    set: CharacterSet,
    layouts: Layouts<'a>,
    kind: u64,
    body: &'a [u8],
) -> bool
    ensures { result ≡ sound_alone set kind body.now }
{
    if body.len() < 2 {
        return false;
    }
    let stated = judge::type_of(set, body);
    if stated != kind {
        return false;
    }
    judge::judge_as(set, layouts, stated, body).is_ok()
}

// The figures behind a 01 and a cash letter header and nothing else. Whatever has not come yet stands at the header.
fn behind_header(set: CharacterSet, file: &[u8], heading: usize) -> Standing
    ensures { result ≡ placed_at (capped_figures (onward set file.now (capped_figures (onward set file.now (capped_figures (standing set file.now [])) 1 heading)) 10 heading)) heading }
{
    let first = standing::moved(set, file, Standing::start(), 1, heading);
    let mut s = standing::moved(set, file, first, 10, heading);
    s.item = heading;
    s.header = heading;
    s.heading = heading;
    s
}

// A run's first fault under a header that is sound alone, where the reader would not read it through.
pub fn run_fault<'a>(
    set: CharacterSet,
    layouts: Layouts<'a>,
    file: &'a [u8],
    heading: usize,
    from: usize,
    end: usize,
) -> Result<(), Fault>
    requires { RunAt set file.now heading from end }
    ensures { (w : RunAt set file.now heading from end) → result ≡ read_through (run_fault set w.header w.bodies) }
{
    let mut s = behind_header(set, file, heading);
    let mut at = from;
    // Stays: (d) the step is what the record's length says, so that no range counts it.
    while at < end {
        let seen = salvage_walk::seen_at(set, file, at, end);
        let body = frame::part_of(file, seen.start, seen.size);
        let kind = passes::judge_next(set, layouts, file, s, at, body)?;
        s = standing::moved(set, file, s, kind, at);
        at = seen.next;
    }
    if s.last == 50 {
        return Err(Fault::Place);
    }
    Ok(())
}

// The group that begins at an offset under a header.
pub fn group_at(set: CharacterSet, file: &[u8], at: usize, end: usize) -> Grouped
    ensures group { at < end → (bs : List Body) → Spans file.now at bs end → GroupAt set file.now at bs end result }
{
    let seen = salvage_walk::seen_at(set, file, at, end);
    let kind = seen.kind;
    let behind = seen.next;
    if kind == 61 {
        let stop = salvage_walk::end_of(set, file, behind, end, Sort::Views);
        return Grouped {
            end: stop,
            group: Group::Credit,
            kind,
        };
    }
    if kind != 20 {
        return Grouped {
            end: behind,
            group: Group::Loose,
            kind,
        };
    }
    let stop = salvage_walk::end_of(set, file, behind, end, Sort::InStretch);
    if stop < end {
        let closing = salvage_walk::seen_at(set, file, stop, end);
        if closing.kind == 70 {
            return Grouped {
                end: closing.next,
                group: Group::Bundle,
                kind,
            };
        }
    }
    Grouped {
        end: stop,
        group: Group::Loose,
        kind,
    }
}

// Whether a bundle under a header is sound.
pub fn any_bundle<'a>(
    set: CharacterSet,
    layouts: Layouts<'a>,
    file: &'a [u8],
    heading: usize,
    from: usize,
    end: usize,
) -> bool
    requires { RunAt set file.now heading from end }
    ensures { (w : RunAt set file.now heading from end) → result ≡ any_bundle set w.header (groups_of set w.bodies) }
{
    let mut at = from;
    // Stays: (d) the step is what the group's records take, so that no range counts it.
    while at < end {
        let Grouped {
            end: stop,
            group,
            ..
        } = group_at(set, file, at, end);
        if group.is_bundle() && run_fault(set, layouts, file, heading, at, stop).is_ok() {
            return true;
        }
        at = stop;
    }
    false
}

// Field 8 of a cash letter header, position 43.
pub fn indicator_of(set: CharacterSet, body: &[u8]) -> u8
    ensures { result ≡ indicator set body.now }
{
    let stated = frame::part_of(body, 42, 1).first().copied();
    text::capital_of(set, stated.unwrap_or(0))
}

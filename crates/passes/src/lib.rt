// The two passes of the reader over a file in lent memory: the first decides, the second writes the rows.
#![tactic(auto)]

ghost use Rattle.std.specs.Prelude.{cond, ◌≡◌, List, [], ◌∷◌, ◌++◌, ℕ, ◌+◌, ◌*◌, ◌<◌, ◌≤◌, length, drop, Err};
ghost use Rattle.std.proofs.lemmas.List.Edits.{sets};
ghost use Rattle.standing.specs.Standing.{capped_figures, Roomy};
ghost use Rattle.passes.specs.Answers.{Refused, number_of, field_of};
ghost use Rattle.passes.specs.CheckOrder.{agreement, fault_of, turn_of};
ghost use Rattle.passes.specs.Rows.{amount_in, row_of, rows_of};
ghost use Rattle.passes.specs.Reading.{step_of, ended_with, surveyed, Counted};

use frame::{Cursor, Extent};
use judge::Flaw;
use layout::Layouts;
use measure::{Items, Records, Sums};
use standing::Standing;
use text::CharacterSet;

// Why a file is refused.
#[derive(Clone, Copy)]
pub enum Fault {
    Size,
    Room,
    Cut,
    Length,
    UnknownType,
    Place,
    // The lowest field at fault.
    Field(usize),
    Link(usize),
    Total(usize),
    Open,
    After,
    // Of the later calls of document 02; a reading never gives one of them.
    Duplicate,
    Full,
    NoEntry,
    Range,
    Nothing,
    Book,
}

// What is found of one record in its place: its type, or a fault.
pub type Turn = Result<u64, Fault>;

// What stands at a record boundary that is not the end: a good record's type and length, or a fault.
pub type Step = Result<(u64, usize), Fault>;

// What an accepted file adds up to.
#[derive(Clone, Copy)]
pub struct Totals {
    pub records: Records,
    pub letters: u64,
    pub bundles: u64,
    pub items: Items,
    pub sums: Sums,
}

// Why a file is refused and where: the fault, the record (from 1), and the offset of its length field.
#[derive(Clone, Copy)]
pub struct Refusal {
    pub fault: Fault,
    pub place: u64,
    pub offset: usize,
}

pub type Answer = Result<Totals, Refusal>;

impl Refusal {
    // Of the file as a whole: SIZE, or ROOM with what is needed as the record.
    pub fn of_file(fault: Fault, place: u64) -> Self
        ensures { Err result ≡ Refused fault place 0 }
    {
        Refusal {
            fault,
            place,
            offset: 0,
        }
    }
}

impl From<Flaw> for Fault {
    ghost from_gives = { λ flaw fault. fault ≡ fault_of flaw };

    fn from(flaw: Flaw) -> Self {
        match flaw {
            Flaw::Length => Fault::Length,
            Flaw::UnknownType => Fault::UnknownType,
            Flaw::Field(n) => Fault::Field(n),
        }
    }
}

impl Fault {
    // The number of documents 01 and 02.
    pub fn number(self) -> u64
        ensures { result ≡ number_of self }
    {
        match self {
            Fault::Size => 1,
            Fault::Room => 2,
            Fault::Cut => 3,
            Fault::Length => 4,
            Fault::UnknownType => 5,
            Fault::Place => 6,
            Fault::Field(_) => 7,
            Fault::Link(_) => 8,
            Fault::Total(_) => 9,
            Fault::Open => 10,
            Fault::After => 11,
            Fault::Duplicate => 12,
            Fault::Full => 13,
            Fault::NoEntry => 15,
            Fault::Range => 16,
            Fault::Nothing => 17,
            Fault::Book => 20,
        }
    }

    // The field at fault, 0 for the whole record.
    pub fn field(self) -> usize
        ensures { result ≡ field_of self }
    {
        match self {
            Fault::Field(n) | Fault::Link(n) | Fault::Total(n) => n,
            _ => 0,
        }
    }
}

// The last checks of a record that is sound alone and in its place: LINK, then TOTAL.
pub fn agrees(set: CharacterSet, file: &[u8], s: Standing, at: usize, kind: u64) -> Turn
    requires { Roomy s }
    ensures { result ≡ agreement set file.now s at kind }
{
    if let Some(field) = agree::link_fault(set, file, s, kind, at) {
        return Err(Fault::Link(field));
    }
    if let Some(field) = agree::total_fault(set, file, s, kind, at) {
        return Err(Fault::Total(field));
    }
    Ok(kind)
}

// The checks of one record in its place, in document 01's order.
pub fn judge_next<'a>(
    set: CharacterSet,
    layouts: Layouts<'a>,
    file: &'a [u8],
    s: Standing,
    at: usize,
    body: &'a [u8],
) -> Turn
    requires { Roomy s }
    ensures { result ≡ turn_of set file.now s at body.now }
{
    if body.len() < 2 {
        return Err(Fault::Length);
    }
    let kind = judge::type_of(set, body);
    if !order::is_carried(kind) {
        return Err(Fault::UnknownType);
    }
    if !order::may_follow(s.inside, s.last, s.present, kind) {
        return Err(Fault::Place);
    }
    judge::judge_as(set, layouts, kind, body)?;
    agrees(set, file, s, at, kind)
}

fn record_at<'a>(
    set: CharacterSet,
    layouts: Layouts<'a>,
    file: &'a [u8],
    s: Standing,
    at: usize,
) -> Step
    requires { Roomy s }
    ensures { result ≡ step_of set file.now s at }
{
    if s.last == 99 {
        return Err(Fault::After);
    }
    let Some(Extent { start, size }) = Cursor::at(at).frame(file) else {
        return Err(Fault::Cut);
    };
    let body = frame::part_of(file, start, size);
    let kind = judge_next(set, layouts, file, s, at, body)?;
    Ok((kind, size))
}

// At the end of the bytes.
fn ended_at(s: Standing, at: usize) -> Answer
    requires { Roomy s × (capped_figures s ≡ s) }
    ensures { result ≡ ended_with s at }
{
    if s.last == 99 {
        return Ok(Totals {
            records: s.records,
            letters: s.letters,
            bundles: s.bundles,
            items: s.items,
            sums: s.whole,
        });
    }
    Err(Refusal {
        fault: Fault::Open,
        place: s.records.0 + 1,
        offset: at,
    })
}

// The first pass, by the layouts that the caller lends.
fn survey_by<'a>(layouts: Layouts<'a>, file: &'a [u8]) -> Answer
    ensures { (result ≡ surveyed file.now) × Counted file.now result }
{
    if file.len() < 1 {
        return Err(Refusal::of_file(Fault::Size, 0));
    }
    if 268_435_456 < file.len() {
        return Err(Refusal::of_file(Fault::Size, 0));
    }
    let set = text::set_of(file);
    let mut s = Standing::start();
    let mut at: usize = 0;
    // Stays: the step is what the record's length says, so that no range counts it.
    while at < file.len() {
        match record_at(set, layouts, file, s, at) {
            Err(fault) => {
                return Err(Refusal {
                    fault,
                    place: s.records.0 + 1,
                    offset: at,
                });
            }
            Ok((kind, size)) => {
                s = standing::moved(set, file, s, kind, at);
                at = at + 4 + size;
            }
        }
    }
    ended_at(s, at)
}

// The first pass: the answer, whatever the table. The layouts are laid out once for the whole file.
pub fn survey(file: &[u8]) -> Answer
    ensures { (result ≡ surveyed file.now) × Counted file.now result }
{
    let numbers = layout::table();
    let layouts = Layouts { numbers: &numbers };
    survey_by(layouts, file)
}

// The debit cents of the bundle that a 70 closes: as its items add up, not as the 70, whose length field stands at an offset, states them.
fn debit_of_bundle(file: &[u8], s: Standing, offset: usize) -> u64
    ensures { result ≡ s.bundle.debit.0 }
{
    s.bundle.debit.0
}

// An item's amount, and for a control record the debit cents as added up.
fn amount_in(set: CharacterSet, file: &[u8], s: Standing, kind: u64, offset: usize) -> u64
    requires { capped_figures s ≡ s }
    ensures { result ≡ amount_in set file.now s kind offset }
{
    match kind {
        70 => debit_of_bundle(file, s, offset),
        90 => s.letter.debit.0,
        99 => s.whole.debit.0,
        _ => standing::amount_at(set, file, kind, offset),
    }
}

// A record's row, from `base` on; `s` stands after the record.
fn put_row(
    set: CharacterSet,
    table: &mut [u64],
    base: usize,
    file: &[u8],
    s: Standing,
    kind: u64,
    offset: usize,
    size: usize,
)
    requires { (base + 7 ≤ length table.old) × (capped_figures s ≡ s) }
    ensures { table.new ≡ sets table.old base (row_of set file.now s kind offset size) }
{
    let outside_letter = (kind == 1) | (kind == 99);
    let in_bundle = s.inside | (kind == 70);
    let amount = amount_in(set, file, s, kind, offset);
    table[base] = kind;
    table[base + 1] = offset as u64;
    table[base + 2] = size as u64;
    table[base + 3] = if outside_letter { 0 } else { s.letters };
    table[base + 4] = if in_bundle { s.opened } else { 0 };
    table[base + 5] = if s.inside { s.ordinal } else { 0 };
    table[base + 6] = amount;
}

// The second pass: a row for each record.
pub fn fill(file: &[u8], table: &mut [u64])
    requires { (length file.now ≤ 268_435_456) × (length (rows_of file.now) ≤ length table.old) }
    ensures { table.new ≡ rows_of file.now ++ drop (length (rows_of file.now)) table.old }
{
    let set = text::set_of(file);
    let mut s = Standing::start();
    let mut at: usize = 0;
    let mut base: usize = 0;
    // Stays: as in `survey_by`.
    while at < file.len() {
        let Some(Extent { start, size }) = Cursor::at(at).frame(file) else {
            return;
        };
        let kind = judge::type_of(set, frame::part_of(file, start, size));
        s = standing::moved(set, file, s, kind, at);
        put_row(set, table, base, file, s, kind, at, size);
        base += 7;
        at = start + size;
    }
}

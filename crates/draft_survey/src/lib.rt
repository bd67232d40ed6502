// The writer's first pass: whether a draft can be made out, and how many bytes it comes to. No byte of the buffer is touched.
#![tactic(auto)]

ghost use Rattle.std.specs.Prelude.{List, [], true, ◌≡◌, ℕ, ◌+◌, ◌/◌, ◌≤◌, length, get_or, drop};
ghost use Rattle.text.specs.declared.character_set.CharacterSet.TheVariants.{Ascii};
ghost use Rattle.standing.specs.History.{Entry};
ghost use Rattle.standing.specs.Standing.{standing, Roomy};
ghost use Rattle.order.specs.MayFollow.{is_carried};
ghost use Rattle.draft.specs.Owned.{Owned};
ghost use Rattle.draft.specs.Values.{Values, layout_of, values_of_row, values_of_rows, set_of_text, values_of_draft};
ghost use Rattle.draft.specs.Completed.{addenda_behind};
ghost use Rattle.draft.specs.Drafted.{offset_of, rows_ended, answer_from};
ghost use Rattle.draft_survey.specs.JudgedRow.{JudgedRow};
ghost use Rattle.draft_survey.specs.CappedOutcome.{capped_outcome};
ghost use Rattle.sheet.specs.Sheet.{OnSheet};

use draft::Outcome;
use draft_rows::Row;
use layout::Layouts;
use passes::{Fault, Refusal, Totals, Turn};
use standing::Standing;
use text::CharacterSet;

// The set of a draft's text, told by the two bytes where the first row's fixed part begins.
#[tactic(auto, unfolding(draft::specs::Values::set_of_text))]
pub fn set_of_text<'a>(text: &'a [u8], draft: &'a [u64]) -> CharacterSet
    ensures { 10 ≤ length draft.now → result ≡ set_of_text text.now draft.now }
{
    if draft.len() < 10 {
        return CharacterSet::Ascii;
    }
    let start = draft[1] as usize;
    match text.get(start..) {
        Some([0xF0, 0xF1, ..]) => CharacterSet::Ebcdic,
        _ => CharacterSet::Ascii,
    }
}

// The checks of one record in its place, with so many addenda behind it: PLACE, FIELD, LINK, TOTAL. The record's fixed part then stands on the sheet.
// `rows` begin with its row, `own` are the numbers of its layout.
pub fn judge_counted<'a>(
    set: CharacterSet,
    own: &'a [u64],
    text: &'a [u8],
    rows: &'a [u64],
    addenda: u64,
    s: Standing,
    sheet: &mut [u8],
) -> Turn
    requires { (is_carried (get_or rows.now 0 0) ≡ true → Owned (layout_of (get_or rows.now 0 0)) own.now) × Roomy s × (10 ≤ length rows.now) × (length sheet.old ≡ 800) }
    ensures { (file : List ℕ) (past : List Entry) (vs : List Values) → addenda ≡ addenda_behind (get_or rows.now 0 0) vs → OnSheet file past sheet.old s → JudgedRow (values_of_row set text.now rows.now) vs file past s result sheet.new }
{
    let kind = rows[0];
    if !order::may_follow(s.inside, s.last, s.present, kind) {
        return Err(Fault::Place);
    }
    let row = Row { own, rows };
    let at = sheet::slot_of(kind);
    let body = at + 4;
    let fixed = completing::complete(set, text, row, addenda, s, sheet, body);
    let end = body + fixed;
    if let Some(field) = fitting::field_fault(row, text, addenda, &sheet[body..end]) {
        return Err(Fault::Field(field));
    }
    if let Some(part) = fitting::part_fault(set, row, text) {
        return Err(Fault::Field(part));
    }
    passes::agrees(CharacterSet::Ascii, sheet, s, at, kind)
}

// The same of a row, whose addenda are counted in the rows behind it.
fn judge_row<'a>(
    set: CharacterSet,
    own: &'a [u64],
    text: &'a [u8],
    rows: &'a [u64],
    s: Standing,
    sheet: &mut [u8],
) -> Turn
    requires { (is_carried (get_or rows.now 0 0) ≡ true → Owned (layout_of (get_or rows.now 0 0)) own.now) × Roomy s × (10 ≤ length rows.now) × (length sheet.old ≡ 800) }
    ensures { (file : List ℕ) (past : List Entry) (n : ℕ) → length rows.now / 10 ≡ n + 1 → OnSheet file past sheet.old s → JudgedRow (values_of_row set text.now rows.now) (values_of_rows set text.now n (drop 10 rows.now)) file past s result sheet.new }
{
    let addenda = draft_rows::addenda_behind(rows);
    judge_counted(set, own, text, rows, addenda, s, sheet)
}

// Where the rows end.
pub fn rows_ended(s: Standing, bytes: usize) -> Outcome
    requires { Roomy s }
    ensures { (file : List ℕ) (past : List Entry) (sheet : List ℕ) → OnSheet file past sheet s → bytes ≡ offset_of (length file) → result ≡ capped_outcome (rows_ended file past (standing Ascii file past)) }
{
    if s.last == 99 {
        let sums = s.whole;
        let records = s.records;
        let items = s.items;
        let totals = Totals {
            records,
            letters: s.letters,
            bundles: s.bundles,
            items,
            sums,
        };
        return Ok((bytes, totals));
    }
    Err(Refusal {
        fault: Fault::Place,
        place: s.records.0 + 1,
        offset: bytes,
    })
}

// The answer to a draft, whatever the buffer; 2^64 - 1 bytes stand for as many or more.
pub fn survey_draft<'a>(layouts: Layouts<'a>, text: &'a [u8], draft: &'a [u64]) -> Outcome
    ensures { result ≡ capped_outcome (answer_from (values_of_draft text.now draft.now) [] []) }
{
    let set = set_of_text(text, draft);
    let mut sheet: [u8; 800] = [0; 800];
    let mut s = Standing::start();
    let mut bytes: usize = 0;
    let mut at: usize = 0;
    // Stays: a record is judged with the rows behind its own, among which its addenda are counted. `chunks_exact` gives the row alone.
    while 10 <= draft.len() - at {
        let rows = &draft[at..];
        let own = layouts.own_numbers(rows[0]);
        match judge_row(set, own, text, rows, s, &mut sheet) {
            Err(fault) => {
                return Err(Refusal {
                    fault,
                    place: s.records.0 + 1,
                    offset: bytes,
                });
            }
            Ok(kind) => {
                let size = fitting::size_of(Row { own, rows });
                bytes = bytes.saturating_add(size.saturating_add(4));
                s = standing::moved(CharacterSet::Ascii, &sheet, s, kind, sheet::slot_of(kind));
                at += 10;
            }
        }
    }
    rows_ended(s, bytes)
}

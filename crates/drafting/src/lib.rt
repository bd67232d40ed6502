// The draft of an accepted file.
#![tactic(auto)]

ghost use Rattle.std.specs.Prelude.{true, ◌&&◌, ◌++◌, ◌≡◌, ◌+◌, ◌≤◌, ◌<◌, eqb, length, get_or, drop};
ghost use Rattle.std.proofs.lemmas.List.Edits.{sets};
ghost use Rattle.text.specs.Characters.{is_blank};
ghost use Rattle.text.specs.DataTypes.{every};
ghost use Rattle.layout.specs.Layouts.{bundle_control};
ghost use Rattle.layout.specs.Packing.{is_whole};
ghost use Rattle.file_as_records.specs.Framed.{field_of};
ghost use Rattle.drafting.specs.ByNumbers.{seven_sizes, parts_own};
ghost use Rattle.drafting.specs.DraftOf.{row_of, draft_rows_of, draft_answer_of, draft_table_of, DraftOfItself};

use frame::{Cursor, Extent};
use layout::Layouts;
use passes::{Answer, Fault, Refusal};
use text::CharacterSet;

// The size that a record states for its i-th part, 0 where it has none, by the numbers of its kind.
fn size_of_part<'a>(set: CharacterSet, own: &'a [u64], i: usize, body: &'a [u8]) -> u64
    requires { (is_whole own.now ≡ true) × (i < 7) }
    ensures { result ≡ get_or (seven_sizes set (parts_own own.now) body.now) i 0 }
{
    if own.len() == 0 {
        return 0;
    }
    let header = own[0];
    let count = layout::parts_in(header);
    if count <= i {
        return 0;
    }
    let first = layout::fields_in(header) + 1 - count;
    judge::stated_size(set, own[first + i], body)
}

// The sizes that a record states for its parts, in seven numbers from a place of the draft on, 0 behind the last.
fn put_sizes<'a>(set: CharacterSet, own: &'a [u64], body: &'a [u8], draft: &mut [u64], base: usize)
    requires { (is_whole own.now ≡ true) × (base + 7 ≤ length draft.old) }
    ensures { draft.new ≡ sets draft.old base (seven_sizes set (parts_own own.now) body.now) }
{
    for i in 0..7 {
        draft[base + i] = size_of_part(set, own, i, body);
    }
}

// Whether a bundle control record leaves its MICR total blank (70.4, positions 19 to 30).
fn leaves_micr_blank(set: CharacterSet, kind: u64, body: &[u8]) -> bool
    ensures { result ≡ (eqb kind 70 && every (is_blank set) (field_of bundle_control 4 body.now)) }
{
    if kind != 70 {
        return false;
    }
    text::all_blank(set, frame::part_of(body, 18, 12))
}

// A record's row, from `base` on; its body starts at `start` in the file.
pub fn put_row<'a>(
    set: CharacterSet,
    layouts: Layouts<'a>,
    body: &'a [u8],
    start: usize,
    draft: &mut [u64],
    base: usize,
)
    requires { base + 10 ≤ length draft.old }
    ensures { draft.new ≡ sets draft.old base (row_of set body.now start) }
{
    let kind = judge::type_of(set, body);
    let blank = leaves_micr_blank(set, kind, body);
    draft[base] = kind;
    draft[base + 1] = start as u64;
    draft[base + 2] = standing::one_if(blank);
    put_sizes(set, layouts.own_numbers(kind), body, draft, base + 3);
}

// The second pass: a row for each record.
fn fill<'a>(layouts: Layouts<'a>, file: &'a [u8], draft: &mut [u64])
    requires { (length file.now ≤ 268_435_456) × (length (draft_rows_of file.now) ≤ length draft.old) }
    ensures { draft.new ≡ draft_rows_of file.now ++ drop (length (draft_rows_of file.now)) draft.old }
{
    let set = text::set_of(file);
    let mut at: usize = 0;
    let mut base: usize = 0;
    // Stays: a turn steps by the length that stands in the file, and a row by ten: no method of a slice cuts by what it reads.
    while at < file.len() {
        let Some(Extent { start, size }) = Cursor::at(at).frame(file) else {
            return;
        };
        put_row(
            set,
            layouts,
            frame::part_of(file, start, size),
            start,
            draft,
            base,
        );
        base += 10;
        at = start + size;
    }
}

// The answer to a file, and in the lent draft the rows of an accepted one.
pub fn draft_of(file: &[u8], draft: &mut [u64]) -> Answer
    ensures answer { result ≡ draft_answer_of file.now (length draft.old) }
    ensures rows { draft.new ≡ draft_table_of file.now draft.old }
    ensures itself { DraftOfItself file.now result draft.new }
{
    let totals = passes::survey(file)?;
    let needed = totals.records.0;
    if (draft.len() as u64) / 10 < needed {
        return Err(Refusal::of_file(Fault::Room, needed));
    }
    let numbers = layout::table();
    let layouts = Layouts { numbers: &numbers };
    fill(layouts, file, draft);
    Ok(totals)
}

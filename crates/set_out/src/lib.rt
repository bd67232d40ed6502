// The writer's second pass: a draft that can be made out is set out in the lent buffer, record behind record. The writer of a file lends the rest of
// the buffer to the writer of a bundle, and that one the rest to the writer of a record.
#![tactic(auto)]

ghost use Rattle.std.specs.Prelude.{[], ◌∷◌, ◌++◌, ◌≡◌, ◌+◌, ◌≤◌, length, get_or, drop};
ghost use Rattle.std.proofs.lemmas.List.Edits.{sets};
ghost use Rattle.file_as_records.specs.Framed.{length_field, framed};
ghost use Rattle.draft.specs.Values.{layout_of, values_of_row};
ghost use Rattle.draft.specs.Completed.{all_parts, all_sizes};
ghost use Rattle.draft.specs.Drafted.{made};
ghost use Rattle.set_out.specs.SetOut.{values_in, Fits, Ready, Onward, RowsSetOut, ReadyOne};

use draft_rows::Row;
use layout::Layouts;
use standing::Standing;
use text::CharacterSet;

// How far the setting out has come: numbers of the draft, bytes of the buffer, and what then stands before the next record.
#[derive(Clone, Copy)]
pub struct Progress {
    pub numbers: usize,
    pub bytes: usize,
    pub standing: Standing,
}

// The four bytes of a length, high byte first.
fn put_length(out: &mut [u8], size: usize)
    requires { 4 ≤ length out.old }
    ensures { out.new ≡ sets out.old 0 (length_field size) }
{
    out[..4].copy_from_slice(&size.to_be_bytes()[4..]);
}

// The parts of a record, one after the other, behind its length and its fixed part.
fn put_parts<'a>(set: CharacterSet, text: &[u8], row: Row<'a>, out: &mut [u8])
    requires { 4 + ((layout_of (get_or row.rows.now 0 0)).fixed_length + all_sizes (values_of_row set text.now row.rows.now).parts) ≤ length out.old }
    ensures { out.new ≡ sets out.old (4 + (layout_of (get_or row.entry.rows.now 0 0)).fixed_length) (all_parts (values_of_row set text.now row.entry.rows.now).parts) }
{
    let start = row.rows[1] as usize;
    let mut place = row.fixed_length();
    for (i, part) in row.parts().iter().enumerate() {
        let size = row.rows[3 + i] as usize;
        let data_type = layout::data_type_of(*part / 0x100_0000 % 0x100);
        completing::put_piece(set, data_type, text, start, place, size, out, 4 + place);
        place += size;
    }
}

// One record: its length, its fixed part, which stands completed on the sheet, and its parts. How many bytes it takes.
pub fn write_record<'a>(
    set: CharacterSet,
    text: &[u8],
    row: Row<'a>,
    fixed: &[u8],
    out: &mut [u8],
) -> usize
    requires { (length fixed.now ≡ (layout_of (get_or row.rows.now 0 0)).fixed_length) × (4 + (length fixed.now + all_sizes (values_of_row set text.now row.rows.now).parts) ≤ length out.old) }
    ensures { (result ≡ 4 + (length fixed.now + all_sizes (values_of_row set text.now row.entry.rows.now).parts)) × (out.new ≡ framed ((fixed.now ++ all_parts (values_of_row set text.now row.entry.rows.now).parts) ∷ []) ++ drop result out.old) }
{
    let size = fitting::size_of(row);
    put_length(out, size);
    copying::copy_bytes(fixed, 0, fixed.len(), out, 4);
    put_parts(set, text, row, out);
    4 + size
}

// The record of the first row, with so many addenda behind it: completed on the sheet, and written.
pub fn write_counted<'a>(
    set: CharacterSet,
    layouts: Layouts<'a>,
    text: &[u8],
    rows: &'a [u64],
    addenda: u64,
    s: Standing,
    sheet: &mut [u8],
    out: &mut [u8],
) -> Progress
    requires { (10 ≤ length rows.now) × ReadyOne (values_of_row set text.now rows.now) addenda sheet.old s (length out.old) }
    ensures { (result.numbers ≡ 10) × ((b : ReadyOne (values_of_row set text.now rows.now) addenda sheet.old s (length out.old)) → Onward (values_of_row set text.now rows.now ∷ b.others) b.ready.file b.ready.past out.old b.others sheet.new result.standing result.bytes out.new) }
{
    let kind = rows[0];
    let own = layouts.own_numbers(kind);
    let row = Row { own, rows };
    let at = sheet::slot_of(kind);
    let body = at + 4;
    let fixed = completing::complete(set, text, row, addenda, s, sheet, body);
    let end = body + fixed;
    let bytes = write_record(set, text, row, &sheet[body..end], out);
    let standing = standing::moved(CharacterSet::Ascii, sheet, s, kind, at);
    Progress {
        numbers: 10,
        bytes,
        standing,
    }
}

// The same, its addenda counted in the rows behind it.
fn write_row<'a>(
    set: CharacterSet,
    layouts: Layouts<'a>,
    text: &[u8],
    rows: &'a [u64],
    s: Standing,
    sheet: &mut [u8],
    out: &mut [u8],
) -> Progress
    requires { (10 ≤ length rows.now) × Ready (values_in set text.now rows.now) sheet.old s (length out.old) }
    ensures { RowsSetOut set text.now rows.now sheet.old out.old s result sheet.new out.new }
{
    let addenda = draft_rows::addenda_behind(rows);
    write_counted(set, layouts, text, rows, addenda, s, sheet, out)
}

// A bundle: the records from the first row through the next 70, or to the end of the rows.
fn write_bundle<'a>(
    set: CharacterSet,
    layouts: Layouts<'a>,
    text: &[u8],
    rows: &'a [u64],
    s: Standing,
    sheet: &mut [u8],
    out: &mut [u8],
) -> Progress
    requires { (10 ≤ length rows.now) × Ready (values_in set text.now rows.now) sheet.old s (length out.old) }
    ensures { RowsSetOut set text.now rows.now sheet.old out.old s result sheet.new out.new }
{
    let mut standing = s;
    let mut bytes: usize = 0;
    let mut at: usize = 0;
    let mut open = true;
    // Stays: a record is set out with the rows behind its own, and in the rest of the buffer: each turn steps by as much as was set out of both.
    while open & (10 <= rows.len() - at) {
        let one = write_row(
            set,
            layouts,
            text,
            &rows[at..],
            standing,
            sheet,
            &mut out[bytes..],
        );
        open = rows[at] != 70;
        standing = one.standing;
        bytes += one.bytes;
        at += one.numbers;
    }
    Progress {
        numbers: at,
        bytes,
        standing,
    }
}

// The whole file, bundle by bundle; records outside a bundle one by one.
pub fn write_rows<'a>(
    set: CharacterSet,
    layouts: Layouts<'a>,
    text: &[u8],
    draft: &'a [u64],
    out: &mut [u8],
)
    requires { Fits (values_in set text.now draft.now) [] [] (length out.old) }
    ensures { out.new ≡ made (values_in set text.now draft.now) ++ drop (length (made (values_in set text.now draft.now))) out.old }
{
    let mut sheet: [u8; 800] = [0; 800];
    let mut s = Standing::start();
    let mut bytes: usize = 0;
    let mut at: usize = 0;
    // Stays: a turn sets out a record or a whole bundle, and steps by as many numbers and bytes as that took.
    while 10 <= draft.len() - at {
        let rows = &draft[at..];
        let done = if rows[0] == 20 {
            write_bundle(set, layouts, text, rows, s, &mut sheet, &mut out[bytes..])
        } else {
            write_row(set, layouts, text, rows, s, &mut sheet, &mut out[bytes..])
        };
        s = done.standing;
        bytes += done.bytes;
        at += done.numbers;
    }
}

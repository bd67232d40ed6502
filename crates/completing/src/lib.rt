// One record of a draft made out: its fixed part, with what is worked out filled in.
#![tactic(auto)]

ghost use Rattle.std.specs.Prelude.{cond, List, ◌≡◌, ℕ, ◌+◌, ◌-◌, ◌/◌, ◌%◌, ◌≤◌, length, get_or};
ghost use Rattle.std.proofs.lemmas.List.Edits.{sets};
ghost use Rattle.text.specs.declared.character_set.CharacterSet.{CharacterSet};
ghost use Rattle.layout.specs.Packing.{line_of};
ghost use Rattle.standing.specs.History.{is_bofd_addendum};
ghost use Rattle.standing.specs.Standing.{Roomy};
ghost use Rattle.ascii_copy.specs.AsciiCopy.{copied_as, translated};
ghost use Rattle.draft.specs.Values.{is_given, in_ascii, layout_of, piece, values_of_row};
ghost use Rattle.draft.specs.Completed.{characters_of, sums_for, statement, worked_out, fixed_part};

use draft_rows::Row;
use layout::Origin;
use measure::Sums;
use standing::Standing;
use text::{CharacterSet, DataType};

// Binary characters are never translated.
fn is_binary(data_type: DataType) -> bool
    ensures { (xs : List ℕ) → copied_as data_type xs ≡ cond result xs (translated xs) }
{
    matches!(data_type, DataType::Binary)
}

// Whether characters that are given are set down as they are.
fn is_kept(set: CharacterSet, data_type: DataType) -> bool
    ensures { (xs : List ℕ) → in_ascii set data_type xs ≡ cond result xs (translated xs) }
{
    match set {
        CharacterSet::Ascii => true,
        CharacterSet::Ebcdic => is_binary(data_type),
    }
}

// A field or a part that is given, in ASCII; 00s where it does not lie in the text.
pub fn put_piece(
    set: CharacterSet,
    data_type: DataType,
    text: &[u8],
    start: usize,
    place: usize,
    size: usize,
    out: &mut [u8],
    at: usize,
)
    requires { at + size ≤ length out.old }
    ensures { out.new ≡ sets out.old at (characters_of (piece set text.now data_type (start + place) size)) }
{
    if !draft_rows::lies_within(text, start, place, size) {
        copying::put_times(out, at, size, 0);
        return;
    }
    if size == 0 {
        return;
    }
    let from = start + place;
    if is_kept(set, data_type) {
        copying::copy_bytes(text, from, size, out, at);
        return;
    }
    copying::translate_bytes(text, from, size, out, at)
}

fn sums_for(kind: u64, s: Standing) -> Sums
    ensures { result ≡ sums_for kind s }
{
    match kind {
        70 => s.bundle,
        90 => s.letter,
        _ => s.whole,
    }
}

// The number of a 26 or 32, or of a 28 or 35, in its item.
fn record_number(kind: u64, s: Standing) -> u64
    requires { Roomy s }
    ensures { result ≡ cond (is_bofd_addendum kind) s.bofd s.endorser + 1 }
{
    match kind {
        26 | 32 => s.bofd + 1,
        _ => s.endorser + 1,
    }
}

// What a field states that is worked out from the records before it too.
fn statement<'a>(row: Row<'a>, addenda: u64, s: Standing, first: u64, origin: Origin) -> u64
    requires { Roomy s }
    ensures { (set : CharacterSet) (text : List ℕ) → result ≡ statement (values_of_row set text row.entry.rows.now) addenda s first origin }
{
    let kind = row.rows[0];
    let sums = sums_for(kind, s);
    match origin {
        Origin::RecordNumber => record_number(kind, s),
        Origin::DebitCount => sums.debits.0,
        Origin::DebitCents => sums.debit.0,
        Origin::MicrCents => s.micr.0,
        Origin::ViewCount => sums.views.0,
        Origin::CreditCount => sums.credits.0,
        Origin::CreditCents => sums.credit.0,
        Origin::BundleCount => s.opened,
        Origin::LetterCount => s.letters,
        Origin::RecordCount => s.records.0 + 1,
        Origin::ItemCount => s.items.0,
        _ => draft_rows::own_statement(row, addenda, first, origin),
    }
}

// One field of the fixed part.
fn put_line<'a>(
    set: CharacterSet,
    packed: u64,
    text: &[u8],
    row: Row<'a>,
    addenda: u64,
    s: Standing,
    out: &mut [u8],
    at: usize,
)
    requires { Roomy s × (at + packed / 0x100_0000_0000 % 0x100 ≤ length out.old) }
    ensures { (n : ℕ) → out.new ≡ sets out.old at (cond (is_given (line_of n packed).origin) (characters_of (piece set text.now (line_of n packed).data_type (get_or row.entry.rows.now 1 0 + ((line_of n packed).first - 1)) (line_of n packed).size)) (worked_out (values_of_row set text.now row.entry.rows.now) addenda s (line_of n packed))) }
{
    let origin = layout::origin_of(packed / 0x2_0000_0000 % 0x80);
    let first = packed / 0x1_0000_0000_0000;
    let size = (packed / 0x100_0000_0000 % 0x100) as usize;
    if draft_rows::is_given(origin) {
        let data_type = layout::data_type_of(packed / 0x100_0000 % 0x100);
        let start = row.rows[1] as usize;
        put_piece(
            set,
            data_type,
            text,
            start,
            layout::place_of(first),
            size,
            out,
            at,
        );
        return;
    }
    if draft_rows::leaves_blank(row.rows, origin) {
        copying::put_times(out, at, size, 32);
        return;
    }
    decimal::put_digits(out, at, size, statement(row, addenda, s, first, origin))
}

// The fixed part, field by field: the way that serves every text.
fn put_lines<'a>(
    set: CharacterSet,
    text: &[u8],
    row: Row<'a>,
    addenda: u64,
    s: Standing,
    out: &mut [u8],
    at: usize,
)
    requires { Roomy s × (at + (layout_of (get_or row.rows.now 0 0)).fixed_length ≤ length out.old) }
    ensures { out.new ≡ sets out.old at (fixed_part (values_of_row set text.now row.entry.rows.now) addenda s (layout_of (get_or row.entry.rows.now 0 0)).lines (values_of_row set text.now row.entry.rows.now).fields) }
{
    let mut place = at;
    for packed in row.lines() {
        put_line(set, *packed, text, row, addenda, s, out, place);
        place += (*packed / 0x100_0000_0000 % 0x100) as usize;
    }
}

// The fixed part where the text has all of it: all of it at once, as characters, for none of its fields is Binary, and over it the fields that are
// worked out. What is given stands then, and its field is told by one test and passed over.
fn put_over<'a>(
    set: CharacterSet,
    text: &[u8],
    row: Row<'a>,
    addenda: u64,
    s: Standing,
    out: &mut [u8],
    at: usize,
)
    requires { Roomy s × (at + (layout_of (get_or row.rows.now 0 0)).fixed_length ≤ length out.old) × (get_or row.rows.now 1 0 + (layout_of (get_or row.rows.now 0 0)).fixed_length ≤ length text.now) }
    ensures { out.new ≡ sets out.old at (fixed_part (values_of_row set text.now row.entry.rows.now) addenda s (layout_of (get_or row.entry.rows.now 0 0)).lines (values_of_row set text.now row.entry.rows.now).fields) }
{
    let start = row.rows[1] as usize;
    let fixed = row.fixed_length();
    put_piece(set, DataType::N, text, start, 0, fixed, out, at);
    let mut place = at;
    for packed in row.lines() {
        if *packed / 0x2_0000_0000 % 0x80 != 0 {
            put_line(set, *packed, text, row, addenda, s, out, place);
        }
        place += (*packed / 0x100_0000_0000 % 0x100) as usize;
    }
}

// The fixed part, from a place on, and how long it is.
pub fn complete<'a>(
    set: CharacterSet,
    text: &[u8],
    row: Row<'a>,
    addenda: u64,
    s: Standing,
    out: &mut [u8],
    at: usize,
) -> usize
    requires { Roomy s × (at + (layout_of (get_or row.rows.now 0 0)).fixed_length ≤ length out.old) }
    ensures { (out.new ≡ sets out.old at (fixed_part (values_of_row set text.now row.entry.rows.now) addenda s (layout_of (get_or row.entry.rows.now 0 0)).lines (values_of_row set text.now row.entry.rows.now).fields)) × (result ≡ (layout_of (get_or row.entry.rows.now 0 0)).fixed_length) }
{
    let fixed = row.fixed_length();
    let start = row.rows[1] as usize;
    if draft_rows::lies_within(text, start, 0, fixed) {
        put_over(set, text, row, addenda, s, out, at);
        return fixed;
    }
    put_lines(set, text, row, addenda, s, out, at);
    fixed
}

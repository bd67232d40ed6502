// What of a draft's record cannot be had or breaks its rule.
#![tactic(auto)]

ghost use Rattle.std.specs.Prelude.{◌&&◌, cond, List, ◌≡◌, ℕ, ◌+◌, ◌-◌, ◌≤◌, min, length, get_or};
ghost use Rattle.text.specs.declared.character_set.CharacterSet.TheVariants.{Ascii};
ghost use Rattle.text.specs.DataTypes.{of_type};
ghost use Rattle.decimal.specs.Digits.{fits};
ghost use Rattle.layout.specs.Fault.{as_field};
ghost use Rattle.layout.specs.Layout.{sized_parts};
ghost use Rattle.layout.specs.Packing.{line_of};
ghost use Rattle.judge.specs.Alone.{first_wrong};
ghost use Rattle.draft.specs.Values.{is_given, layout_of, piece, values_of_row};
ghost use Rattle.draft.specs.Completed.{is_here, characters_of, all_sizes, own_statement, first_unfit, first_unfit_part, lower};

use draft_rows::Row;
use text::{CharacterSet, DataType};

// A sum that stops at 2^64 - 1.
pub fn plus(m: usize, n: usize) -> usize
    ensures { result ≡ min (m + n) 0xFFFF_FFFF_FFFF_FFFF }
{
    m.saturating_add(n)
}

// Whether a field of the fixed part can be had: it lies in the text, or is worked out and not outgrown.
fn line_fits<'a>(row: Row<'a>, packed: u64, text: &'a [u8], addenda: u64) -> bool
    ensures { (set : CharacterSet) (n : ℕ) → result ≡ cond (is_given (line_of n packed).origin) (is_here (piece set text.now (line_of n packed).data_type (get_or row.entry.rows.now 1 0 + ((line_of n packed).first - 1)) (line_of n packed).size)) (fits (line_of n packed).size (own_statement (values_of_row set text.now row.entry.rows.now) addenda (line_of n packed).first (line_of n packed).origin)) }
{
    let origin = layout::origin_of(packed / 0x2_0000_0000 % 0x80);
    let first = packed / 0x1_0000_0000_0000;
    let size = (packed / 0x100_0000_0000 % 0x100) as usize;
    if draft_rows::is_given(origin) {
        return draft_rows::lies_within(text, row.rows[1] as usize, layout::place_of(first), size);
    }
    let stated = draft_rows::own_statement(row, addenda, first, origin);
    decimal::fits_in(size, stated)
}

// The lowest field that does not lie in the text or is outgrown.
fn first_unfit<'a>(row: Row<'a>, text: &'a [u8], addenda: u64) -> Option<usize>
    ensures { (set : CharacterSet) → result ≡ as_field (first_unfit (values_of_row set text.now row.entry.rows.now) addenda (layout_of (get_or row.entry.rows.now 0 0)).lines (values_of_row set text.now row.entry.rows.now).fields) }
{
    let all_here = draft_rows::lies_within(text, row.rows[1] as usize, 0, row.fixed_length());
    for (i, packed) in row.lines().iter().enumerate() {
        if !(all_here & (*packed / 0x2_0000_0000 % 0x80 == 0)) {
            if !line_fits(row, *packed, text, addenda) {
                return Some(i + 1);
            }
        }
    }
    None
}

// The lower of two fields, where there may be none.
fn lower_of(m: Option<usize>, n: Option<usize>) -> Option<usize>
    ensures { (a b : ℕ) → m ≡ as_field a → n ≡ as_field b → result ≡ as_field (lower a b) }
{
    match (m, n) {
        (Some(m), Some(n)) => Some(m.min(n)),
        (None, n) => n,
        (m, None) => m,
    }
}

// The lowest field of the fixed part that cannot be had or breaks its rule; `fixed` is the fixed part, completed.
pub fn field_fault<'a>(row: Row<'a>, text: &'a [u8], addenda: u64, fixed: &'a [u8]) -> Option<usize>
    requires { length fixed.now ≡ (layout_of (get_or row.rows.now 0 0)).fixed_length }
    ensures { (set : CharacterSet) → result ≡ as_field (lower (first_unfit (values_of_row set text.now row.entry.rows.now) addenda (layout_of (get_or row.entry.rows.now 0 0)).lines (values_of_row set text.now row.entry.rows.now).fields) (first_wrong Ascii (layout_of (get_or row.entry.rows.now 0 0)).lines fixed.now)) }
{
    lower_of(
        first_unfit(row, text, addenda),
        judge::first_wrong(CharacterSet::Ascii, row.lines(), fixed),
    )
}

// Whether a part lies in the text and is of its data type; `place` is where it stands in the record.
fn part_fits(
    set: CharacterSet,
    data_type: DataType,
    text: &[u8],
    start: usize,
    place: usize,
    size: usize,
) -> bool
    ensures { result ≡ (is_here (piece set text.now data_type (start + place) size) && of_type Ascii data_type (characters_of (piece set text.now data_type (start + place) size))) }
{
    if !draft_rows::lies_within(text, start, place, size) {
        return false;
    }
    if size == 0 {
        return true;
    }
    text::of_type(set, data_type, frame::part_of(text, start + place, size))
}

// The first part that does not lie in the text or is not of its data type.
pub fn part_fault<'a>(set: CharacterSet, row: Row<'a>, text: &'a [u8]) -> Option<usize>
    ensures { result ≡ as_field (first_unfit_part (sized_parts (layout_of (get_or row.entry.rows.now 0 0))) (values_of_row set text.now row.entry.rows.now).parts) }
{
    let start = row.rows[1] as usize;
    let first = row.lines().len() + 1;
    let mut place = row.fixed_length();
    for (i, part) in row.parts().iter().enumerate() {
        let size = row.rows[3 + i] as usize;
        let data_type = layout::data_type_of(*part / 0x100_0000 % 0x100);
        if !part_fits(set, data_type, text, start, place, size) {
            return Some(first + i);
        }
        place = place.saturating_add(size);
    }
    None
}

// How long the whole record is; 2^64 - 1 where no 64 bits hold it.
pub fn size_of<'a>(row: Row<'a>) -> usize
    ensures { (set : CharacterSet) (text : List ℕ) → result ≡ min ((layout_of (get_or row.entry.rows.now 0 0)).fixed_length + all_sizes (values_of_row set text row.entry.rows.now).parts) 0xFFFF_FFFF_FFFF_FFFF }
{
    let mut size = row.fixed_length();
    for part in &row.rows[3..3 + row.parts().len()] {
        size = size.saturating_add(*part as usize);
    }
    size
}

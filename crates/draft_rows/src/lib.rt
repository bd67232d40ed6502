// What the rows of a draft say. `rows` are the draft's numbers from a record's row on, `own` the numbers of its layout.
#![tactic(auto)]

ghost use Rattle.std.specs.Prelude.{true, ◌||◌, List, ◌≡◌, ℕ, ◌+◌, ◌-◌, ◌/◌, ◌<◌, ◌≤◌, leb, eqb, length, get_or, drop};
ghost use Rattle.text.specs.declared.character_set.CharacterSet.{CharacterSet};
ghost use Rattle.text.specs.DataTypes.{every};
ghost use Rattle.layout.specs.Layout.{sized_parts};
ghost use Rattle.layout.specs.Packing.{lines_from, lies_within, sized_from};
ghost use Rattle.draft.specs.Owned.{Owned};
ghost use Rattle.draft.specs.Values.{is_given, layout_of, values_of_row, values_of_rows};
ghost use Rattle.draft.specs.Completed.{is_own_addendum, addenda_behind, part_sized_at, own_statement, leaves_blank};

use layout::Origin;

// A row of a draft: `rows` are the draft's numbers from it on, `own` the numbers of its layout.
#[derive(Clone, Copy)]
pub struct Row<'a> {
    pub own: &'a [u64],
    pub rows: &'a [u64],
    pub ghost owned: { Owned (layout_of (get_or rows.now 0 0)) own.now },
    pub ghost whole: { 10 ≤ length rows.now },
}

impl<'a> Row<'a> {
    // How long its fixed part is.
    pub fn fixed_length(self) -> usize
        ensures { result ≡ (layout_of (get_or self.entry.rows.now 0 0)).fixed_length }
    {
        layout::length_in(self.own[0])
    }

    // The numbers of the fields of its fixed part, from field 1 on.
    pub fn lines(self) -> &'a [u64]
        ensures are { lines_from 1 result.now ≡ (layout_of (get_or self.entry.rows.now 0 0)).lines }
        ensures within { every (lies_within (layout_of (get_or self.entry.rows.now 0 0)).fixed_length) result.now ≡ true }
    {
        let header = self.own[0];
        let end = layout::fields_in(header) + 1 - layout::parts_in(header);
        &self.own[1..end]
    }

    // The numbers of its parts, which are its last fields.
    pub fn parts(self) -> &'a [u64]
        ensures { sized_from (length (layout_of (get_or self.entry.rows.now 0 0)).lines + 1) result.now ≡ sized_parts (layout_of (get_or self.entry.rows.now 0 0)) }
    {
        let header = self.own[0];
        let end = layout::fields_in(header) + 1;
        &self.own[end - layout::parts_in(header)..end]
    }
}

// 26 to 28 of a 25, 32 to 35 of a 31.
pub fn is_own_addendum(item: u64, kind: u64) -> bool
    ensures { result ≡ is_own_addendum item kind }
{
    matches!((item, kind), (25, 26..=28) | (31, 32..=35))
}

// How many rows right behind the first are addenda of its kind.
pub fn addenda_behind(rows: &[u64]) -> u64
    ensures { ((set : CharacterSet) (text : List ℕ) → result ≡ addenda_behind (get_or rows.now 0 0) (values_of_rows set text (length rows.now / 10 - 1) (drop 10 rows.now))) × (result < 0x4000_0000_0000_0000) }
{
    if rows.len() < 10 {
        return 0;
    }
    let item = rows[0];
    let mut count = 0;
    for row in rows[10..].chunks_exact(10) {
        if !is_own_addendum(item, row[0]) {
            break;
        }
        count += 1;
    }
    count
}

// Whether so many bytes from a place of the record that starts at `start` lie in the text.
pub fn lies_within(text: &[u8], start: usize, place: usize, size: usize) -> bool
    ensures { result ≡ (eqb size 0 || leb (start + place + size) (length text.now)) }
{
    if size == 0 {
        return true;
    }
    let length = text.len();
    if length < start {
        return false;
    }
    if length - start < place {
        return false;
    }
    size <= length - start - place
}

// The size of the part whose size stands at a position. The sizes stand in the row from its fourth number on.
fn part_sized_at<'a>(row: Row<'a>, first: u64) -> u64
    ensures { (set : CharacterSet) (text : List ℕ) → result ≡ part_sized_at first (sized_parts (layout_of (get_or row.entry.rows.now 0 0))) (values_of_row set text row.entry.rows.now).parts }
{
    for (i, part) in row.parts().iter().enumerate() {
        if *part / 0x1_0000_0000_0000 == first {
            return row.rows[3 + i];
        }
    }
    0
}

// What a field states that is worked out from its own record and the addenda behind it, 0 of any other.
pub fn own_statement<'a>(row: Row<'a>, addenda: u64, first: u64, origin: Origin) -> u64
    ensures { (set : CharacterSet) (text : List ℕ) → result ≡ own_statement (values_of_row set text row.entry.rows.now) addenda first origin }
{
    match origin {
        Origin::TypeNumber => row.rows[0],
        Origin::PartSize => part_sized_at(row, first),
        Origin::AddendumCount => addenda,
        _ => 0,
    }
}

pub fn is_given(origin: Origin) -> bool
    ensures { result ≡ is_given origin }
{
    matches!(origin, Origin::Given)
}

// A blank MICR total (70.4), where the row asks for one with a 1.
pub fn leaves_blank(rows: &[u64], origin: Origin) -> bool
    requires { 10 ≤ length rows.now }
    ensures { (set : CharacterSet) (text : List ℕ) → result ≡ leaves_blank (values_of_row set text rows.now) origin }
{
    match origin {
        Origin::MicrCents => (rows[0] == 70) & (rows[2] == 1),
        _ => false,
    }
}

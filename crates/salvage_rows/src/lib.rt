// A record of the new file as a draft says it: a row of ten numbers, and for a new control its text (request 11, reading 65).
#![tactic(auto)]

ghost use Rattle.std.specs.Prelude.{true, ◌&&◌, ◌≡◌, ℕ, ◌+◌, ◌-◌, ◌/◌, ◌%◌, ◌≤◌, leb, length};
ghost use Rattle.std.proofs.Math.Option.{some};
ghost use Rattle.std.proofs.lemmas.List.Edits.{sets};
ghost use Rattle.text.specs.declared.character_set.CharacterSet.TheVariants.{Ascii};
ghost use Rattle.layout.specs.Packing.{line_of};
ghost use Rattle.judge.specs.Alone.{line_holds};
ghost use Rattle.draft.specs.Values.{layout_of, values_of_row, values_of_body};
ghost use Rattle.draft.specs.Completed.{characters_of};
ghost use Rattle.salvage_model.specs.Kept.{free_field, control_values};
ghost use Rattle.salvage_made.specs.ByMarks.{is_control};

use layout::Layouts;
use text::CharacterSet;

// A record that is kept: its own body is the text.
pub fn put_kept<'a>(set: CharacterSet, layouts: Layouts<'a>, body: &'a [u8], row: &mut [u64; 10])
    ensures { values_of_row set body.now row.new ≡ values_of_body set body.now }
{
    drafting::put_row(set, layouts, body, 0, row, 0);
}

// Whether a field, by its number in the table, lies within a record and keeps its rule there.
fn keeps_rule(set: CharacterSet, packed: u64, body: &[u8]) -> bool
    ensures { (n : ℕ) → result ≡ (leb ((line_of n packed).first - 1 + (line_of n packed).size) (length body.now) && line_holds set (line_of n packed) body.now) }
{
    let size = (packed / 0x100_0000_0000 % 0x100) as usize;
    let end = layout::place_of(packed / 0x1_0000_0000_0000) + size;
    if body.len() < end {
        return false;
    }
    let alone = [packed];
    judge::first_wrong(set, &alone, body).is_none()
}

// A free field of a new control, in its place: as in the walked one where it keeps its rule there, else blank.
fn put_free(set: CharacterSet, packed: u64, body: &[u8], text: &mut [u8])
    requires { packed / 0x1_0000_0000_0000 - 1 + packed / 0x100_0000_0000 % 0x100 ≤ length text.old }
    ensures { (n : ℕ) → text.new ≡ sets text.old ((line_of n packed).first - 1) (characters_of (free_field set (some body.now) (line_of n packed))) }
{
    let place = layout::place_of(packed / 0x1_0000_0000_0000);
    let size = (packed / 0x100_0000_0000 % 0x100) as usize;
    if !keeps_rule(set, packed, body) {
        copying::put_times(text, place, size, 32);
        return;
    }
    let data_type = layout::data_type_of(packed / 0x100_0000 % 0x100);
    completing::put_piece(set, data_type, body, 0, place, size, text, place)
}

// A new control. Of a 90 and of a 99 what is given are fields 6 and 7; nothing else of the text is looked at, and of the row nothing but the type and
// the start: neither has parts, and only a 70 can leave a total blank. Whoever walked no control lends no characters.
pub fn put_control<'a>(
    set: CharacterSet,
    layouts: Layouts<'a>,
    kind: u64,
    body: &'a [u8],
    text: &mut [u8; 85],
    row: &mut [u64; 10],
)
    requires { is_control kind ≡ true }
    ensures { values_of_row Ascii text.new row.new ≡ control_values set (layout_of kind) (some body.now) }
{
    let own = layouts.own_numbers(kind);
    put_free(set, own[6], body, text);
    put_free(set, own[7], body, text);
    row[0] = kind;
    row[1] = 0;
}

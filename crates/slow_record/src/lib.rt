// One record alone, for the slow reader (request 12): where it stands in the file, its type, and its fields. It calls nothing of `frame`, `layout` or
// `judge` and shares their types and definitions.
// Stays: some of it does what a function of these does, since the two readers are to stand on separate code (request 12).
#![tactic(auto)]

mod lines;
mod table;

ghost use Rattle.std.specs.Prelude.{◌≡◌, ◌≤◌, ◌&&◌, not, cond, map, eqb, MatchOption};
ghost use Rattle.text.specs.DataTypes.{of_type};
ghost use Rattle.frame.specs.Frames.{part, length_in, frame_at};
ghost use Rattle.layout.specs.Fault.{as_field};
ghost use Rattle.judge.specs.Alone.{Sound, WrongField, type_of, judged_as};
ghost use Rattle.slow_record.specs.Types.{as_type};
ghost use Rattle.slow_record.specs.Rows.{entry_of, is_field, is_part, field_holds, stated_in, fields_of, parts_of, length_of, wrong_field, stated, wrong_part, judged_by};

use crate::lines::{
    data_type_in, field_in, is_field, is_part, is_record, is_variable, place_in, rule_of, size_in,
    usage_in,
};
use crate::table::fields;
use frame::{Extent, Frame};
use judge::{Flaw, Judged};
use text::CharacterSet;

// The bytes from a place on, as many as the size says or as there are.
pub fn part_of(s: &[u8], start: usize, size: usize) -> &[u8]
    ensures { result.now ≡ part start size s.now }
{
    slow_text::part_of(s, start, size)
}

fn wide(x: u8) -> usize
    ensures { (result ≡ x) × (result ≤ 255) }
{
    x as usize
}

// Annex D: the length of a record, four bytes, the high one first.
// Stays: no `u32::from_be_bytes`, since `frame` reads its lengths by that.
fn length_in(s: &[u8]) -> usize
    ensures { (result ≡ length_in s.now) × (result ≤ 0xFFFF_FFFF) }
{
    let first = wide(slow_text::byte_at(s, 0));
    let second = wide(slow_text::byte_at(s, 1));
    let third = wide(slow_text::byte_at(s, 2));
    let fourth = wide(slow_text::byte_at(s, 3));
    first * 0x100_0000 + second * 0x1_0000 + third * 0x100 + fourth
}

// The record whose length stands at a place of the file.
#[tactic(auto, unfolding(frame::specs::Frames::frame_at))]
pub fn frame_at(file: &[u8], at: usize) -> Frame
    ensures { result ≡ frame_at file.now at }
{
    let rest = slow_text::behind(file, at);
    let (_, body) = rest.split_first_chunk::<4>()?;
    let size = length_in(rest);
    if body.len() < size {
        return None;
    }
    Some(Extent {
        start: at + 4,
        size,
    })
}

// The type that a record's first two characters name, where they are digits.
#[tactic(auto, unfolding(judge::specs::Alone::type_of))]
pub fn type_of(set: CharacterSet, body: &[u8]) -> Option<u64>
    ensures { result ≡ as_type (type_of set body.now) }
{
    let characters = body.get(..2)?;
    if !slow_text::all_digits(set, characters) {
        return None;
    }
    match slow_text::number_in(set, characters) {
        0 => None, // 00 names no type
        kind => Some(kind),
    }
}

// A field of the fixed part is right.
#[tactic(auto, unfolding(crate::specs::Rows::field_holds))]
fn field_holds(set: CharacterSet, line: u64, body: &[u8]) -> bool
    ensures { result ≡ field_holds set (entry_of line) body.now }
{
    let characters = slow_text::part_of(body, place_in(line), size_in(line));
    let usage = usage_in(line);
    let data_type = data_type_in(line);
    let rule = rule_of(line / 10_000 % 100, line / 100 % 100, line % 100);
    slow_field::holds(set, usage, data_type, rule, characters, body)
}

// The line is a field of the kind's fixed part, and the field is not right.
fn is_wrong(set: CharacterSet, kind: u64, line: u64, body: &[u8]) -> bool
    ensures { result ≡ is_field kind (entry_of line) && not (field_holds set (entry_of line) body.now) }
{
    is_field(kind, line) && !field_holds(set, line, body)
}

// The number of the first field of the fixed part that is not right.
fn first_wrong(set: CharacterSet, kind: u64, lines: &[u64], body: &[u8]) -> Option<usize>
    ensures { result ≡ as_field (wrong_field set (fields_of kind (map entry_of lines.now)) body.now) }
{
    lines
        .iter()
        .find(|line| is_wrong(set, kind, **line, body))
        .and_then(|line| field_in(*line))
}

// The size that the record states for a field behind its fixed part; 0 for any other line.
// Stays: 0 and no Option, which adds nothing to the sizes and takes nothing off the rest.
fn stated_size(set: CharacterSet, kind: u64, line: u64, body: &[u8]) -> u64
    ensures { result ≡ cond (is_part kind (entry_of line)) (stated_in set (entry_of line) body.now) 0 }
{
    if is_part(kind, line) {
        let characters = slow_text::part_of(body, place_in(line), size_in(line));
        return slow_text::number_in(set, characters);
    }
    0
}

// Whether the stated sizes come to just what is left behind the fixed part.
fn sizes_fill<'a>(set: CharacterSet, kind: u64, lines: &'a [u64], body: &'a [u8], left: u64) -> bool
    ensures { result ≡ eqb left (stated set (parts_of kind (map entry_of lines.now)) body.now) }
{
    let mut rest = left;
    for line in lines {
        let Some(behind) = rest.checked_sub(stated_size(set, kind, *line, body)) else {
            return false;
        };
        rest = behind;
    }
    rest == 0
}

// The line is a field of the kind behind its fixed part, and the characters are not of its data type.
fn is_wrong_part(set: CharacterSet, kind: u64, line: u64, characters: &[u8]) -> bool
    ensures { result ≡ is_part kind (entry_of line) && not (of_type set (entry_of line).data_type characters.now) }
{
    is_part(kind, line) && !slow_text::of_type(set, data_type_in(line), characters)
}

// The number of the first field behind the fixed part that is not of its data type. These fields stand one after the other.
fn first_wrong_part<'a>(
    set: CharacterSet,
    kind: u64,
    lines: &'a [u64],
    body: &'a [u8],
    parts: &'a [u8],
) -> Option<usize>
    ensures { result ≡ as_field (wrong_part set (parts_of kind (map entry_of lines.now)) body.now parts.now) }
{
    let mut rest = parts;
    for line in lines {
        let size = stated_size(set, kind, *line, body) as usize;
        if is_wrong_part(set, kind, *line, slow_text::part_of(rest, 0, size)) {
            return field_in(*line);
        }
        rest = slow_text::behind(rest, size);
    }
    None
}

// The length of the kind's fixed part, where the kind is carried.
fn fixed_length(kind: u64, lines: &[u64]) -> Option<usize>
    ensures { result ≡ as_field (length_of kind (map entry_of lines.now)) }
{
    lines
        .iter()
        .find(|line| is_record(kind, **line))
        .and_then(|line| match size_in(*line) {
            0 => None,
            size => Some(size),
        })
}

// Sound, unless a field is at fault.
fn sound_unless(wrong: Option<usize>) -> Judged
    ensures { MatchOption wrong (result ≡ Sound) (λ n. result ≡ WrongField n) }
{
    match wrong {
        Some(field) => Err(Flaw::Field(field)),
        None => Ok(()),
    }
}

// The checks of one record alone, in document 01's order.
#[tactic(auto, unfolding(crate::specs::Rows::judged_by))]
fn judge_by<'a>(set: CharacterSet, kind: u64, lines: &'a [u64], body: &'a [u8]) -> Judged
    ensures { result ≡ judged_by set kind (map entry_of lines.now) body.now }
{
    let fixed = fixed_length(kind, lines).ok_or(Flaw::UnknownType)?;
    if body.len() < fixed {
        return Err(Flaw::Length);
    }
    if !(is_variable(kind) || body.len() <= fixed) {
        return Err(Flaw::Length);
    }
    sound_unless(first_wrong(set, kind, lines, body))?;
    if !sizes_fill(set, kind, lines, body, (body.len() - fixed) as u64) {
        return Err(Flaw::Length);
    }
    sound_unless(first_wrong_part(set, kind, lines, body, slow_text::behind(body, fixed)))
}

// A record judged alone as one of a kind.
pub fn judge(set: CharacterSet, kind: u64, body: &[u8]) -> Judged
    ensures { result ≡ judged_as set kind body.now }
{
    let lines = fields();
    judge_by(set, kind, &lines, body)
}

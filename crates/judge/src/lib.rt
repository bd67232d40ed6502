// One record alone: its length, its fixed fields, its stated sizes and its variable fields.
#![tactic(auto)]

ghost use Rattle.std.specs.Prelude.{◌≡◌, List, [], ℕ, ◌+◌, ◌-◌, ◌≤◌, min, eqb, length, take, drop, true, Err};
ghost use Rattle.judge.specs.Alone.{number_of, field_of, line_holds, first_wrong, stated_size, stated_sizes, first_wrong_part, judged, type_of, judged_as, judged_record, alone};
ghost use Rattle.judge.specs.ByNumbers.{by_own};
ghost use Rattle.judge.specs.Image.{image_start, image_size};
ghost use Rattle.layout.specs.Layouts.{image_view_data};
ghost use Rattle.judge.specs.Alone.{Sound};
ghost use Rattle.layout.specs.Fault.{as_field};
ghost use Rattle.layout.specs.Packing.{is_whole, line_of, lines_from, sized_of, sized_from, lies_within};
ghost use Rattle.text.specs.DataTypes.{every};

use layout::{ImageViewData, Kind, Layouts};
use text::CharacterSet;

// What is wrong with a record alone.
#[derive(Clone, Copy)]
pub enum Flaw {
    Length,
    UnknownType,
    // The number of the first field at fault.
    Field(usize),
}

// What is found of a record alone.
pub type Judged = Result<(), Flaw>;

impl Flaw {
    // Document 01's number for the answer.
    pub fn number(self) -> u64
        ensures { result ≡ number_of (Err self) }
    {
        match self {
            Flaw::Length => 4,
            Flaw::UnknownType => 5,
            Flaw::Field(_) => 7,
        }
    }

    // The field at fault, 0 for the whole record.
    // Stays: document 01 and the C interface number fields so, and `field_of` of specs/Alone.antt does.
    pub fn field(self) -> usize
        ensures { result ≡ field_of (Err self) }
    {
        match self {
            Flaw::Length | Flaw::UnknownType => 0,
            Flaw::Field(n) => n,
        }
    }
}

// What document 01 says of each answer, of a sound record too.
pub trait JudgedExt {
    ghost number_told: { Self → ℕ };

    ghost field_told: { Self → ℕ };

    // Document 01's number for the answer.
    fn number(self) -> u64
        ensures { result ≡ number_told self };

    // The field at fault, 0 for the whole record.
    fn field(self) -> usize
        ensures { result ≡ field_told self };
}

impl JudgedExt for Judged {
    ghost number_told = { number_of };

    ghost field_told = { field_of };

    fn number(self) -> u64
        ensures { result ≡ number_of self }
    {
        match self {
            Ok(()) => 0,
            Err(flaw) => flaw.number(),
        }
    }

    fn field(self) -> usize
        ensures { result ≡ field_of self }
    {
        match self {
            Ok(()) => 0,
            Err(flaw) => flaw.field(),
        }
    }
}

// The rule is unpacked last: a field left blank needs none, and the compiler then makes one jump of unpacking and judging it.
fn line_holds(set: CharacterSet, packed: u64, body: &[u8]) -> bool
    requires { lies_within (length body.now) packed ≡ true }
    ensures { (n : ℕ) → result ≡ line_holds set (line_of n packed) body.now }
{
    let start = layout::place_of(packed / 0x1_0000_0000_0000);
    let size = (packed / 0x100_0000_0000 % 0x100) as usize;
    let part = frame::part_within(body, start, size);
    let usage = layout::usage_of(packed / 0x1_0000_0000 % 2);
    if field::is_left_blank(set, usage, part) {
        return true;
    }
    let data_type = layout::data_type_of(packed / 0x100_0000 % 0x100);
    if !text::of_type(set, data_type, part) {
        return false;
    }
    let rule = layout::rule_of(
        packed / 0x1_0000 % 0x100,
        packed / 0x100 % 0x100,
        packed % 0x100,
    );
    field::rule_holds(set, data_type, rule, part, body)
}

// The number of the first field of the fixed part that does not hold.
pub fn first_wrong(set: CharacterSet, lines: &[u64], body: &[u8]) -> Option<usize>
    requires { every (lies_within (length body.now)) lines.now ≡ true }
    ensures { result ≡ as_field (first_wrong set (lines_from 1 lines.now) body.now) }
{
    for (i, &packed) in lines.iter().enumerate() {
        if !line_holds(set, packed, body) {
            return Some(i + 1);
        }
    }
    None
}

// The size that the record states for a part.
pub fn stated_size(set: CharacterSet, packed: u64, body: &[u8]) -> u64
    ensures { (n : ℕ) → result ≡ stated_size set (sized_of n packed) body.now }
{
    let start = layout::place_of(packed / 0x1_0000_0000_0000);
    let size = (packed / 0x100_0000_0000 % 0x100) as usize;
    text::number_in(set, frame::part_of(body, start, size))
}

// Whether the stated sizes come to just what is left after the fixed part.
fn sizes_fill(set: CharacterSet, parts: &[u64], body: &[u8], left: u64) -> bool
    ensures { (n : ℕ) → result ≡ eqb left (stated_sizes set (sized_from n parts.now) body.now) }
{
    let mut rest = left;
    for &packed in parts {
        let size = stated_size(set, packed, body);
        if rest < size {
            return false;
        }
        rest -= size;
    }
    rest == 0
}

// Past a part that starts at a place, and no further than the end.
fn past(at: usize, size: u64, end: usize) -> usize
    ensures { result ≡ min (at + size) end }
{
    at.saturating_add(size as usize).min(end)
}

// The number of the first part that is not of its data type. The parts stand one after the other from a start on, and their
// fields are numbered on from those before.
fn first_wrong_part(
    set: CharacterSet,
    before: usize,
    parts: &[u64],
    start: usize,
    body: &[u8],
) -> Option<usize>
    requires { before + 1 + length parts.now ≤ 0x2_0000 }
    ensures { result ≡ as_field (first_wrong_part set (sized_from (before + 1) parts.now) body.now (drop start body.now)) }
{
    let mut at = start;
    for (i, &packed) in parts.iter().enumerate() {
        let size = stated_size(set, packed, body);
        let data_type = layout::data_type_of(packed / 0x100_0000 % 0x100);
        if !text::of_type(set, data_type, frame::part_of(body, at, size as usize)) {
            return Some(before + 1 + i);
        }
        at = past(at, size, body.len());
    }
    None
}

// The sizes that the record states for parts, together.
fn sizes_of(set: CharacterSet, parts: &[u64], body: &[u8]) -> u64
    requires { stated_sizes set (sized_from 1 parts.now) body.now ≤ 0xFFFF_FFFF }
    ensures { (n : ℕ) → result ≡ stated_sizes set (sized_from n parts.now) body.now }
{
    let mut sum: u64 = 0;
    for &packed in parts {
        sum += stated_size(set, packed, body);
    }
    sum
}

// The checks of one record alone, in document 01's order.
fn judge_body(set: CharacterSet, fixed: usize, lines: &[u64], parts: &[u64], body: &[u8]) -> Judged
    requires { (length lines.now + length parts.now ≤ 0x1_0000) × (every (lies_within fixed) lines.now ≡ true) }
    ensures { result ≡ judged set fixed (lines_from 1 lines.now) (sized_from (length lines.now + 1) parts.now) body.now }
{
    if body.len() < fixed {
        return Err(Flaw::Length);
    }
    let left = body.len() - fixed;
    if (parts.len() == 0) & (fixed < body.len()) {
        return Err(Flaw::Length);
    }
    if let Some(field) = first_wrong(set, lines, body) {
        return Err(Flaw::Field(field));
    }
    if !sizes_fill(set, parts, body, left as u64) {
        return Err(Flaw::Length);
    }
    if let Some(field) = first_wrong_part(set, lines.len(), parts, fixed, body) {
        return Err(Flaw::Field(field));
    }
    Ok(())
}

// The type that a record's first two characters name, or 0.
// Stays: `type_of` and `judged_as` of specs/Alone.antt say that 0 is no type, and `judge_as` takes it like any other number.
pub fn type_of(set: CharacterSet, body: &[u8]) -> u64
    ensures { result ≡ type_of set body.now }
{
    if body.len() < 2 {
        return 0;
    }
    let characters = &body[0..2];
    if !text::all_numeric(set, characters) {
        return 0;
    }
    text::number_in(set, characters)
}

// A record judged by the numbers of its own kind, those of other kinds behind them; by none it is of no kind that is carried.
fn judge_by(set: CharacterSet, own: &[u64], body: &[u8]) -> Judged
    requires { is_whole own.now ≡ true }
    ensures { result ≡ by_own set own.now body.now }
{
    let Some(&header) = own.first() else {
        return Err(Flaw::UnknownType);
    };
    let end = layout::fields_in(header) + 1;
    let parts = end - layout::parts_in(header);
    let fixed = layout::length_in(header);
    judge_body(set, fixed, &own[1..parts], &own[parts..end], body)
}

// A record judged alone as one of a kind, by the layouts that the caller lends.
pub fn judge_as(set: CharacterSet, layouts: Layouts<'_>, kind: u64, body: &[u8]) -> Judged
    ensures { result ≡ judged_as set kind body.now }
{
    judge_by(set, layouts.own_numbers(kind), body)
}

// A record judged alone, whatever it is.
pub fn judge_record(set: CharacterSet, body: &[u8]) -> Judged
    ensures { result ≡ judged_record set body.now }
{
    if body.len() < 2 {
        return Err(Flaw::Length);
    }
    let numbers = layout::table();
    let layouts = Layouts { numbers: &numbers };
    judge_as(set, layouts, type_of(set, body), body)
}

// A 52 judged alone, whatever its first two characters are.
pub fn judge_image(set: CharacterSet, body: &[u8]) -> Judged
    ensures { result ≡ alone set image_view_data body.now }
{
    let numbers = layout::table();
    let layouts = Layouts { numbers: &numbers };
    judge_as(set, layouts, ImageViewData::TYPE, body)
}

// Where the Image Data of a sound 52 starts in its body: past the fixed part and fields 22 to 26.
pub fn image_start(set: CharacterSet, body: &[u8]) -> usize
    requires { (alone set image_view_data body.now ≡ Sound) × (length body.now ≤ 0xFFFF_FFFF) }
    ensures { result ≡ image_start set body.now }
{
    let parts = ImageViewData::PARTS;
    (ImageViewData::LENGTH + sizes_of(set, &parts[..5], body)) as usize
}

// How long it is: what field 20 states.
pub fn image_size(set: CharacterSet, body: &[u8]) -> usize
    ensures { result ≡ image_size set body.now }
{
    let parts = ImageViewData::PARTS;
    stated_size(set, parts[5], body) as usize
}

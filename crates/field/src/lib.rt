// When one field is right: its usage, and its Format line or defined values. Its data type is judged by `text`.
#![tactic(auto)]

ghost use Rattle.std.specs.Prelude.{◌≡◌, ◌&&◌, ◌||◌, ◌≤◌, length, get_or};
ghost use Rattle.text.specs.Ranges.{within};
ghost use Rattle.text.specs.Characters.{is_numeric, is_blank, is_dash};
ghost use Rattle.text.specs.DataTypes.{every, some, is_mark};
ghost use Rattle.text.specs.Number.{number};
ghost use Rattle.field.specs.Values.{is_code, is_standard_level, is_collection_type, is_bundle_collection_type, is_source_of_work};
ghost use Rattle.field.specs.Formats.{is_date, is_hours_minutes, is_hours_minutes_seconds};
ghost use Rattle.field.specs.RoutingForms.{weighted_sum, is_TTTTAAAAC, parted_by, is_NNNNNNNNN, fits_rarer, fits_some};
ghost use Rattle.field.specs.Rules.{digits_with, one_or_two_digits, code, clipping_coordinate, follows, left_blank};

use text::{CharacterSet, DataType};

// Clause 6.3.
#[derive(Clone, Copy, Debug, PartialEq, Eq)]
pub enum Usage {
    Mandatory,
    Conditional,
}

// The lists of one-character codes that more than one range makes up, or that are letters.
#[derive(Clone, Copy, Debug, PartialEq, Eq)]
pub enum CodeList {
    FileTypes,
    YesNo,
    YesNoUnknown,
    RecordTypeIndicators,
    CashLetterDocumentation,
    ItemDocumentation,
    ReturnAcceptance,
    ArchiveTypes,
    TestOverrides,
    AccountTypes,
}

// The forms of a routing number that a field's Format lines list.
// Stays: five flags, since the definition `listing` of specs/RoutingForms.antt makes this record of a Format line, by these names.
#[derive(Clone, Copy, Debug, PartialEq, Eq)]
pub struct Forms {
    // TTTTAAAAC
    pub checked: bool,
    // TTTTT-FFF
    pub canadian: bool,
    // TTTT-AAAA
    pub dashed: bool,
    // bTTTTAAAA
    pub blanked: bool,
    // NNNNNNNNN
    pub nonfinancial: bool,
}

// A field's Format line or Defined Values (clauses 6.7 and 6.8).
#[derive(Clone, Copy, Debug, PartialEq, Eq)]
pub enum Rule {
    // Neither: the data type alone.
    DataTypeAlone,
    // All digits, and the number from the first through the second.
    Numbers(u64, u64),
    AllDigits,
    OneOrTwoDigits,
    StandardLevel,
    CollectionType,
    BundleCollectionType,
    SourceOfWork,
    Code(CodeList),
    Date,
    HoursMinutes,
    HoursMinutesSeconds,
    Routing(Forms),
    // All digits, and zero where the clipping origin, at this place of the record, is '0'.
    ClippingCoordinate(usize),
}

#[tactic(auto, unfolding(crate::specs::Values::is_code))]
pub fn is_code(list: CodeList, x: u8) -> bool
    ensures { result ≡ is_code list x }
{
    match list {
        CodeList::FileTypes => matches!(x, b'P' | b'T' | b'A' | b'B'),
        CodeList::YesNo => matches!(x, b'Y' | b'N'),
        CodeList::YesNoUnknown => matches!(x, b'Y' | b'N' | b'U'),
        CodeList::RecordTypeIndicators => matches!(x, b'N' | b'E' | b'I' | b'F'),
        CodeList::CashLetterDocumentation => matches!(x, b'A'..=b'M' | b'Z'),
        CodeList::ItemDocumentation => matches!(x, b'A'..=b'M'),
        CodeList::ReturnAcceptance => matches!(x, b'0'..=b'9' | b'A'..=b'F'),
        CodeList::ArchiveTypes => matches!(x, b'A'..=b'I'),
        CodeList::TestOverrides => matches!(x, b'0' | b'A'..=b'R'),
        CodeList::AccountTypes => matches!(x, b'1'..=b'5' | b'A'..=b'J'),
    }
}

fn holds_code(set: CharacterSet, list: CodeList, part: &[u8]) -> bool
    ensures { result ≡ code set list part.now }
{
    match part {
        [x] => is_code(list, text::capital_of(set, *x)),
        _ => false,
    }
}

fn is_standard_level(n: u64) -> bool
    ensures { result ≡ is_standard_level n }
{
    matches!(n, 1..=3 | 20)
}

fn is_bundle_collection_type(n: u64) -> bool
    ensures { result ≡ is_bundle_collection_type n }
{
    matches!(n, 0 | 1 | 3 | 5..=7 | 9 | 12 | 80..=89)
}

fn is_collection_type(n: u64) -> bool
    ensures { result ≡ is_collection_type n }
{
    is_bundle_collection_type(n) | matches!(n, 10 | 20 | 99)
}

fn is_source_of_work(n: u64) -> bool
    ensures { result ≡ is_source_of_work n }
{
    matches!(n, 1..=11 | 21..=99)
}

fn number_within(set: CharacterSet, low: u64, high: u64, part: &[u8]) -> bool
    ensures { result ≡ digits_with set (within low high) part.now }
{
    let n = text::number_in(set, part);
    text::all_numeric(set, part) & ((low <= n) & (n <= high))
}

fn one_or_two_digits(set: CharacterSet, part: &[u8]) -> bool
    ensures { result ≡ one_or_two_digits set part.now }
{
    text::all_admitted(set, DataType::NB, part) & text::some_numeric(set, part)
}

pub fn is_date(set: CharacterSet, s: &[u8]) -> bool
    ensures { result ≡ is_date set s.now }
{
    if s.len() != 8 {
        return false;
    }
    let year = text::number_in(set, &s[0..4]);
    let month = text::number_in(set, &s[4..6]);
    let day = text::number_in(set, &s[6..8]);
    text::all_numeric(set, s)
        & (((1993 <= year) & (year <= 9999))
            & (((1 <= month) & (month <= 12)) & ((1 <= day) & (day <= 31))))
}

pub fn is_hours_minutes(set: CharacterSet, s: &[u8]) -> bool
    ensures { result ≡ is_hours_minutes set s.now }
{
    if s.len() != 4 {
        return false;
    }
    let hours = text::number_in(set, &s[0..2]);
    let minutes = text::number_in(set, &s[2..4]);
    text::all_numeric(set, s) & ((hours <= 23) & (minutes <= 59))
}

pub fn is_hours_minutes_seconds(set: CharacterSet, s: &[u8]) -> bool
    ensures { result ≡ is_hours_minutes_seconds set s.now }
{
    if s.len() != 6 {
        return false;
    }
    let seconds = &s[4..6];
    is_hours_minutes(set, &s[0..4])
        & (text::all_numeric(set, seconds) & (text::number_in(set, seconds) <= 59))
}

fn weighted_sum(set: CharacterSet, s: &[u8]) -> u64
    requires { length s.now ≡ 9 }
    ensures { result ≡ weighted_sum set s.now }
{
    let three = text::digit_of(set, s[0]) + text::digit_of(set, s[3]) + text::digit_of(set, s[6]);
    let seven = text::digit_of(set, s[1]) + text::digit_of(set, s[4]) + text::digit_of(set, s[7]);
    let one = text::digit_of(set, s[2]) + text::digit_of(set, s[5]) + text::digit_of(set, s[8]);
    3 * three + 7 * seven + one
}

// TTTTAAAAC, with the ABA rule's check digit.
pub fn is_checked(set: CharacterSet, s: &[u8]) -> bool
    ensures { result ≡ is_TTTTAAAAC set s.now }
{
    if s.len() != 9 {
        return false;
    }
    text::all_numeric(set, s) & (weighted_sum(set, s) % 10 == 0)
}

// Nine characters: digits, a dash at a place, digits.
fn is_dashed_at(set: CharacterSet, place: usize, s: &[u8]) -> bool
    requires { place ≤ 8 }
    ensures { result ≡ parted_by set (is_dash set) place s.now }
{
    if s.len() != 9 {
        return false;
    }
    let behind = place + 1;
    text::all_numeric(set, &s[0..place])
        & (text::is_dash(set, s[place]) & text::all_numeric(set, &s[behind..9]))
}

// A blank and eight digits.
fn is_blanked(set: CharacterSet, s: &[u8]) -> bool
    ensures { result ≡ parted_by set (is_blank set) 0 s.now }
{
    if s.len() != 9 {
        return false;
    }
    text::is_blank(set, s[0]) & text::all_numeric(set, &s[1..9])
}

// The number of a body that is no bank.
fn is_nonfinancial(set: CharacterSet, s: &[u8]) -> bool
    ensures { result ≡ is_NNNNNNNNN set s.now }
{
    if s.len() != 9 {
        return false;
    }
    text::of_type(set, DataType::NB, s) & text::some_numeric(set, s)
}

// The forms that fewer senders use.
fn fits_rarer(set: CharacterSet, forms: Forms, s: &[u8]) -> bool
    ensures { result ≡ fits_rarer set forms s.now }
{
    (forms.canadian & is_dashed_at(set, 5, s))
        | ((forms.dashed & is_dashed_at(set, 4, s))
            | ((forms.blanked & is_blanked(set, s))
                | (forms.nonfinancial & is_nonfinancial(set, s))))
}

// One of the forms that are listed. Nearly all are nine digits with their check digit, so that form is tried first.
#[tactic(auto, unfolding(crate::specs::RoutingForms::fits_some))]
pub fn fits_some(set: CharacterSet, forms: Forms, s: &[u8]) -> bool
    ensures { result ≡ fits_some set forms s.now }
{
    forms.checked && is_checked(set, s) || fits_rarer(set, forms, s)
}

fn is_clipping_coordinate<'a>(
    set: CharacterSet,
    origin: usize,
    part: &'a [u8],
    body: &'a [u8],
) -> bool
    ensures { result ≡ clipping_coordinate set origin part.now body.now }
{
    let at_origin = body.get(origin).copied().unwrap_or(0);
    let clipped = text::capital_of(set, at_origin) != b'0';
    text::all_numeric(set, part) & (clipped | (text::number_in(set, part) == 0))
}

pub fn follows_rule<'a>(set: CharacterSet, rule: Rule, part: &'a [u8], body: &'a [u8]) -> bool
    ensures { result ≡ follows set rule part.now body.now }
{
    match rule {
        Rule::DataTypeAlone => true,
        Rule::Numbers(low, high) => number_within(set, low, high, part),
        Rule::AllDigits => text::all_numeric(set, part),
        Rule::OneOrTwoDigits => one_or_two_digits(set, part),
        Rule::StandardLevel => text::all_numeric(set, part)
            & is_standard_level(text::number_in(set, part)),
        Rule::CollectionType => text::all_numeric(set, part)
            & is_collection_type(text::number_in(set, part)),
        Rule::BundleCollectionType => {
            text::all_numeric(set, part) & is_bundle_collection_type(text::number_in(set, part))
        }
        Rule::SourceOfWork => text::all_numeric(set, part)
            & is_source_of_work(text::number_in(set, part)),
        Rule::Code(list) => holds_code(set, list, part),
        Rule::Date => is_date(set, part),
        Rule::HoursMinutes => is_hours_minutes(set, part),
        Rule::HoursMinutesSeconds => is_hours_minutes_seconds(set, part),
        Rule::Routing(forms) => fits_some(set, forms, part),
        Rule::ClippingCoordinate(origin) => is_clipping_coordinate(set, origin, part, body),
    }
}

// A conditional field may be left blank.
pub fn is_left_blank(set: CharacterSet, usage: Usage, part: &[u8]) -> bool
    ensures { result ≡ left_blank set usage part.now }
{
    usage == Usage::Conditional && text::all_blank(set, part)
}

// What is asked of a field of its data type: its rule, or a mark that leaves the data type alone to judge.
pub fn rule_holds<'a>(
    set: CharacterSet,
    t: DataType,
    rule: Rule,
    part: &'a [u8],
    body: &'a [u8],
) -> bool
    ensures { result ≡ follows set rule part.now body.now || some (is_mark set t) part.now }
{
    follows_rule(set, rule, part, body) || text::has_mark(set, t, part)
}

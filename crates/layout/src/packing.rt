// How layouts are written as numbers. A kind is one number of four parts, each two bytes, from the highest: its type, its fixed length, how
// many fields it has, and how many of these are parts after the fixed length. A field is one number of bytes, from the highest: its first
// position (two bytes), its size, its usage (the lowest bit) with its origin, its data type, its rule and the rule's two numbers.
ghost use Rattle.std.specs.Prelude.{◌≡◌, ◌-◌};
ghost use Rattle.layout.specs.Packing.{usage_of, origin_of, data_type_of, forms_in, rule_of, type_in, long_in, fields_in, parts_in};

use field::{CodeList, Forms, Rule, Usage};
use text::DataType;

// Where the characters of a field come from when a record is made out (request 4).
#[derive(Clone, Copy)]
pub enum Origin {
    Given,
    // Worked out: the record's type; the size of the part that the field sizes; how many addenda an item has; the addendum's number in it.
    TypeNumber,
    PartSize,
    AddendumCount,
    RecordNumber,
    // What the part of the file adds up to that a control record closes.
    DebitCount,
    DebitCents,
    MicrCents,
    ViewCount,
    CreditCount,
    CreditCents,
    BundleCount,
    LetterCount,
    RecordCount,
    ItemCount,
}

pub const KIND: u64 = 0x1_0000_0000_0000;

pub const LONG: u64 = 0x1_0000_0000;

pub const FIELDS: u64 = 0x1_0000;

pub const PARTS: u64 = 1;

pub const FIRST: u64 = 0x1_0000_0000_0000;

pub const SIZE: u64 = 0x100_0000_0000;

pub const LOW: u64 = 0x100;

pub const M: u64 = 0;

pub const C: u64 = 0x1_0000_0000;

// Where a field comes from when a record is made out: a field with none of these is given.
pub const TYPE_NUMBER: u64 = 1 * 0x2_0000_0000;

pub const PART_SIZE: u64 = 2 * 0x2_0000_0000;

pub const ADDENDUM_COUNT: u64 = 3 * 0x2_0000_0000;

pub const RECORD_NUMBER: u64 = 4 * 0x2_0000_0000;

pub const DEBIT_COUNT: u64 = 5 * 0x2_0000_0000;

pub const DEBIT_CENTS: u64 = 6 * 0x2_0000_0000;

pub const MICR_CENTS: u64 = 7 * 0x2_0000_0000;

pub const VIEW_COUNT: u64 = 8 * 0x2_0000_0000;

pub const CREDIT_COUNT: u64 = 9 * 0x2_0000_0000;

pub const CREDIT_CENTS: u64 = 10 * 0x2_0000_0000;

pub const BUNDLE_COUNT: u64 = 11 * 0x2_0000_0000;

pub const LETTER_COUNT: u64 = 12 * 0x2_0000_0000;

pub const RECORD_COUNT: u64 = 13 * 0x2_0000_0000;

pub const ITEM_COUNT: u64 = 14 * 0x2_0000_0000;

pub const AB: u64 = 1 * 0x100_0000;

pub const A: u64 = 2 * 0x100_0000;

pub const AN: u64 = 3 * 0x100_0000;

pub const ANS: u64 = 4 * 0x100_0000;

pub const BINARY: u64 = 5 * 0x100_0000;

pub const N: u64 = 6 * 0x100_0000;

pub const NB: u64 = 7 * 0x100_0000;

pub const NBD: u64 = 8 * 0x100_0000;

pub const NBQ: u64 = 9 * 0x100_0000;

pub const NBMC: u64 = 10 * 0x100_0000;

pub const NBMCD: u64 = 11 * 0x100_0000;

pub const NBMCDO: u64 = 12 * 0x100_0000;

pub const NBMU: u64 = 13 * 0x100_0000;

pub const NUMBERS: u64 = 1 * 0x1_0000;

pub const ALL_DIGITS: u64 = 2 * 0x1_0000;

pub const ONE_OR_TWO_DIGITS: u64 = 3 * 0x1_0000;

pub const STANDARD_LEVEL: u64 = 4 * 0x1_0000;

pub const COLLECTION_TYPE: u64 = 5 * 0x1_0000;

pub const BUNDLE_COLLECTION_TYPE: u64 = 6 * 0x1_0000;

pub const DATE: u64 = 7 * 0x1_0000;

pub const HOURS_MINUTES: u64 = 8 * 0x1_0000;

pub const HOURS_MINUTES_SECONDS: u64 = 9 * 0x1_0000;

// With the forms that the field lists, each a bit of the lowest byte.
pub const ROUTING: u64 = 10 * 0x1_0000;

pub const TTTTAAAAC: u64 = 1;

pub const TTTTT_FFF: u64 = 2;

pub const TTTT_AAAA: u64 = 4;

pub const B_TTTTAAAA: u64 = 8;

pub const NNNNNNNNN: u64 = 16;

pub const CLIPPED_BY: u64 = 11 * 0x1_0000;

pub const SOURCE_OF_WORK: u64 = 12 * 0x1_0000;

pub const FILE_TYPES: u64 = 21 * 0x1_0000;

pub const YES_NO: u64 = 22 * 0x1_0000;

pub const YES_NO_UNKNOWN: u64 = 23 * 0x1_0000;

pub const RECORD_TYPE_INDICATORS: u64 = 24 * 0x1_0000;

pub const CASH_LETTER_DOCUMENTATION: u64 = 25 * 0x1_0000;

pub const ITEM_DOCUMENTATION: u64 = 26 * 0x1_0000;

pub const RETURN_ACCEPTANCE: u64 = 27 * 0x1_0000;

pub const ARCHIVE_TYPES: u64 = 28 * 0x1_0000;

pub const TEST_OVERRIDES: u64 = 29 * 0x1_0000;

pub const ACCOUNT_TYPES: u64 = 30 * 0x1_0000;

// The parts of a kind's number.
pub fn type_in(header: u64) -> u64
    ensures { result ≡ type_in header }
{
    header / KIND
}

pub fn length_in(header: u64) -> usize
    ensures { result ≡ long_in header }
{
    (header / LONG % 0x1_0000) as usize
}

pub fn fields_in(header: u64) -> usize
    ensures { result ≡ fields_in header }
{
    (header / FIELDS % 0x1_0000) as usize
}

pub fn parts_in(header: u64) -> usize
    ensures { result ≡ parts_in header }
{
    (header / PARTS % 0x1_0000) as usize
}

// A position counted from 1 as a place counted from 0.
pub fn place_of(position: u64) -> usize
    ensures { result ≡ position - 1 }
{
    position.saturating_sub(1) as usize
}

// Stays: `usage_of`, `data_type_of` and `rule_of` are no `From`, since the types that they make are those of other crates; nor is `origin_of` beside them, since each
// reads a part of a packed number, and a number that is no code has a meaning too.
pub fn usage_of(code: u64) -> Usage
    ensures { result ≡ usage_of code }
{
    match code {
        0 => Usage::Mandatory,
        _ => Usage::Conditional,
    }
}

pub fn origin_of(code: u64) -> Origin
    ensures { result ≡ origin_of code }
{
    match code {
        1 => Origin::TypeNumber,
        2 => Origin::PartSize,
        3 => Origin::AddendumCount,
        4 => Origin::RecordNumber,
        5 => Origin::DebitCount,
        6 => Origin::DebitCents,
        7 => Origin::MicrCents,
        8 => Origin::ViewCount,
        9 => Origin::CreditCount,
        10 => Origin::CreditCents,
        11 => Origin::BundleCount,
        12 => Origin::LetterCount,
        13 => Origin::RecordCount,
        14 => Origin::ItemCount,
        _ => Origin::Given,
    }
}

pub fn data_type_of(code: u64) -> DataType
    ensures { result ≡ data_type_of code }
{
    match code {
        1 => DataType::AB,
        2 => DataType::A,
        3 => DataType::AN,
        4 => DataType::ANS,
        6 => DataType::N,
        7 => DataType::NB,
        8 => DataType::NBD,
        9 => DataType::NBQ,
        10 => DataType::NBMc,
        11 => DataType::NBMcd,
        12 => DataType::NBMcdo,
        13 => DataType::NBMU,
        _ => DataType::Binary,
    }
}

// The forms of a routing number, by their bits.
fn forms_in(bits: u64) -> Forms
    ensures { result ≡ forms_in bits }
{
    Forms {
        checked: bits / TTTTAAAAC % 2 == 1,
        canadian: bits / TTTTT_FFF % 2 == 1,
        dashed: bits / TTTT_AAAA % 2 == 1,
        blanked: bits / B_TTTTAAAA % 2 == 1,
        nonfinancial: bits / NNNNNNNNN % 2 == 1,
    }
}

pub fn rule_of(code: u64, low: u64, high: u64) -> Rule
    ensures { result ≡ rule_of code low high }
{
    match code {
        1 => Rule::Numbers(low, high),
        2 => Rule::AllDigits,
        3 => Rule::OneOrTwoDigits,
        4 => Rule::StandardLevel,
        5 => Rule::CollectionType,
        6 => Rule::BundleCollectionType,
        7 => Rule::Date,
        8 => Rule::HoursMinutes,
        9 => Rule::HoursMinutesSeconds,
        10 => Rule::Routing(forms_in(high)),
        11 => Rule::ClippingCoordinate(place_of(high)),
        12 => Rule::SourceOfWork,
        21 => Rule::Code(CodeList::FileTypes),
        22 => Rule::Code(CodeList::YesNo),
        23 => Rule::Code(CodeList::YesNoUnknown),
        24 => Rule::Code(CodeList::RecordTypeIndicators),
        25 => Rule::Code(CodeList::CashLetterDocumentation),
        26 => Rule::Code(CodeList::ItemDocumentation),
        27 => Rule::Code(CodeList::ReturnAcceptance),
        28 => Rule::Code(CodeList::ArchiveTypes),
        29 => Rule::Code(CodeList::TestOverrides),
        30 => Rule::Code(CodeList::AccountTypes),
        _ => Rule::DataTypeAlone,
    }
}

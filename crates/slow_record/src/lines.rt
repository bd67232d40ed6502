// What a line of the table says.
// Stays: the functions from codes to `Usage`, `DataType`, `CodeList` and `Rule`. The types are `text`'s and `field`'s, and From and u64 are the library's:
// no crate may write that impl here. The codes are this table's alone.
ghost use Rattle.std.specs.Prelude.{◌≡◌, ◌-◌};
ghost use Rattle.layout.specs.Fault.{as_field};
ghost use Rattle.layout.specs.Packing.{usage_of, data_type_of, forms_in};
ghost use Rattle.slow_record.specs.Rows.{list_of, rule_of, entry_of, is_field, is_part, is_record, is_variable};

use field::{CodeList, Forms, Rule, Usage};
use text::DataType;

fn kind_in(line: u64) -> u64
    ensures { result ≡ (entry_of line).kind }
{
    line / 100_000_000_000_000_000
}

fn role_in(line: u64) -> u64
    ensures { result ≡ (entry_of line).role }
{
    line / 100_000_000 % 10
}

// The line has a field of the fixed part of a kind, a field behind it, or the record itself.
pub fn is_field(kind: u64, line: u64) -> bool
    ensures { result ≡ is_field kind (entry_of line) }
{
    role_in(line) <= 1 && kind == kind_in(line)
}

pub fn is_part(kind: u64, line: u64) -> bool
    ensures { result ≡ is_part kind (entry_of line) }
{
    role_in(line) == 2 && kind == kind_in(line)
}

pub fn is_record(kind: u64, line: u64) -> bool
    ensures { result ≡ is_record kind (entry_of line) }
{
    role_in(line) == 3 && kind == kind_in(line)
}

// Records 27, 34 and 52 have fields behind their fixed part.
pub fn is_variable(kind: u64) -> bool
    ensures { result ≡ is_variable kind }
{
    matches!(kind, 27 | 34 | 52)
}

// The field's number, which the record itself has not.
pub fn field_in(line: u64) -> Option<usize>
    ensures { result ≡ as_field (entry_of line).number }
{
    match line / 1_000_000_000_000_000 % 100 {
        0 => None,
        number => Some(number as usize),
    }
}

// The first position counts from 1, a place from 0.
pub fn place_in(line: u64) -> usize
    ensures { result ≡ (entry_of line).first - 1 }
{
    slow_text::place_of((line / 1_000_000_000_000 % 1_000) as usize)
}

pub fn size_in(line: u64) -> usize
    ensures { result ≡ (entry_of line).size }
{
    (line / 1_000_000_000 % 1_000) as usize
}

pub fn usage_in(line: u64) -> Usage
    ensures { result ≡ usage_of (entry_of line).role }
{
    match role_in(line) {
        0 => Usage::Mandatory,
        _ => Usage::Conditional,
    }
}

// 5.3, in the order of the clause
fn data_type_of(code: u64) -> DataType
    ensures { result ≡ data_type_of code }
{
    match code {
        1 => DataType::AB,
        2 => DataType::A,
        3 => DataType::AN,
        4 => DataType::ANS,
        6 => DataType::N,
        7 => DataType::NB,
        8 => DataType::NBD,
        9 => DataType::NBQ,
        10 => DataType::NBMc,
        11 => DataType::NBMcd,
        12 => DataType::NBMcdo,
        13 => DataType::NBMU,
        _ => DataType::Binary,
    }
}

pub fn data_type_in(line: u64) -> DataType
    ensures { result ≡ (entry_of line).data_type }
{
    data_type_of(line / 1_000_000 % 100)
}

// The forms of a routing number, each a one or a zero to the base 2.
fn forms_in(n: u64) -> Forms
    ensures { result ≡ forms_in n }
{
    Forms {
        checked: n / 1 % 2 == 1,
        canadian: n / 2 % 2 == 1,
        dashed: n / 4 % 2 == 1,
        blanked: n / 8 % 2 == 1,
        nonfinancial: n / 16 % 2 == 1,
    }
}

// 6.8: the lists of codes
fn list_of(n: u64) -> CodeList
    ensures { result ≡ list_of n }
{
    match n {
        1 => CodeList::FileTypes,
        2 => CodeList::YesNo,
        3 => CodeList::YesNoUnknown,
        4 => CodeList::RecordTypeIndicators,
        5 => CodeList::CashLetterDocumentation,
        6 => CodeList::ItemDocumentation,
        7 => CodeList::ReturnAcceptance,
        8 => CodeList::ArchiveTypes,
        9 => CodeList::TestOverrides,
        _ => CodeList::AccountTypes,
    }
}

// 6.7 and 6.8
pub fn rule_of(code: u64, low: u64, high: u64) -> Rule
    ensures { result ≡ rule_of code low high }
{
    match code {
        1 => Rule::Numbers(low, high),
        2 => Rule::AllDigits,
        3 => Rule::OneOrTwoDigits,
        4 => Rule::StandardLevel,
        5 => Rule::CollectionType,
        6 => Rule::BundleCollectionType,
        7 => Rule::SourceOfWork,
        8 => Rule::Date,
        9 => Rule::HoursMinutes,
        10 => Rule::HoursMinutesSeconds,
        11 => Rule::Routing(forms_in(high)),
        12 => Rule::ClippingCoordinate(slow_text::place_of(high as usize)),
        13 => Rule::Code(list_of(high)),
        _ => Rule::DataTypeAlone,
    }
}

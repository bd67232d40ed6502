// Defined values for the slow reader (clause 6.8): the codes that a field may hold.
ghost use Rattle.std.specs.Prelude.{◌≡◌};
ghost use Rattle.field.specs.Values.{is_code, is_standard_level, is_collection_type, is_bundle_collection_type, is_source_of_work};
ghost use Rattle.field.specs.Rules.{code};

use field::CodeList;
use text::CharacterSet;

// 7.2: 01, 02, 03 and 20
pub fn is_standard_level(n: u64) -> bool
    ensures { result ≡ is_standard_level n }
{
    matches!(n, 1..=3 | 20)
}

// 26.11: 01 to 11 and 21 to 99
pub fn is_source_of_work(n: u64) -> bool
    ensures { result ≡ is_source_of_work n }
{
    matches!(n, 1..=11 | 21..=99)
}

// 9.2: 00, 01, 03, 05 to 07, 09, 12 and 80 to 89
pub fn is_bundle_collection_type(n: u64) -> bool
    ensures { result ≡ is_bundle_collection_type n }
{
    matches!(n, 0 | 1 | 3 | 5..=7 | 9 | 12 | 80..=89)
}

// 8.2: these, and 10, 20 and 99
pub fn is_collection_type(n: u64) -> bool
    ensures { result ≡ is_collection_type n }
{
    is_bundle_collection_type(n) || matches!(n, 10 | 20 | 99)
}

// A letter or a digit of a list.
#[tactic(auto, unfolding(field::specs::Values::is_code))]
fn is_in_list(list: CodeList, x: u8) -> bool
    ensures { result ≡ is_code list x }
{
    match list {
        CodeList::FileTypes => matches!(x, b'P' | b'T' | b'A' | b'B'), // 7.3
        CodeList::YesNo => matches!(x, b'Y' | b'N'), // 7.8, 11.9, 13.6, 15.9, 18.6
        CodeList::YesNoUnknown => matches!(x, b'Y' | b'N' | b'U'), // 10.11
        CodeList::RecordTypeIndicators => matches!(x, b'N' | b'E' | b'I' | b'F'), // 8.8
        CodeList::CashLetterDocumentation => matches!(x, b'A'..=b'M' | b'Z'), // 8.9
        CodeList::ItemDocumentation => matches!(x, b'A'..=b'M'), // 10.8, 16.6, 26.9
        CodeList::ReturnAcceptance => matches!(x, b'0'..=b'9' | b'A'..=b'F'), // 10.9
        CodeList::ArchiveTypes => matches!(x, b'A'..=b'I'), // 10.14, 16.7
        CodeList::TestOverrides => matches!(x, b'0' | b'A'..=b'R'), // 21.20
        CodeList::AccountTypes => matches!(x, b'1'..=b'5' | b'A'..=b'J'), // 26.10
    }
}

// A field of one character, which is in the list, a small letter as its capital.
pub fn is_code(set: CharacterSet, list: CodeList, s: &[u8]) -> bool
    ensures { result ≡ code set list s.now }
{
    let capital = slow_text::capital_of(set, slow_text::byte_at(s, 0));
    s.len() == 1 && is_in_list(list, capital)
}

// When one field is right, for the slow reader (request 12): its usage, its data type, and its Format or Defined Values. It calls nothing of
// `field` and shares its types and definitions.
// Stays: some of it does what a function of `field` does, since the two readers are to stand on separate code (request 12).
#![tactic(auto)]

mod formats;
mod values;

ghost use Rattle.std.specs.Prelude.{◌≡◌};
ghost use Rattle.field.specs.Rules.{one_or_two_digits, clipping_coordinate, follows, meets, holds};

use crate::formats::{fits_a_form, is_date, is_hours_minutes, is_hours_minutes_seconds};
use crate::values::{
    is_bundle_collection_type, is_code, is_collection_type, is_source_of_work, is_standard_level,
};
use field::{Rule, Usage};
use text::{CharacterSet, DataType};

// 21.11 and 21.12: '0' through '99' in two characters
fn is_one_or_two_digits(set: CharacterSet, part: &[u8]) -> bool
    ensures { result ≡ one_or_two_digits set part.now }
{
    slow_text::digits_and_blanks(set, part) && slow_text::some_digit(set, part)
}

// 22.10 to 22.13: a number, which is zero where the clipping origin is '0'
fn is_coordinate<'a>(set: CharacterSet, origin: usize, part: &'a [u8], body: &'a [u8]) -> bool
    ensures { result ≡ clipping_coordinate set origin part.now body.now }
{
    let unclipped = slow_text::capital_of(set, slow_text::byte_at(body, origin)) == b'0';
    slow_text::all_digits(set, part) && (!unclipped || slow_text::number_in(set, part) == 0)
}

// 6.7 and 6.8: the field's Format or Defined Values
#[tactic(auto, unfolding(field::specs::Rules::follows))]
fn follows_rule<'a>(set: CharacterSet, rule: Rule, part: &'a [u8], body: &'a [u8]) -> bool
    ensures { result ≡ follows set rule part.now body.now }
{
    let digits = slow_text::all_digits(set, part);
    let n = slow_text::number_in(set, part);
    match rule {
        Rule::DataTypeAlone => true,
        Rule::Numbers(low, high) => digits && (low..=high).contains(&n),
        Rule::AllDigits => digits,
        Rule::OneOrTwoDigits => is_one_or_two_digits(set, part),
        Rule::StandardLevel => digits && is_standard_level(n),
        Rule::CollectionType => digits && is_collection_type(n),
        Rule::BundleCollectionType => digits && is_bundle_collection_type(n),
        Rule::SourceOfWork => digits && is_source_of_work(n),
        Rule::Code(list) => is_code(set, list, part),
        Rule::Date => is_date(set, part),
        Rule::HoursMinutes => is_hours_minutes(set, part),
        Rule::HoursMinutesSeconds => is_hours_minutes_seconds(set, part),
        Rule::Routing(forms) => fits_a_form(set, forms, part),
        Rule::ClippingCoordinate(origin) => is_coordinate(set, origin, part, body),
    }
}

// The field is of its type, and follows its rule or has a mark where a character could not be read.
#[tactic(auto, unfolding(field::specs::Rules::meets))]
fn meets_its_type<'a>(
    set: CharacterSet,
    t: DataType,
    rule: Rule,
    part: &'a [u8],
    body: &'a [u8],
) -> bool
    ensures { result ≡ meets set t rule part.now body.now }
{
    slow_text::of_type(set, t, part)
        && (follows_rule(set, rule, part, body) || slow_text::some_mark(set, t, part))
}

// 6.3: a conditional field may be left blank, a mandatory one may not.
#[tactic(auto, unfolding(field::specs::Rules::holds))]
pub fn holds<'a>(
    set: CharacterSet,
    usage: Usage,
    t: DataType,
    rule: Rule,
    part: &'a [u8],
    body: &'a [u8],
) -> bool
    ensures { result ≡ holds set usage t rule part.now body.now }
{
    let meets = meets_its_type(set, t, rule, part, body);
    match usage {
        Usage::Mandatory => meets,
        Usage::Conditional => slow_text::all_blank(set, part) || meets,
    }
}

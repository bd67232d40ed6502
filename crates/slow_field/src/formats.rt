// Formats for the slow reader (clause 6.7): dates, times and routing numbers.
ghost use Rattle.std.specs.Prelude.{◌≡◌, ◌≤◌, take, drop};
ghost use Rattle.text.specs.Characters.{is_blank, is_dash};
ghost use Rattle.text.specs.Number.{number};
ghost use Rattle.field.specs.Formats.{is_date, is_hours_minutes, is_hours_minutes_seconds};
ghost use Rattle.field.specs.RoutingForms.{place, weighted_sum, is_TTTTAAAAC, parted_by, is_NNNNNNNNN, fits_some};

use field::Forms;
use text::{CharacterSet, DataType};

// The number in a part of a field.
fn number_at(set: CharacterSet, s: &[u8], start: usize, size: usize) -> u64
    ensures { result ≡ number set (take size (drop start s.now)) }
{
    slow_text::number_in(set, slow_text::part_of(s, start, size))
}

// YYYYMMDD: the year from 1993, the month from 01 to 12, the day from 01 to 31
#[tactic(auto, unfolding(field::specs::Formats::is_date))]
pub fn is_date(set: CharacterSet, s: &[u8]) -> bool
    ensures { result ≡ is_date set s.now }
{
    let year = number_at(set, s, 0, 4);
    let month = number_at(set, s, 4, 2);
    let day = number_at(set, s, 6, 2);
    s.len() == 8
        && slow_text::all_digits(set, s)
        && (1993..=9999).contains(&year)
        && (1..=12).contains(&month)
        && (1..=31).contains(&day)
}

// hhmm: from 0000 to 2359
#[tactic(auto, unfolding(field::specs::Formats::is_hours_minutes))]
pub fn is_hours_minutes(set: CharacterSet, s: &[u8]) -> bool
    ensures { result ≡ is_hours_minutes set s.now }
{
    let hours = number_at(set, s, 0, 2);
    let minutes = number_at(set, s, 2, 2);
    s.len() == 4 && slow_text::all_digits(set, s) && hours <= 23 && minutes <= 59
}

// hhmmss: the same, and seconds from 00 to 59
#[tactic(auto, unfolding(field::specs::Formats::is_hours_minutes_seconds))]
pub fn is_hours_minutes_seconds(set: CharacterSet, s: &[u8]) -> bool
    ensures { result ≡ is_hours_minutes_seconds set s.now }
{
    let before = is_hours_minutes(set, slow_text::part_of(s, 0, 4));
    let digits = slow_text::all_digits(set, slow_text::part_of(s, 4, 2));
    let seconds = number_at(set, s, 4, 2);
    s.len() == 6 && before && digits && seconds <= 59
}

fn digit_at(set: CharacterSet, s: &[u8], n: usize) -> u64
    ensures { (result ≡ place set s.now n) × (result ≤ 9) }
{
    slow_text::digit_of(set, slow_text::byte_at(s, n))
}

// The ABA rule: three times digits 1, 4 and 7, seven times digits 2, 5 and 8, and digits 3, 6 and 9.
fn weighted_sum(set: CharacterSet, s: &[u8]) -> u64
    ensures { result ≡ weighted_sum set s.now }
{
    let three = digit_at(set, s, 0) + digit_at(set, s, 3) + digit_at(set, s, 6);
    let seven = digit_at(set, s, 1) + digit_at(set, s, 4) + digit_at(set, s, 7);
    let one = digit_at(set, s, 2) + digit_at(set, s, 5) + digit_at(set, s, 8);
    3 * three + 7 * seven + one
}

// TTTTAAAAC: nine digits, and their weighted sum ends in 0
#[tactic(auto, unfolding(field::specs::RoutingForms::is_TTTTAAAAC))]
fn is_checked(set: CharacterSet, s: &[u8]) -> bool
    ensures { result ≡ is_TTTTAAAAC set s.now }
{
    s.len() == 9 && slow_text::all_digits(set, s) && weighted_sum(set, s) % 10 == 0
}

// TTTTT-FFF: five digits, a dash, three digits. TTTT-AAAA: four digits, a dash, four digits
#[tactic(auto, unfolding(field::specs::RoutingForms::parted_by))]
fn is_dashed(set: CharacterSet, place: usize, s: &[u8]) -> bool
    requires { place ≤ 8 }
    ensures { result ≡ parted_by set (is_dash set) place s.now }
{
    let before = slow_text::all_digits(set, slow_text::part_of(s, 0, place));
    let dash = slow_text::is_dash(set, slow_text::byte_at(s, place));
    let behind = slow_text::all_digits(set, slow_text::behind(s, place + 1));
    s.len() == 9 && before && dash && behind
}

// bTTTTAAAA: a blank, eight digits
#[tactic(auto, unfolding(field::specs::RoutingForms::parted_by))]
fn is_blanked(set: CharacterSet, s: &[u8]) -> bool
    ensures { result ≡ parted_by set (is_blank set) 0 s.now }
{
    let blank = slow_text::is_blank(set, slow_text::byte_at(s, 0));
    s.len() == 9 && blank && slow_text::all_digits(set, slow_text::behind(s, 1))
}

// NNNNNNNNN: digits that stand together, and blanks
#[tactic(auto, unfolding(field::specs::RoutingForms::is_NNNNNNNNN))]
fn is_nonfinancial(set: CharacterSet, s: &[u8]) -> bool
    ensures { result ≡ is_NNNNNNNNN set s.now }
{
    s.len() == 9 && slow_text::of_type(set, DataType::NB, s) && slow_text::some_digit(set, s)
}

// Request 1: a field takes the forms that its Format lines list.
#[tactic(auto, unfolding(field::specs::RoutingForms::fits_some))]
pub fn fits_a_form(set: CharacterSet, forms: Forms, s: &[u8]) -> bool
    ensures { result ≡ fits_some set forms s.now }
{
    (forms.checked && is_checked(set, s))
        || (forms.canadian && is_dashed(set, 5, s))
        || (forms.dashed && is_dashed(set, 4, s))
        || (forms.blanked && is_blanked(set, s))
        || (forms.nonfinancial && is_nonfinancial(set, s))
}

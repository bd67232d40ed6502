// Clause 5.3 for the slow reader: the field data types, by Table 2.
ghost use Rattle.std.specs.Prelude.{◌≡◌, ◌||◌};
ghost use Rattle.text.specs.Characters.{is_amount_symbol, is_cannot_read, is_dash, is_on_us_symbol, is_transit_symbol, is_blank, is_numeric};
ghost use Rattle.text.specs.DataTypes.{every, some, admits, keeps_digits_together, blank_embedded, of_type, is_mark};

use crate::basic_types::{
    is_alphabetic, is_amount_symbol, is_blank, is_cannot_read, is_dash, is_numeric,
    is_on_us_symbol, is_questionable, is_special, is_transit_symbol,
};
use text::{CharacterSet, DataType};

// The five symbols of the MICR line.
fn is_micr_symbol(set: CharacterSet, x: u8) -> bool
    ensures { result ≡ is_amount_symbol set x || (is_cannot_read set x || (is_dash set x || (is_on_us_symbol set x || is_transit_symbol set x))) }
{
    is_amount_symbol(set, x)
        || is_cannot_read(set, x)
        || is_dash(set, x)
        || is_on_us_symbol(set, x)
        || is_transit_symbol(set, x)
}

// 5.3.1 to 5.3.14: whether a character may stand in a field of the type
pub fn may_stand(set: CharacterSet, t: DataType, x: u8) -> bool
    ensures { result ≡ admits set t x }
{
    let alphabetic = is_alphabetic(set, x);
    let blank = is_blank(set, x);
    let numeric = is_numeric(set, x);
    let cannot_read = is_cannot_read(set, x);
    let dash = is_dash(set, x);
    match t {
        DataType::AB => blank,
        DataType::A => alphabetic,
        DataType::AN => alphabetic || numeric,
        DataType::ANS => alphabetic || numeric || is_special(set, x),
        DataType::Binary => true,
        DataType::N => numeric,
        DataType::NB => numeric || blank,
        DataType::NBD => numeric || blank || dash,
        DataType::NBQ => numeric || blank || is_questionable(set, x),
        DataType::NBMc => numeric || blank || cannot_read,
        DataType::NBMcd => numeric || blank || cannot_read || dash,
        DataType::NBMcdo => numeric || blank || cannot_read || dash || is_on_us_symbol(set, x),
        DataType::NBMU => numeric || blank || is_micr_symbol(set, x),
    }
}

// 5.1.4 and 5.2.2: the mark, of a type that has one, for a character that could not be read
pub fn is_mark(set: CharacterSet, t: DataType, x: u8) -> bool
    ensures { result ≡ is_mark set t x }
{
    match t {
        DataType::NBQ => is_questionable(set, x),
        DataType::NBMc | DataType::NBMcd | DataType::NBMcdo | DataType::NBMU => {
            is_cannot_read(set, x)
        }
        _ => false,
    }
}

// 5.3.8, 5.3.9 and 5.3.10: "Blanks shall not be embedded within the numeric digits."
fn keeps_digits_together(t: DataType) -> bool
    ensures { result ≡ keeps_digits_together t }
{
    matches!(t, DataType::NB | DataType::NBD | DataType::NBQ)
}

fn all_may_stand(set: CharacterSet, t: DataType, s: &[u8]) -> bool
    ensures { result ≡ every (admits set t) s.now }
{
    s.iter().all(|x| may_stand(set, t, *x))
}

pub fn all_blank(set: CharacterSet, s: &[u8]) -> bool
    ensures { result ≡ every (is_blank set) s.now }
{
    all_may_stand(set, DataType::AB, s)
}

pub fn all_digits(set: CharacterSet, s: &[u8]) -> bool
    ensures { result ≡ every (is_numeric set) s.now }
{
    all_may_stand(set, DataType::N, s)
}

pub fn digits_and_blanks(set: CharacterSet, s: &[u8]) -> bool
    ensures { result ≡ every (admits set DataType.NB) s.now }
{
    all_may_stand(set, DataType::NB, s)
}

pub fn some_digit(set: CharacterSet, s: &[u8]) -> bool
    ensures { result ≡ some (is_numeric set) s.now }
{
    for x in s {
        if is_numeric(set, *x) {
            return true;
        }
    }
    false
}

pub fn some_mark(set: CharacterSet, t: DataType, s: &[u8]) -> bool
    ensures { result ≡ some (is_mark set t) s.now }
{
    for x in s {
        if is_mark(set, t, *x) {
            return true;
        }
    }
    false
}

// A blank with a digit somewhere before it and a digit somewhere behind it.
fn blank_within_digits(set: CharacterSet, s: &[u8]) -> bool
    ensures { result ≡ blank_embedded set s.now }
{
    let mut before = false;
    for (i, x) in s.iter().enumerate() {
        if before && is_blank(set, *x) && some_digit(set, &s[i + 1..]) {
            return true;
        }
        before = before || is_numeric(set, *x);
    }
    false
}

// A field of the type: every character may stand in it, and its digits stand together where the type asks for it.
#[tactic(auto, unfolding(text::specs::DataTypes::of_type))]
pub fn of_type(set: CharacterSet, t: DataType, s: &[u8]) -> bool
    ensures { result ≡ of_type set t s.now }
{
    all_may_stand(set, t, s) && !(keeps_digits_together(t) && blank_within_digits(set, s))
}

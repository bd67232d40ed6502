// Clause 5: characters, field data types, and the number in a run of digits.
#![tactic(auto)]

mod character_set;
mod characters;
mod data_types;

ghost use Rattle.std.specs.Prelude.{◌≡◌, ◌<◌, ◌≤◌, ◌^◌, length, take};
ghost use Rattle.text.specs.Characters.{is_blank, is_numeric};
ghost use Rattle.text.specs.Capitals.{capital};
ghost use Rattle.text.specs.DataTypes.{every, some, admits, blank_embedded, of_type, is_mark};
ghost use Rattle.text.specs.Number.{code_of_zero, digit, value_after, number};

pub use character_set::{CharacterSet, set_of};
pub use characters::{
    is_alphabetic, is_amount_symbol, is_blank, is_cannot_read, is_dash, is_numeric,
    is_on_us_symbol, is_questionable, is_special, is_transit_symbol,
};
pub use data_types::{
    Charset, DataType, InAscii, InEbcdic, admits_in, is_alphanumeric_special, is_mark,
};

// The letter, in capitals, or the digit that a character is, by its ASCII code; 0 of any other. A lower case letter has the meaning of
// its upper case letter (clause 5.1.1).
#[tactic(auto, unfolding(crate::specs::Capitals::capital))]
pub fn capital_of(set: CharacterSet, x: u8) -> u8
    ensures { result ≡ capital set x }
{
    match set {
        CharacterSet::Ascii => match x {
            b'A'..=b'Z' | b'0'..=b'9' => x,
            b'a'..=b'z' => x - b'a' + b'A',
            _ => 0,
        },
        CharacterSet::Ebcdic => match x {
            0xC1..=0xC9 => x - 0xC1 + b'A',
            0xD1..=0xD9 => x - 0xD1 + b'J',
            0xE2..=0xE9 => x - 0xE2 + b'S',
            0x81..=0x89 => x - 0x81 + b'A',
            0x91..=0x99 => x - 0x91 + b'J',
            0xA2..=0xA9 => x - 0xA2 + b'S',
            0xF0..=0xF9 => x - 0xF0 + b'0',
            _ => 0,
        },
    }
}

// No early end: a branch on each character costs more than the rest of the characters.
fn all_in<S: Charset>(t: DataType, s: &[u8]) -> bool
    ensures { result ≡ every (admits S.set t) s.now }
{
    let mut all = true;
    for &x in s {
        all = all & admits_in::<S>(t, x);
    }
    all
}

pub fn all_admitted(set: CharacterSet, t: DataType, s: &[u8]) -> bool
    ensures { result ≡ every (admits set t) s.now }
{
    match set {
        CharacterSet::Ascii => all_in::<InAscii>(t, s),
        CharacterSet::Ebcdic => all_in::<InEbcdic>(t, s),
    }
}

pub fn has_mark(set: CharacterSet, t: DataType, s: &[u8]) -> bool
    ensures { result ≡ some (is_mark set t) s.now }
{
    s.iter().any(|&x| is_mark(set, t, x))
}

// A blank stands between two digits. `gap` says that a blank stands after some digit.
fn blank_between_digits(set: CharacterSet, s: &[u8]) -> bool
    ensures { result ≡ blank_embedded set s.now }
{
    let mut before = false;
    let mut gap = false;
    for &x in s {
        let numeric = is_numeric(set, x);
        if gap & numeric {
            return true;
        }
        gap = gap | (before & is_blank(set, x));
        before = before | numeric;
    }
    false
}

// Most fields that are asked for it are digits alone.
pub fn blank_embedded(set: CharacterSet, s: &[u8]) -> bool
    ensures { result ≡ blank_embedded set s.now }
{
    if all_numeric(set, s) {
        return false;
    }
    blank_between_digits(set, s)
}

// Whether a field is of its data type. Binary data is passed unread. Each type is named at its call, so that the compiler makes a loop of its own
// for each (and it does so only while some arms differ in form: else it makes one call of them all).
// Stays: arms that are alike are not one arm; all alike they took 46.69 million instructions and not 35.28 (docs/DECISIONS.md, 17).
#[tactic(auto, unfolding(crate::specs::DataTypes::of_type))]
fn of_type_in<S: Charset>(t: DataType, s: &[u8]) -> bool
    ensures { result ≡ of_type S.set t s.now }
{
    match t {
        DataType::AB => all_in::<S>(DataType::AB, s),
        DataType::A => all_in::<S>(DataType::A, s),
        DataType::AN => all_in::<S>(DataType::AN, s),
        DataType::ANS => all_in::<S>(DataType::ANS, s),
        DataType::Binary => true,
        DataType::N => all_in::<S>(DataType::N, s),
        DataType::NB => all_in::<S>(DataType::NB, s) & !blank_embedded(S::set(), s),
        DataType::NBD => all_in::<S>(DataType::NBD, s) & !blank_embedded(S::set(), s),
        DataType::NBQ => all_in::<S>(DataType::NBQ, s) & !blank_embedded(S::set(), s),
        DataType::NBMc => all_in::<S>(DataType::NBMc, s),
        DataType::NBMcd => all_in::<S>(DataType::NBMcd, s),
        DataType::NBMcdo => all_in::<S>(DataType::NBMcdo, s),
        DataType::NBMU => all_in::<S>(DataType::NBMU, s),
    }
}

pub fn of_type(set: CharacterSet, t: DataType, s: &[u8]) -> bool
    ensures { result ≡ of_type set t s.now }
{
    match set {
        CharacterSet::Ascii => of_type_in::<InAscii>(t, s),
        CharacterSet::Ebcdic => of_type_in::<InEbcdic>(t, s),
    }
}

// With an early end: most fields that are asked for it begin with another character. A `for` here and in the next two: by `all` and `any` they
// cost 15 to 19 instructions more in a hundred (290 thousand became 344 thousand over the fields of 748 records).
pub fn all_blank(set: CharacterSet, s: &[u8]) -> bool
    ensures { result ≡ every (is_blank set) s.now }
{
    for &x in s {
        if !is_blank(set, x) {
            return false;
        }
    }
    true
}

pub fn all_numeric(set: CharacterSet, s: &[u8]) -> bool
    ensures { result ≡ every (is_numeric set) s.now }
{
    for &x in s {
        if !is_numeric(set, x) {
            return false;
        }
    }
    true
}

pub fn some_numeric(set: CharacterSet, s: &[u8]) -> bool
    ensures { result ≡ some (is_numeric set) s.now }
{
    for &x in s {
        if is_numeric(set, x) {
            return true;
        }
    }
    false
}

fn zero_of(set: CharacterSet) -> u8
    ensures { result ≡ code_of_zero set }
{
    match set {
        CharacterSet::Ascii => b'0',
        CharacterSet::Ebcdic => 0xF0,
    }
}

pub fn digit_of(set: CharacterSet, x: u8) -> u64
    ensures { (result ≡ digit set x) × (result ≤ 9) }
{
    if is_numeric(set, x) {
        return u64::from(x - zero_of(set));
    }
    0
}

fn value_of(set: CharacterSet, s: &[u8]) -> u64
    requires { length s.now ≤ 19 }
    ensures { result ≡ value_after set 0 s.now }
{
    let mut value = 0;
    for &x in s {
        value = value * 10 + digit_of(set, x);
    }
    value
}

// The first characters, as many as 64 bits can hold the number of.
fn leading(s: &[u8]) -> &[u8]
    ensures { result.now ≡ take 19 s.now }
{
    s.get(..19).unwrap_or(s)
}

pub fn number_in(set: CharacterSet, s: &[u8]) -> u64
    ensures { result ≡ number set s.now }
{
    value_of(set, leading(s))
}

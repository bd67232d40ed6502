// For the slow reader: letters as capitals, digits as numbers, and parts of a run of bytes.
ghost use Rattle.std.specs.Prelude.{◌≡◌, ◌-◌, ◌≤◌, length, get_or, take, drop};
ghost use Rattle.text.specs.Capitals.{capital};
ghost use Rattle.text.specs.Number.{digit, value_after, number};

use text::CharacterSet;

// The bytes from a place on; none past the end.
pub fn behind(s: &[u8], place: usize) -> &[u8]
    ensures { result.now ≡ drop place s.now }
{
    s.get(place..).unwrap_or(&[])
}

// The bytes from a place on, as many as the size says or as there are.
pub fn part_of(s: &[u8], start: usize, size: usize) -> &[u8]
    ensures { result.now ≡ take size (drop start s.now) }
{
    let rest = behind(s, start);
    rest.get(..size).unwrap_or(rest)
}

// The byte at a place; 0 past the end.
// Stays: 0 and no Option here and in `capital_of` and `digit_of`, as `get_or`, `capital` and `digit` in their contracts have it.
pub fn byte_at(s: &[u8], place: usize) -> u8
    ensures { result ≡ get_or s.now place 0 }
{
    s.get(place).copied().unwrap_or(0)
}

// A position counted from 1 as a place counted from 0.
// Stays: no `saturating_sub`, since `layout` and `standing` find their places by that.
pub fn place_of(position: usize) -> usize
    ensures { result ≡ position - 1 }
{
    if position == 0 { 0 } else { position - 1 }
}

// 5.1.1: the letter that a character is, as a capital, or the digit, by its ASCII code; 0 for any other
#[tactic(auto, unfolding(text::specs::Capitals::capital))]
pub fn capital_of(set: CharacterSet, x: u8) -> u8
    ensures { result ≡ capital set x }
{
    match set {
        CharacterSet::Ascii => match x {
            b'A'..=b'Z' => x,
            b'a'..=b'z' => x - b'a' + b'A',
            b'0'..=b'9' => x,
            _ => 0,
        },
        CharacterSet::Ebcdic => match x {
            0xC1..=0xC9 => x - 0xC1 + b'A',
            0xD1..=0xD9 => x - 0xD1 + b'J',
            0xE2..=0xE9 => x - 0xE2 + b'S',
            0x81..=0x89 => x - 0x81 + b'A',
            0x91..=0x99 => x - 0x91 + b'J',
            0xA2..=0xA9 => x - 0xA2 + b'S',
            0xF0..=0xF9 => x - 0xF0 + b'0',
            _ => 0,
        },
    }
}

// 5.1.3: the number that a digit stands for
// Stays: `as` and no `u64::from`, since `text` reads its digits by that.
pub fn digit_of(set: CharacterSet, x: u8) -> u64
    ensures { (result ≡ digit set x) × (result ≤ 9) }
{
    match (set, x) {
        (CharacterSet::Ascii, b'0'..=b'9') => (x - b'0') as u64,
        (CharacterSet::Ebcdic, 0xF0..=0xF9) => (x - 0xF0) as u64,
        _ => 0,
    }
}

fn value_of(set: CharacterSet, s: &[u8]) -> u64
    requires { length s.now ≤ 19 }
    ensures { result ≡ value_after set 0 s.now }
{
    let mut value: u64 = 0;
    for x in s {
        value = value * 10 + digit_of(set, *x);
    }
    value
}

// The number in a field, by its first 19 characters: no field that is read as a number has more than 16.
#[tactic(auto, unfolding(text::specs::Number::number))]
pub fn number_in(set: CharacterSet, s: &[u8]) -> u64
    ensures { result ≡ number set s.now }
{
    value_of(set, part_of(s, 0, 19))
}

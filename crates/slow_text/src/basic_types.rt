// Clauses 5.1 and 5.2 for the slow reader: which character is what, in ASCII and in EBCDIC (code page 037), each range and each single
// character as the clause and Table 1 print it.
ghost use Rattle.std.specs.Prelude.{◌≡◌};
ghost use Rattle.text.specs.CharacterSet.{set_of};
ghost use Rattle.text.specs.Characters.{is_alphabetic, is_blank, is_numeric, is_questionable, is_special, is_amount_symbol, is_cannot_read, is_dash, is_on_us_symbol, is_transit_symbol};

use text::CharacterSet;

// Request 5: a file whose first record begins with 01 in EBCDIC, behind the four bytes of its length, is in EBCDIC.
#[tactic(auto, unfolding(text::specs::CharacterSet::set_of))]
pub fn set_of(file: &[u8]) -> CharacterSet
    ensures { result ≡ set_of file.now }
{
    match file {
        [_, _, _, _, 0xF0, 0xF1, ..] => CharacterSet::Ebcdic,
        _ => CharacterSet::Ascii,
    }
}

// 5.1.1: a letter, capital or small, or the blank
pub fn is_alphabetic(set: CharacterSet, x: u8) -> bool
    ensures { result ≡ is_alphabetic set x }
{
    match set {
        CharacterSet::Ascii => matches!(x, b'A'..=b'Z' | b'a'..=b'z' | b' '),
        CharacterSet::Ebcdic => matches!(
            x,
            0xC1..=0xC9 // A to I
            | 0xD1..=0xD9 // J to R
            | 0xE2..=0xE9 // S to Z
            | 0x81..=0x89 // a to i
            | 0x91..=0x99 // j to r
            | 0xA2..=0xA9 // s to z
            | 0x40
        ),
    }
}

// 5.1.2: the blank
pub fn is_blank(set: CharacterSet, x: u8) -> bool
    ensures { result ≡ is_blank set x }
{
    match set {
        CharacterSet::Ascii => x == b' ',
        CharacterSet::Ebcdic => x == 0x40,
    }
}

// 5.1.3: a digit
pub fn is_numeric(set: CharacterSet, x: u8) -> bool
    ensures { result ≡ is_numeric set x }
{
    match set {
        CharacterSet::Ascii => matches!(x, b'0'..=b'9'),
        CharacterSet::Ebcdic => matches!(x, 0xF0..=0xF9),
    }
}

// 5.1.4: the question mark
pub fn is_questionable(set: CharacterSet, x: u8) -> bool
    ensures { result ≡ is_questionable set x }
{
    match set {
        CharacterSet::Ascii => x == b'?',
        CharacterSet::Ebcdic => x == 0x6F,
    }
}

// 5.1.5: every other printable character, as Table 1 lists them
pub fn is_special(set: CharacterSet, x: u8) -> bool
    ensures { result ≡ is_special set x }
{
    match set {
        CharacterSet::Ascii => matches!(x, b'!'..=b'/' | b':'..=b'@' | b'['..=b'`' | b'{'..=b'~'),
        CharacterSet::Ebcdic => matches!(
            x,
            0x4B..=0x50 // . < ( + | &
            | 0x5A..=0x5E // ! $ * ) ;
            | 0x60..=0x61 // - /
            | 0x6B..=0x6F // , % _ > ?
            | 0x79..=0x7F // ` : # @ ' = "
            | 0xA1 // ~
            | 0xB0 // ^
            | 0xBA..=0xBB // [ ]
            | 0xC0 | 0xD0 | 0xE0
        ),
    }
}

// 5.2.1: the dollar sign
pub fn is_amount_symbol(set: CharacterSet, x: u8) -> bool
    ensures { result ≡ is_amount_symbol set x }
{
    match set {
        CharacterSet::Ascii => x == b'$',
        CharacterSet::Ebcdic => x == 0x5B,
    }
}

// 5.2.2: the asterisk, where a character could not be read
pub fn is_cannot_read(set: CharacterSet, x: u8) -> bool
    ensures { result ≡ is_cannot_read set x }
{
    match set {
        CharacterSet::Ascii => x == b'*',
        CharacterSet::Ebcdic => x == 0x5C,
    }
}

// 5.2.3: the dash
pub fn is_dash(set: CharacterSet, x: u8) -> bool
    ensures { result ≡ is_dash set x }
{
    match set {
        CharacterSet::Ascii => x == b'-',
        CharacterSet::Ebcdic => x == 0x60,
    }
}

// 5.2.4: the forward slash
pub fn is_on_us_symbol(set: CharacterSet, x: u8) -> bool
    ensures { result ≡ is_on_us_symbol set x }
{
    match set {
        CharacterSet::Ascii => x == b'/',
        CharacterSet::Ebcdic => x == 0x61,
    }
}

// 5.2.5: the number sign
pub fn is_transit_symbol(set: CharacterSet, x: u8) -> bool
    ensures { result ≡ is_transit_symbol set x }
{
    match set {
        CharacterSet::Ascii => x == b'#',
        CharacterSet::Ebcdic => x == 0x7B,
    }
}

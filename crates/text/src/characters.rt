// Clauses 5.1 and 5.2: the basic character types, in the order of the clauses, each as the ranges and single characters that the clause
// and Table 1 print, in ASCII and in EBCDIC (code page 037). Nothing else stands here, so that the page can be laid beside clause 5.
// Stays: comparisons joined by & and |, and not `matches!` of ranges: by it the loops over EBCDIC grow so large that the compiler leaves one of them
// as a call (2.36 million instructions and not 2.19 for a file of 62 KB in EBCDIC; in ASCII 2.17 either way).
ghost use Rattle.std.specs.Prelude.{◌≡◌};
ghost use Rattle.text.specs.Characters.{is_alphabetic, is_blank, is_numeric, is_questionable, is_special, is_amount_symbol, is_cannot_read, is_dash, is_on_us_symbol, is_transit_symbol};

use crate::character_set::CharacterSet;

// 5.1.1 (A): A through Z, a through z, and the blank
pub fn is_alphabetic(set: CharacterSet, x: u8) -> bool
    ensures { result ≡ is_alphabetic set x }
{
    match set {
        CharacterSet::Ascii => {
            ((b'A' <= x) & (x <= b'Z')) | (((b'a' <= x) & (x <= b'z')) | (x == b' '))
        }
        // A to I, J to R, S to Z; a to i, j to r, s to z; the blank
        CharacterSet::Ebcdic => {
            ((0xC1 <= x) & (x <= 0xC9))
                | (((0xD1 <= x) & (x <= 0xD9))
                    | (((0xE2 <= x) & (x <= 0xE9))
                        | (((0x81 <= x) & (x <= 0x89))
                            | (((0x91 <= x) & (x <= 0x99))
                                | (((0xA2 <= x) & (x <= 0xA9)) | (x == 0x40))))))
        }
    }
}

// 5.1.2 (B): the blank
pub fn is_blank(set: CharacterSet, x: u8) -> bool
    ensures { result ≡ is_blank set x }
{
    match set {
        CharacterSet::Ascii => x == b' ',
        CharacterSet::Ebcdic => x == 0x40,
    }
}

// 5.1.3 (N): 0 through 9
pub fn is_numeric(set: CharacterSet, x: u8) -> bool
    ensures { result ≡ is_numeric set x }
{
    match set {
        CharacterSet::Ascii => (b'0' <= x) & (x <= b'9'),
        CharacterSet::Ebcdic => (0xF0 <= x) & (x <= 0xF9),
    }
}

// 5.1.4 (Q): the question mark
pub fn is_questionable(set: CharacterSet, x: u8) -> bool
    ensures { result ≡ is_questionable set x }
{
    match set {
        CharacterSet::Ascii => x == b'?',
        CharacterSet::Ebcdic => x == 0x6F,
    }
}

// 5.1.5 (S): printable, above the blank, neither alphabetic nor numeric: the four ranges of Table 1
pub fn is_special(set: CharacterSet, x: u8) -> bool
    ensures { result ≡ is_special set x }
{
    match set {
        CharacterSet::Ascii => {
            ((b'!' <= x) & (x <= b'/'))
                | (((b':' <= x) & (x <= b'@'))
                    | (((b'[' <= x) & (x <= b'`')) | ((b'{' <= x) & (x <= b'~'))))
        }
        // . < ( + | &; ! $ * ) ; - /; , % _ > ?; ` : # @ ' = "; ~; ^; [ ]; { } and the backslash
        CharacterSet::Ebcdic => {
            ((0x4B <= x) & (x <= 0x50))
                | (((0x5A <= x) & (x <= 0x5E))
                    | (((0x60 <= x) & (x <= 0x61))
                        | (((0x6B <= x) & (x <= 0x6F))
                            | (((0x79 <= x) & (x <= 0x7F))
                                | ((x == 0xA1)
                                    | ((x == 0xB0)
                                        | (((0xBA <= x) & (x <= 0xBB))
                                            | ((x == 0xC0) | ((x == 0xD0) | (x == 0xE0))))))))))
        }
    }
}

// 5.2.1 (Ma): the dollar sign
pub fn is_amount_symbol(set: CharacterSet, x: u8) -> bool
    ensures { result ≡ is_amount_symbol set x }
{
    match set {
        CharacterSet::Ascii => x == b'$',
        CharacterSet::Ebcdic => x == 0x5B,
    }
}

// 5.2.2 (Mc): the asterisk
pub fn is_cannot_read(set: CharacterSet, x: u8) -> bool
    ensures { result ≡ is_cannot_read set x }
{
    match set {
        CharacterSet::Ascii => x == b'*',
        CharacterSet::Ebcdic => x == 0x5C,
    }
}

// 5.2.3 (Md): the dash
pub fn is_dash(set: CharacterSet, x: u8) -> bool
    ensures { result ≡ is_dash set x }
{
    match set {
        CharacterSet::Ascii => x == b'-',
        CharacterSet::Ebcdic => x == 0x60,
    }
}

// 5.2.4 (Mo): the forward slash
pub fn is_on_us_symbol(set: CharacterSet, x: u8) -> bool
    ensures { result ≡ is_on_us_symbol set x }
{
    match set {
        CharacterSet::Ascii => x == b'/',
        CharacterSet::Ebcdic => x == 0x61,
    }
}

// 5.2.5 (Mr): the number sign
pub fn is_transit_symbol(set: CharacterSet, x: u8) -> bool
    ensures { result ≡ is_transit_symbol set x }
{
    match set {
        CharacterSet::Ascii => x == b'#',
        CharacterSet::Ebcdic => x == 0x7B,
    }
}

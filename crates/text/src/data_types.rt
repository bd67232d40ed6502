// Clause 5.3: the field data types, each made of the basic character types as Table 2 makes it.
ghost use Rattle.std.specs.Prelude.{◌≡◌};
ghost use Rattle.text.specs.declared.data_types.DataType.TheVariants.{ANS};
ghost use Rattle.text.specs.declared.character_set.CharacterSet.{CharacterSet};
ghost use Rattle.text.specs.declared.character_set.CharacterSet.TheVariants.{Ascii, Ebcdic};
ghost use Rattle.text.specs.DataTypes.{admits, is_mark};

use crate::character_set::CharacterSet;
use crate::characters::{
    is_alphabetic, is_amount_symbol, is_blank, is_cannot_read, is_dash, is_numeric,
    is_on_us_symbol, is_questionable, is_special, is_transit_symbol,
};

// By the names that the standard gives them, in the order of the clause; ANC (5.3.4) is in no carried record.
#[derive(Clone, Copy, Debug, PartialEq, Eq)]
pub enum DataType {
    AB,
    A,
    AN,
    ANS,
    Binary,
    N,
    NB,
    NBD,
    NBQ,
    NBMc,
    NBMcd,
    NBMcdo,
    NBMU,
}

// 5.3.5 (ANS): the alphabetic, the numeric and the special characters.
pub fn is_alphanumeric_special(set: CharacterSet, x: u8) -> bool
    ensures { result ≡ admits set ANS x }
{
    is_alphabetic(set, x) | (is_numeric(set, x) | is_special(set, x))
}

// A character set as a type. What is generic over it knows its set, so that the compiler keeps one column of each basic type and makes a loop
// of its own for each set and data type.
pub trait Charset {
    ghost set: { CharacterSet };

    fn set() -> CharacterSet
        ensures { result ≡ set };

    // 5.3.5 (ANS)
    fn is_printable(x: u8) -> bool
        ensures { result ≡ admits set ANS x };
}

pub struct InAscii;

impl Charset for InAscii {
    ghost set = { Ascii };

    fn set() -> CharacterSet {
        CharacterSet::Ascii
    }

    // In Table 1 these stand together, from the blank through ~: one comparison.
    fn is_printable(x: u8) -> bool {
        matches!(x, b' '..=b'~')
    }
}

pub struct InEbcdic;

impl Charset for InEbcdic {
    ghost set = { Ebcdic };

    fn set() -> CharacterSet {
        CharacterSet::Ebcdic
    }

    fn is_printable(x: u8) -> bool {
        is_alphanumeric_special(CharacterSet::Ebcdic, x)
    }
}

// The characters to which a field of each type is limited, by the row of Table 2.
pub fn admits_in<S: Charset>(t: DataType, x: u8) -> bool
    ensures { result ≡ admits S.set t x }
{
    let set = S::set();
    match t {
        // 5.3.1
        DataType::AB => is_blank(set, x),
        // 5.3.2
        DataType::A => is_alphabetic(set, x),
        // 5.3.3
        DataType::AN => is_alphabetic(set, x) | is_numeric(set, x),
        // 5.3.5
        DataType::ANS => S::is_printable(x),
        // 5.3.6
        DataType::Binary => true,
        // 5.3.7
        DataType::N => is_numeric(set, x),
        // 5.3.8
        DataType::NB => is_numeric(set, x) | is_blank(set, x),
        // 5.3.9
        DataType::NBD => is_numeric(set, x) | (is_blank(set, x) | is_dash(set, x)),
        // 5.3.10
        DataType::NBQ => is_numeric(set, x) | (is_blank(set, x) | is_questionable(set, x)),
        // 5.3.11
        DataType::NBMc => is_numeric(set, x) | (is_blank(set, x) | is_cannot_read(set, x)),
        // 5.3.12
        DataType::NBMcd => {
            is_numeric(set, x) | (is_blank(set, x) | (is_cannot_read(set, x) | is_dash(set, x)))
        }
        // 5.3.13
        DataType::NBMcdo => {
            is_numeric(set, x)
                | (is_blank(set, x)
                    | (is_cannot_read(set, x) | (is_dash(set, x) | is_on_us_symbol(set, x))))
        }
        // 5.3.14
        DataType::NBMU => {
            is_numeric(set, x)
                | (is_blank(set, x)
                    | (is_amount_symbol(set, x)
                        | (is_cannot_read(set, x)
                            | (is_dash(set, x)
                                | (is_on_us_symbol(set, x) | is_transit_symbol(set, x))))))
        }
    }
}

// The can't-read or questionable mark, where the data type admits it (clauses 5.1.4 and 5.2.2).
pub fn is_mark(set: CharacterSet, t: DataType, x: u8) -> bool
    ensures { result ≡ is_mark set t x }
{
    match t {
        DataType::NBQ => is_questionable(set, x),
        DataType::NBMc | DataType::NBMcd | DataType::NBMcdo | DataType::NBMU => {
            is_cannot_read(set, x)
        }
        _ => false,
    }
}

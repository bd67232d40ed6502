// Prints what the proved code answers at each of the 256 bytes in each character set: a line of names, then for each set and byte the name of
// the set, the number of the byte, and a 1 or a 0 for each basic character type (clauses 5.1 and 5.2) and each data type (clause 5.3).
// docs/CHARACTERS.md is made from it.
#![tactic(auto)]

use std::io;
use text::{CharacterSet, Charset, DataType, InAscii, InEbcdic};

// In the order of the columns.
const DATA_TYPES: [DataType; 13] = [
    DataType::AB,
    DataType::A,
    DataType::AN,
    DataType::ANS,
    DataType::Binary,
    DataType::N,
    DataType::NB,
    DataType::NBD,
    DataType::NBQ,
    DataType::NBMc,
    DataType::NBMcd,
    DataType::NBMcdo,
    DataType::NBMU,
];

fn say(rt: &impl Print, admitted: bool) -> io::Result<()> {
    let digit = u8::from(admitted);
    print!(rt; " {digit}")
}

fn say_basic_types(rt: &impl Print, set: CharacterSet, byte: u8) -> io::Result<()> {
    let answers = [
        text::is_alphabetic(set, byte),
        text::is_blank(set, byte),
        text::is_numeric(set, byte),
        text::is_questionable(set, byte),
        text::is_special(set, byte),
        text::is_amount_symbol(set, byte),
        text::is_cannot_read(set, byte),
        text::is_dash(set, byte),
        text::is_on_us_symbol(set, byte),
        text::is_transit_symbol(set, byte),
    ];
    for admitted in answers {
        say(rt, admitted)?;
    }
    Ok(())
}

fn say_data_types<S: Charset>(rt: &impl Print, byte: u8) -> io::Result<()> {
    for data_type in DATA_TYPES {
        say(rt, text::admits_in::<S>(data_type, byte))?;
    }
    Ok(())
}

fn say_set<S: Charset>(rt: &impl Print) -> io::Result<()> {
    let set = S::set();
    for byte in 0..=u8::MAX {
        print!(rt; "{set} {byte}")?;
        say_basic_types(rt, set, byte)?;
        say_data_types::<S>(rt, byte)?;
        println!(rt;)?;
    }
    Ok(())
}

fn main(rt: HostRuntime) -> io::Result<()> {
    print!(rt; "set byte A B N Q S Ma Mc Md Mo Mr")?;
    println!(rt; " AB A AN ANS Binary N NB NBD NBQ NBMc NBMcd NBMcdo NBMU")?;
    say_set::<InAscii>(&rt)?;
    say_set::<InEbcdic>(&rt)
}

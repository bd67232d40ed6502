// Reads a file from standard input and says where the picture of the 52 at an offset stands: the offset is the first argument.
#![tactic(auto)]

use picture::{Found, FoundExt};
use std::io;
use std::io::Read;
use std::rt::Env;
use text::CharacterSet;

const LONGEST_FILE: u64 = 65_536;

// One byte more than the longest file, so that a file that is too long shows.
const BUFFER_SIZE: usize = 65_537;

// More characters than any offset has digits. A longer argument counts as none.
const LONGEST_ARGUMENT: usize = 32;

// Reads standard input until it ends or the buffer is full, and returns how many bytes that put into the buffer.
fn read_file(rt: &impl Input, buffer: &mut [u8; BUFFER_SIZE]) -> io::Result<u64> {
    let mut free: &mut [u8] = buffer;
    io::copy(&mut rt.reader().take(BUFFER_SIZE as u64), &mut free)
}

// The number in the first argument, 0 where there is none. Its bytes are taken as they are, as those of a field: what is no digit counts as a 0.
fn offset_asked(rt: &impl Env) -> u64 {
    let mut word = [0u8; LONGEST_ARGUMENT];
    let length = rt.arg(1, &mut word).unwrap_or(0);
    text::number_in(CharacterSet::Ascii, &word[..length])
}

fn say_found(rt: &impl Print, found: Found) -> io::Result<()> {
    match found {
        Ok(part) => println!(rt; "picture start {} length {}", part.start, part.size),
        Err(_) => {
            let number = found.number();
            let field = found.field();
            println!(rt; "refused {number} field {field}")
        }
    }
}

fn main(rt: HostRuntime) -> io::Result<()> {
    let mut buffer = [0u8; BUFFER_SIZE];
    let length = read_file(&rt, &mut buffer)?;
    if length > LONGEST_FILE {
        return println!(rt; "too long for this program");
    }
    let file = &buffer[..length as usize];
    let offset = offset_asked(&rt);
    say_found(&rt, picture::find_picture(file, offset as usize))
}

// Reads one file from standard input and prints one line: accepted, with what it adds up to, or refused, with the first fault.
#![tactic(auto)]

use passes::{Refusal, Totals};
use std::io;
use std::io::Read;

const LONGEST_FILE: u64 = 65_536;

// One byte more than the longest file, so that a file that is too long shows.
const BUFFER_SIZE: usize = 65_537;

// Rows for 1,000 records, seven numbers each.
const TABLE_SIZE: usize = 7_000;

// Reads standard input until it ends or the buffer is full, and returns how many bytes that put into the buffer.
fn read_file(rt: &impl Input, buffer: &mut [u8; BUFFER_SIZE]) -> io::Result<u64> {
    let mut free: &mut [u8] = buffer;
    io::copy(&mut rt.reader().take(BUFFER_SIZE as u64), &mut free)
}

fn say_accepted(rt: &impl Print, totals: Totals) -> io::Result<()> {
    let records = totals.records.0;
    let letters = totals.letters;
    let bundles = totals.bundles;
    let items = totals.items.0;
    let views = totals.sums.views.0;
    let debit = totals.sums.debit.0;
    println!(rt;
        "accepted records {records} letters {letters} bundles {bundles} items {items} views {views} debit {debit}"
    )
}

fn say_refused(rt: &impl Print, refusal: Refusal) -> io::Result<()> {
    let Refusal {
        fault,
        place,
        offset,
    } = refusal;
    let number = fault.number();
    let field = fault.field();
    println!(rt; "refused {number} record {place} field {field} offset {offset}")
}

fn main(rt: HostRuntime) -> io::Result<()> {
    let mut buffer = [0u8; BUFFER_SIZE];
    let length = read_file(&rt, &mut buffer)?;
    if length > LONGEST_FILE {
        return println!(rt; "too long for this program");
    }
    let file = &buffer[..length as usize];
    let mut table = [0u64; TABLE_SIZE];
    match reader::read(file, &mut table) {
        Ok(totals) => say_accepted(&rt, totals),
        Err(refusal) => say_refused(&rt, refusal),
    }
}

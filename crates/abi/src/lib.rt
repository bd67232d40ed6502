// The calls for C and Rust (include/x9180.h).
#![tactic(auto)]

mod salvaging;
mod slowly;

ghost use Rattle.std.specs.Prelude.{◌≡◌};
ghost use Rattle.text.specs.declared.character_set.CharacterSet.TheVariants.{Ascii};
ghost use Rattle.passes.specs.Answers.{answer_number, numbers_of};
ghost use Rattle.abi.specs.Filled.{set_numbered, entering_number, entering_numbers};
ghost use Rattle.abi.specs.Outcomes.{Reading, Writing, Drafting, Picturing, Judging, Tagging, Booking, LookingUp, Tallying, Withdrawing, Tidying};

use book_model::{Entering, Tally};
use judge::JudgedExt;
use passes::Answer;
use picture::FoundExt;
pub use salvaging::x9_salvage;
pub use slowly::x9_read_slowly;
use text::CharacterSet;
use tiff::TagsExt;

// The number and the numbers of an answer, where the file has so many bytes: those of an acceptance, or of a refusal.
fn tell(bytes: u64, told: Answer, answer: &mut [u64; 12]) -> u64
    ensures { (result ≡ answer_number told) × (answer.new ≡ numbers_of bytes told) }
{
    match told {
        Ok(totals) => {
            let sums = totals.sums;
            let records = totals.records.0;
            let letters = totals.letters;
            let bundles = totals.bundles;
            let items = totals.items.0;
            let views = sums.views.0;
            let cents = sums.debit.0;
            let credits = sums.credits.0;
            let credit_cents = sums.credit.0;
            *answer = [
                0,
                records,
                0,
                bytes,
                records,
                letters,
                bundles,
                items,
                views,
                cents,
                credits,
                credit_cents,
            ];
            0
        }
        Err(refusal) => {
            let number = refusal.fault.number();
            let field = refusal.fault.field() as u64;
            let place = refusal.place;
            let offset = refusal.offset;
            *answer = [number, place, field, offset as u64, 0, 0, 0, 0, 0, 0, 0, 0];
            number
        }
    }
}

// The reading of a whole file: the number, in `table` the rows of an accepted file, and in `answer` number, record, field, offset, and
// the totals: records, cash letters, bundles, items, views, debit cents, credits, credit cents.
#[unsafe(no_mangle)]
pub extern "C" fn x9_read(file: &[u8], table: &mut [u64], answer: &mut [u64; 12]) -> u64
    ensures { Reading file.now table.old result table.new answer.new }
{
    let size = file.len() as u64;
    tell(size, reader::read(file, table), answer)
}

// The making out of a whole file: the number, in `out` the bytes of a file that could be made out, and in `answer` the numbers as x9_read has them, with
// the bytes written as the offset.
#[unsafe(no_mangle)]
pub extern "C" fn x9_write<'a>(
    text: &'a [u8],
    draft: &'a [u64],
    out: &mut [u8],
    answer: &mut [u64; 12],
) -> u64
    ensures { Writing text.now draft.now out.old result out.new answer.new }
{
    match writer::write(text, draft, out) {
        Ok((bytes, totals)) => tell(bytes as u64, Ok(totals), answer),
        Err(refusal) => tell(0, Err(refusal), answer),
    }
}

// The draft of an accepted file: the number, in `draft` its rows, and in `answer` the numbers of the reading.
#[unsafe(no_mangle)]
pub extern "C" fn x9_draft(file: &[u8], draft: &mut [u64], answer: &mut [u64; 12]) -> u64
    ensures { Drafting file.now draft.old result draft.new answer.new }
{
    let bytes = file.len() as u64;
    tell(bytes, drafting::draft_of(file, draft), answer)
}

// The picture call: the number, and in `place` number, field, and start and length of the Image Data part within the file.
#[unsafe(no_mangle)]
pub extern "C" fn x9_picture(file: &[u8], offset: u64, place: &mut [u64; 4]) -> u64
    ensures { Picturing file.now offset result place.new }
{
    let found = picture::find_picture(file, offset as usize);
    let number = found.number();
    let field = found.field() as u64;
    let start = found.start() as u64;
    let size = found.size() as u64;
    *place = [number, field, start, size];
    number
}

// One record judged alone, from its body in a set.
fn judge_in(set: CharacterSet, body: &[u8], answer: &mut [u64; 2]) -> u64
    ensures { Judging set body.now result answer.new }
{
    let judged = judge::judge_record(set, body);
    let number = judged.number();
    let field = judged.field() as u64;
    *answer = [number, field];
    number
}

// One record judged alone as ASCII: the number, and in `answer` number and field.
#[unsafe(no_mangle)]
pub extern "C" fn x9_record(body: &[u8], answer: &mut [u64; 2]) -> u64
    ensures { Judging Ascii body.now result answer.new }
{
    judge_in(CharacterSet::Ascii, body, answer)
}

// Stays: the number is the C interface's, and no crate may write `From<u64>` for a type of `text` here.
fn set_numbered(n: u64) -> CharacterSet
    ensures { result ≡ set_numbered n }
{
    if n == 1 {
        return CharacterSet::Ebcdic;
    }
    CharacterSet::Ascii
}

// The same of a record whose set the caller tells: 1 is EBCDIC, any other number ASCII.
#[unsafe(no_mangle)]
pub extern "C" fn x9_record_in(body: &[u8], set: u64, answer: &mut [u64; 2]) -> u64
    ensures { Judging (set_numbered set) body.now result answer.new }
{
    judge_in(set_numbered(set), body, answer)
}

// The tags of one image against X9.100-181: the number, and in `answer` number and tag.
#[unsafe(no_mangle)]
pub extern "C" fn x9_tiff(image: &[u8], answer: &mut [u64; 2]) -> u64
    ensures { Tagging image.now result answer.new }
{
    let tags = tiff::judge_tags(image);
    let number = tags.number();
    let tag = tags.tag();
    *answer = [number, tag];
    number
}

// The number and the numbers of an entering: those of the reading, and the first entry number given.
fn tell_entered(bytes: u64, entering: Entering, answer: &mut [u64; 13]) -> u64
    ensures { (result ≡ entering_number entering) × (answer.new ≡ entering_numbers bytes entering) }
{
    let (first, told) = match entering {
        Ok((first, totals)) => (first, Ok(totals)),
        Err(refusal) => (0, Err(refusal)),
    };
    let mut read = [0; 12];
    let number = tell(bytes, told, &mut read);
    answer[..12].copy_from_slice(&read);
    answer[12] = first;
    number
}

// An owner enters a file into a day book: the number, in `table` its rows, in `book` its letters, in `list` its file number, and in `answer` the numbers of
// the reading and the first entry number given.
#[unsafe(no_mangle)]
pub extern "C" fn x9_book_enter(
    file: &[u8],
    number: u64,
    owner: u64,
    table: &mut [u64],
    book: &mut [u64],
    list: &mut [u64],
    answer: &mut [u64; 13],
) -> u64
    ensures { Booking file.now number owner table.old book.old list.old result table.new book.new list.new answer.new }
{
    let bytes = file.len() as u64;
    tell_entered(
        bytes,
        book::enter(file, number, owner, table, book, list),
        answer,
    )
}

// Looking up one of an owner's entries in a day book: the number, and in `found` number, entry number, file number, and the letter's figures.
#[unsafe(no_mangle)]
pub extern "C" fn x9_book_find(book: &[u64], owner: u64, number: u64, found: &mut [u64; 9]) -> u64
    ensures { LookingUp book.now owner number result found.new }
{
    match book::find(book, owner, number) {
        Ok(e) => {
            let figures = e.figures;
            let sums = figures.sums;
            *found = [
                0,
                e.number,
                e.file,
                figures.bundles,
                sums.debits.0,
                sums.credits.0,
                sums.views.0,
                sums.debit.0,
                sums.credit.0,
            ];
            0
        }
        Err(fault) => {
            let refused = fault.number();
            *found = [refused, 0, 0, 0, 0, 0, 0, 0, 0];
            refused
        }
    }
}

// An owner's running totals in a day book: the number, and in `totals` number, entries, the six figures, and the net position in two's complement.
#[unsafe(no_mangle)]
pub extern "C" fn x9_book_totals(book: &[u64], owner: u64, totals: &mut [u64; 9]) -> u64
    ensures { Tallying book.now owner result totals.new }
{
    match book::totals(book, owner) {
        Ok(
            Tally {
                entries,
                figures,
                net,
            },
        ) => {
            let net = net::bits_of(net);
            let sums = figures.sums;
            *totals = [
                0,
                entries,
                figures.bundles,
                sums.debits.0,
                sums.credits.0,
                sums.views.0,
                sums.debit.0,
                sums.credit.0,
                net,
            ];
            0
        }
        Err(fault) => {
            let refused = fault.number();
            *totals = [refused, 0, 0, 0, 0, 0, 0, 0, 0];
            refused
        }
    }
}

// An owner withdraws one of its entries from a day book: the number, and in `book` what is left.
#[unsafe(no_mangle)]
pub extern "C" fn x9_book_withdraw(book: &mut [u64], list: &[u64], owner: u64, number: u64) -> u64
    ensures { Withdrawing book.old list.now owner number result book.new }
{
    match book::withdraw(book, list, owner, number) {
        Ok(()) => 0,
        Err(fault) => fault.number(),
    }
}

// The gaps of a day book closed: the number, and in `book` the rows without gaps.
#[unsafe(no_mangle)]
pub extern "C" fn x9_book_tidy(book: &mut [u64], list: &[u64]) -> u64
    ensures { Tidying book.old list.now result book.new }
{
    match book::tidy(book, list) {
        Ok(()) => 0,
        Err(fault) => fault.number(),
    }
}

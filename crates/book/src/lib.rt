// The calls of the day book: it copies a cash letter's own figures when its file is accepted, and no later file can alter them.
#![tactic(auto)]

ghost use Rattle.std.specs.Prelude.{true, ◌≡◌, ◌+◌, ◌-◌, ◌*◌, ◌≤◌, ◌<◌, length};
ghost use Rattle.letters.specs.Letters.{letters_of};
ghost use Rattle.letters.specs.OfArrangement.{LettersOwn};
ghost use Rattle.passes.specs.Answers.{Accepted};
ghost use Rattle.passes.specs.Reading.{surveyed};
ghost use Rattle.passes.specs.Rows.{rows_of as rows_of_file};
ghost use Rattle.book_model.specs.PlainList.{entries_on, finding, withdrawing};
ghost use Rattle.book_model.specs.Table.{is_owner, entries_from, rows_claimed, entries_of, is_book, is_list, placed};
ghost use Rattle.frame.specs.Unless.{unless};
ghost use Rattle.book_model.specs.Calls.{enter_answer, rows_after, book_after, list_after, find_answer, totals_answer, withdraw_answer, book_withdrawn, tidy_answer, book_tidied};

use book_model::{Change, Entering, Entry, Finding, Tally, Tallying};
use figures::Figures;
use frame::{Cursor, Extent};
use passes::{Fault, Refusal, Totals};
use standing::Standing;
use text::CharacterSet;

// A row for each cash letter of an accepted file, in the lowest gaps among so many rows claimed and then behind them, numbered on from a number.
fn put_letters(file: &[u8], number: u64, owner: u64, last: u64, book: &mut [u64], claimed: u64)
    requires { (length file.now ≤ 268_435_456) × (17 + 9 * claimed ≤ length book.old) × (17 + 9 * (length (entries_from 1 book.old claimed 17) + length (entries_from 2 book.old claimed 17) + length (letters_of file.now)) ≤ length book.old) × (last + length (letters_of file.now) < 0x1_0000_0000_0000_0000) }
    ensures { book.new ≡ placed owner book.old claimed 17 (entries_on last number (letters_of file.now)) }
{
    let set = text::set_of(file);
    let mut s = Standing::start();
    let mut at: usize = 0;
    let mut place: usize = 17;
    let mut rows = claimed;
    let mut given = last;
    // Stays: the step is what the record's length says, so that no range counts it.
    while at < file.len() {
        let Some(Extent { start, size }) = Cursor::at(at).frame(file) else {
            return;
        };
        let kind = judge::type_of(set, frame::part_of(file, start, size));
        s = standing::moved(set, file, s, kind, at);
        if kind == 90 {
            let spot = book_gaps::free_row(book, place, rows);
            let sums = s.letter;
            let figures = Figures {
                bundles: s.opened,
                sums,
            };
            given += 1;
            let e = Entry {
                number: given,
                file: number,
                figures,
            };
            book_table::put_row(book, spot.at, owner, e);
            place = spot.at + 9;
            rows = spot.rows;
        }
        at = start + size;
    }
}

// A file that the reader accepts with the row table that is lent, so many rows for so many records; a book with its list, and one of its owners.
// Stays: that the book and the list are such is said by clauses, here as in `book_gaps` and `taken_list`. docs/DECISIONS.md, 20, says where each `requires`
// stands and names these crates; and a type for it would be needed twice, over tables that are read and tables that are written.
fn enter_accepted(
    file: &[u8],
    number: u64,
    owner: u64,
    totals: Totals,
    table: &mut [u64],
    book: &mut [u64],
    list: &mut [u64],
) -> Entering
    requires { (is_book book.old ≡ true) × (is_list list.old ≡ true) × (is_owner owner ≡ true) × (surveyed file.now ≡ Accepted totals) × (length (rows_of_file file.now) ≡ 7 * totals.records.0) }
    ensures answer { result ≡ enter_answer file.now number owner (length table.old) book.old list.old }
    ensures rows { table.new ≡ rows_after file.now table.old result }
    ensures book { book.new ≡ book_after file.now number owner book.old result }
    ensures list { list.new ≡ list_after number owner list.old result }
{
    let needed = totals.records.0;
    if (table.len() as u64) / 7 < needed {
        return Err(Refusal::of_file(Fault::Room, needed));
    }
    if taken_list::is_taken(list, owner, number) {
        return Err(Refusal::of_file(Fault::Duplicate, 0));
    }
    let letters = totals.letters;
    let sums = totals.sums;
    let added = Figures {
        bundles: totals.bundles,
        sums,
    };
    if !book_table::keeps_range(book, owner, added) {
        return Err(Refusal::of_file(Fault::Range, 0));
    }
    let claimed = book_table::number_at(book, 0);
    let used = book_gaps::rows_used(book, claimed);
    let free = book_table::rows_there(book) - used;
    if !(taken_list::has_place(list) & book_table::has_room(book, owner, free, letters, added)) {
        return Err(Refusal::of_file(Fault::Full, 0));
    }
    let last = book_table::number_at(book, book_table::block_of(owner));
    passes::fill(file, table);
    put_letters(file, number, owner, last, book, claimed);
    book_table::raise_head(
        book,
        owner,
        letters.saturating_sub(claimed - used),
        letters,
        added,
    );
    taken_list::put_taken(list, owner, number);
    Ok((last + 1, totals))
}

// An owner enters a file under its own number for it: its letters join the book and its number the list, and its rows fill the row table, or nothing
// changes. Any file, table, book and list get their answer.
pub fn enter(
    file: &[u8],
    number: u64,
    owner: u64,
    table: &mut [u64],
    book: &mut [u64],
    list: &mut [u64],
) -> Entering
    ensures answer { result ≡ enter_answer file.now number owner (length table.old) book.old list.old }
    ensures rows { table.new ≡ rows_after file.now table.old result }
    ensures book { book.new ≡ book_after file.now number owner book.old result }
    ensures list { list.new ≡ list_after number owner list.old result }
    ensures own { LettersOwn file.now }
{
    if !(book_table::is_book(book) & taken_list::is_list(list)) {
        return Err(Refusal::of_file(Fault::Book, 0));
    }
    if !book_table::is_owner(owner) {
        return Err(Refusal::of_file(Fault::NoEntry, 0));
    }
    let totals = passes::survey(file)?;
    enter_accepted(file, number, owner, totals, table, book, list)
}

// What is asked of a call, one thing after the other: a fault unless a test holds.
fn unless(holds: bool, fault: Fault) -> Change
    ensures { result ≡ unless holds (Err fault) (Ok tt) }
{
    if holds { Ok(()) } else { Err(fault) }
}

// What a look-up and the totals ask: a book, and one of its owners. It gives how many rows the book claims.
fn claimed_for(book: &[u64], owner: u64) -> Result<u64, Fault>
    ensures { result ≡ unless (is_book book.now) (Err Fault.Book) (unless (is_owner owner) (Err Fault.NoEntry) (Ok (rows_claimed book.now))) }
{
    unless(book_table::is_book(book), Fault::Book)?;
    unless(book_table::is_owner(owner), Fault::NoEntry)?;
    Ok(book_table::number_at(book, 0))
}

// Looking up one of an owner's entries: any table gets its answer.
#[tactic(auto, unfolding(book_model::specs::Calls::find_answer))]
pub fn find(book: &[u64], owner: u64, number: u64) -> Finding
    ensures { result ≡ find_answer book.now owner number }
{
    let rows = claimed_for(book, owner)?;
    book_table::first_numbered(book, owner, rows, number)
}

// How many entries an owner has, and its running totals and net position, which stand in the head.
pub fn totals(book: &[u64], owner: u64) -> Tallying
    ensures { result ≡ totals_answer book.now owner }
{
    let claimed = claimed_for(book, owner)?;
    let entries = book_table::own_rows(book, owner, claimed);
    let block = book_table::block_of(owner);
    let figures = book_table::figures_at(book, block + 1);
    let net = net::signed_of(book_table::number_at(book, block + 7));
    Ok(Tally {
        entries,
        figures,
        net,
    })
}

// The entry that a look-up of an owner's finds leaves the book, unless the net position would then lie beyond its bound.
fn withdraw_found(book: &mut [u64], owner: u64, number: u64, e: Entry) -> Change
    requires { (is_book book.old ≡ true) × (is_owner owner ≡ true) × (finding (entries_of owner book.old) number ≡ Ok e) }
    ensures answer { result ≡ withdrawing (entries_of owner book.old) number }
    ensures book { book.new ≡ book_withdrawn owner number book.old result }
{
    let figures = e.figures;
    if !book_table::keeps_range_without(book, owner, figures) {
        return Err(Fault::Range);
    }
    let claimed = book_table::number_at(book, 0);
    book_gaps::clear_row(book, owner, claimed, number);
    book_table::lower_head(book, owner, figures);
    Ok(())
}

// An owner withdraws one of its entries: its row is free again, its number and its file number are not.
pub fn withdraw(book: &mut [u64], list: &[u64], owner: u64, number: u64) -> Change
    ensures answer { result ≡ withdraw_answer book.old list.now owner number }
    ensures book { book.new ≡ book_withdrawn owner number book.old result }
{
    unless(
        book_table::is_book(book) & taken_list::is_list(list),
        Fault::Book,
    )?;
    unless(book_table::is_owner(owner), Fault::NoEntry)?;
    let claimed = book_table::number_at(book, 0);
    let e = book_table::first_numbered(book, owner, claimed, number)?;
    withdraw_found(book, owner, number, e)
}

// Gaps are closed; order, numbers and figures stay.
pub fn tidy(book: &mut [u64], list: &[u64]) -> Change
    ensures answer { result ≡ tidy_answer book.old list.now }
    ensures book { book.new ≡ book_tidied book.old result }
{
    unless(
        book_table::is_book(book) & taken_list::is_list(list),
        Fault::Book,
    )?;
    book_gaps::tidy(book);
    Ok(())
}

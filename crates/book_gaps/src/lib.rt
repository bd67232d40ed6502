// Gaps among the rows of a day book: found, made and closed (request 10).
#![tactic(auto)]

ghost use Rattle.std.specs.Prelude.{true, ◌≡◌, ◌+◌, ◌*◌, ◌≤◌, length};
ghost use Rattle.std.proofs.lemmas.List.Edits.{sets};
ghost use Rattle.frame.specs.Frames.{part};
ghost use Rattle.copying.specs.Times.{times};
ghost use Rattle.book_model.specs.Table.{rows_claimed, rows_there, entries_from, is_book, cleared, used_from, tidied};
ghost use Rattle.book_gaps.specs.Spots.{spot_from};

use book_model::Entry;
use figures::Figures;

// A row that is free, and how many of the rows claimed are still to come behind it.
#[derive(Clone, Copy)]
pub struct Spot {
    pub at: usize,
    pub rows: u64,
}

// How many rows among so many are either owner's.
pub fn rows_used(book: &[u64], claimed: u64) -> u64
    requires { claimed ≤ rows_there book.now }
    ensures count { result ≡ length (entries_from 1 book.now claimed 17) + length (entries_from 2 book.now claimed 17) }
    ensures within { result ≤ claimed }
{
    let mut count: u64 = 0;
    for k in 0..claimed as usize {
        if book_table::is_owner(book[17 + 9 * k]) {
            count += 1;
        }
    }
    count
}

// The first free row from a place on, where so many of the rows claimed are still to come: the lowest gap among them, or the row behind them.
pub fn free_row(book: &[u64], place: usize, claimed: u64) -> Spot
    requires { place + 9 * claimed ≤ length book.now }
    ensures { result ≡ spot_from book.now claimed place }
{
    for k in 0..claimed {
        let at = place + 9 * (k as usize);
        if !book_table::is_owner(book[at]) {
            let rows = claimed - 1 - k;
            return Spot { at, rows };
        }
    }
    let at = place + 9 * (claimed as usize);
    Spot { at, rows: 0 }
}

// The first of an owner's rows among so many that has the entry number, made a gap of zeros.
pub fn clear_row(book: &mut [u64], owner: u64, claimed: u64, number: u64)
    requires { claimed ≤ rows_there book.old }
    ensures { book.new ≡ cleared owner number book.old claimed 17 }
{
    for k in 0..claimed as usize {
        let at = 17 + 9 * k;
        if (book[at] == owner) & (book[at + 1] == number) {
            let figures = Figures::none();
            let none = Entry {
                number: 0,
                file: 0,
                figures,
            };
            book_table::put_row(book, at, 0, none);
            return;
        }
    }
}

// The nine numbers of a row, copied to a place before it or to its own.
fn copy_row(book: &mut [u64], from: usize, to: usize)
    requires { (to ≤ from) × (from + 9 ≤ length book.old) }
    ensures { book.new ≡ sets book.old to (part from 9 book.old) }
{
    book.copy_within(from..from + 9, to);
}

// The rows of either owner among so many, closed up from the first row on in their order: how far they reach.
fn close_up(book: &mut [u64], claimed: u64) -> usize
    requires { claimed ≤ rows_there book.old }
    ensures reach { result ≡ 17 + length (used_from book.old claimed 17) }
    ensures rows { book.new ≡ sets book.old 17 (used_from book.old claimed 17) }
{
    let mut to: usize = 17;
    for k in 0..claimed as usize {
        let at = 17 + 9 * k;
        if book_table::is_owner(book[at]) {
            copy_row(book, at, to);
            to += 9;
        }
    }
    to
}

// So many zeros from a place on.
fn put_zeros(book: &mut [u64], from: usize, count: usize)
    requires { from + count ≤ length book.old }
    ensures { book.new ≡ sets book.old from (times count 0) }
{
    book[from..from + count].fill(0);
}

// A book without gaps: its rows closed up, those that are freed zeros, and so many claimed as there are.
pub fn tidy(book: &mut [u64])
    requires { is_book book.old ≡ true }
    ensures { book.new ≡ tidied book.old }
{
    if book.len() < 17 {
        return;
    }
    let claimed = book_table::number_at(book, 0);
    let used = rows_used(book, claimed);
    let end = close_up(book, claimed);
    put_zeros(book, end, 17 + 9 * (claimed as usize) - end);
    book[0] = used;
}

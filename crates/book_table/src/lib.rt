// A day book in a lent table: its head and rows read, judged and written. The plain list that a table holds stands in `specs/`.
#![tactic(auto)]

ghost use Rattle.std.specs.Prelude.{true, ◌&&◌, ◌∷◌, ◌≡◌, ◌+◌, ◌*◌, ◌≤◌, ◌<◌, leb, length, get_or, set};
ghost use Rattle.std.proofs.lemmas.List.Edits.{sets};
ghost use Rattle.figures.specs.Figures.{numbers_of, figures_at, plus, minus, same, covers, fits};
ghost use Rattle.net.specs.Net.{is_net, within};
ghost use Rattle.book_model.specs.PlainList.{totals_of, position_of, finding};
ghost use Rattle.book_model.specs.Table.{is_owner, block_of, rows_claimed, rows_there, last_number, running_totals, net_number, adds_up, block_with, entry_at, own_figures_at, row_of, entries_from, is_book};

use book_model::{Entry, Finding};
use figures::Figures;
use measure::{Cents, Items, Sums, Views};
use passes::Fault;

// A number of the table, 0 where the table is too short.
pub fn number_at(book: &[u64], at: usize) -> u64
    ensures { result ≡ get_or book.now at 0 }
{
    book.get(at).copied().unwrap_or(0)
}

// Six figures from a place on.
pub fn figures_at(book: &[u64], at: usize) -> Figures
    requires { at + 5 < 0x1_0000_0000_0000_0000 }
    ensures { result ≡ figures_at book.now at }
{
    let bundles = number_at(book, at);
    let debits = Items(number_at(book, at + 1));
    let credits = Items(number_at(book, at + 2));
    let views = Views(number_at(book, at + 3));
    let debit = Cents(number_at(book, at + 4));
    let credit = Cents(number_at(book, at + 5));
    let sums = Sums {
        debits,
        debit,
        credits,
        credit,
        views,
    };
    Figures { bundles, sums }
}

fn entry_at(book: &[u64], at: usize) -> Entry
    requires { at + 9 ≤ length book.now }
    ensures { result ≡ entry_at book.now at }
{
    let number = book[at + 1];
    let file = book[at + 2];
    let figures = figures_at(book, at + 3);
    Entry {
        number,
        file,
        figures,
    }
}

// How many whole rows stand behind the head.
pub fn rows_there(book: &[u64]) -> u64
    ensures { result ≡ rows_there book.now }
{
    (book.len().saturating_sub(17) / 9) as u64
}

// Whether a call may be an owner's: there are two.
pub fn is_owner(owner: u64) -> bool
    ensures { result ≡ is_owner owner }
{
    (owner == 1) | (owner == 2)
}

// Where an owner's numbers begin in the head.
pub fn block_of(owner: u64) -> usize
    ensures place { result ≡ block_of owner }
    ensures within { (1 ≤ result) × (result ≤ 9) }
{
    if owner == 2 {
        return 9;
    }
    1
}

// What a row adds to an owner's running totals: its figures, or nothing where it is not the owner's.
fn own_figures_at(book: &[u64], owner: u64, at: usize) -> Figures
    requires { at + 9 ≤ length book.now }
    ensures { result ≡ own_figures_at owner book.now at }
{
    let whose = book[at];
    if whose == owner {
        return figures_at(book, at + 3);
    }
    Figures::none()
}

// Stays: that no more rows are claimed than there are is asked by a clause, here and in three functions below. docs/DECISIONS.md, 20, names the crate and
// what its functions require; and a type for it would be needed twice, over tables that are read and, in `book_gaps`, tables that are written.
// Whether an owner's running totals are the sums of its rows among so many: each row's figures are taken from them, and nothing must be left. So no sum
// can wrap.
fn are_sums(book: &[u64], owner: u64, claimed: u64) -> bool
    requires { claimed ≤ rows_there book.now }
    ensures { result ≡ same (running_totals owner book.now) (totals_of (entries_from owner book.now claimed 17)) }
{
    let mut left = figures_at(book, block_of(owner) + 1);
    for k in 0..claimed as usize {
        let row = own_figures_at(book, owner, 17 + 9 * k);
        if !left.holds(row) {
            return false;
        }
        left = left.without(row);
    }
    left.are_none()
}

// Whether the number kept for an owner's net position is that of its running totals.
fn keeps_net(book: &[u64], owner: u64) -> bool
    ensures { result ≡ is_net (net_number owner book.now) (position_of (running_totals owner book.now)) }
{
    let block = block_of(owner);
    let sums = figures_at(book, block + 1).sums;
    net::is_net(number_at(book, block + 7), sums.credit.0, sums.debit.0)
}

// Whether all that is kept of an owner in the head is what its rows among so many come to.
fn adds_up(book: &[u64], owner: u64, claimed: u64) -> bool
    requires { (claimed ≡ rows_claimed book.now) × (claimed ≤ rows_there book.now) }
    ensures { result ≡ adds_up owner book.now }
{
    are_sums(book, owner, claimed) & keeps_net(book, owner)
}

pub fn is_book(book: &[u64]) -> bool
    ensures { result ≡ is_book book.now }
{
    let claimed = number_at(book, 0);
    if rows_there(book) < claimed {
        return false;
    }
    adds_up(book, 1, claimed) & adds_up(book, 2, claimed)
}

// The first of an owner's rows among so many that has the entry number.
pub fn first_numbered(book: &[u64], owner: u64, claimed: u64, number: u64) -> Finding
    requires { claimed ≤ rows_there book.now }
    ensures { result ≡ finding (entries_from owner book.now claimed 17) number }
{
    for k in 0..claimed as usize {
        let at = 17 + 9 * k;
        if (book[at] == owner) & (book[at + 1] == number) {
            return Ok(entry_at(book, at));
        }
    }
    Err(Fault::NoEntry)
}

// How many rows among so many are an owner's.
pub fn own_rows(book: &[u64], owner: u64, claimed: u64) -> u64
    requires { claimed ≤ rows_there book.now }
    ensures { result ≡ length (entries_from owner book.now claimed 17) }
{
    let mut count: u64 = 0;
    for k in 0..claimed as usize {
        if book[17 + 9 * k] == owner {
            count += 1;
        }
    }
    count
}

// Six figures set down from a place on.
fn put_figures(book: &mut [u64], at: usize, figures: Figures)
    requires { at + 6 ≤ length book.old }
    ensures { book.new ≡ sets book.old at (numbers_of figures) }
{
    let sums = figures.sums;
    book[at] = figures.bundles;
    book[at + 1] = sums.debits.0;
    book[at + 2] = sums.credits.0;
    book[at + 3] = sums.views.0;
    book[at + 4] = sums.debit.0;
    book[at + 5] = sums.credit.0;
}

// A row of an owner's entry, set down at a place.
pub fn put_row(book: &mut [u64], at: usize, owner: u64, e: Entry)
    requires { at + 9 ≤ length book.old }
    ensures { book.new ≡ sets book.old at (row_of owner e) }
{
    book[at] = owner;
    book[at + 1] = e.number;
    book[at + 2] = e.file;
    let figures = e.figures;
    put_figures(book, at + 3, figures);
}

// Whether there are rows, of which so many are free, and of an owner's numbers and running totals enough, for so many letters and what they come to.
pub fn has_room(book: &[u64], owner: u64, free: u64, letters: u64, added: Figures) -> bool
    ensures { result ≡ (leb letters free && fits (plus (running_totals owner book.now) added) && leb (last_number owner book.now + letters) 0xFFFF_FFFF_FFFF_FFFF) }
{
    let block = block_of(owner);
    let totals = figures_at(book, block + 1);
    (letters <= free)
        & totals.has_room_for(added)
        & (letters <= 0xFFFF_FFFF_FFFF_FFFF - number_at(book, block))
}

// Whether an owner's net position stays within its bound with so much more.
pub fn keeps_range(book: &[u64], owner: u64, added: Figures) -> bool
    requires { is_net (net_number owner book.now) (position_of (running_totals owner book.now)) ≡ true }
    ensures { result ≡ within (position_of (plus (running_totals owner book.now) added)) }
{
    let position = net::signed_of(number_at(book, block_of(owner) + 7));
    let sums = added.sums;
    net::stays_within(position, sums.credit.0, sums.debit.0)
}

// Whether it stays within its bound without so much of what it was made of.
pub fn keeps_range_without(book: &[u64], owner: u64, gone: Figures) -> bool
    requires { (is_net (net_number owner book.now) (position_of (running_totals owner book.now)) ≡ true) × (covers (running_totals owner book.now) gone ≡ true) }
    ensures { result ≡ within (position_of (minus (running_totals owner book.now) gone)) }
{
    let position = net::signed_of(number_at(book, block_of(owner) + 7));
    let sums = gone.sums;
    net::stays_within(position, sums.debit.0, sums.credit.0)
}

// An owner's block of the head: the last number, the running totals and the net position of these, which is within its bound.
fn put_block(book: &mut [u64], at: usize, last: u64, totals: Figures)
    requires { (at + 8 ≤ length book.old) × (within (position_of totals) ≡ true) }
    ensures { book.new ≡ sets book.old at (block_with last totals) }
{
    let sums = totals.sums;
    let position = net::net_of(sums.credit.0, sums.debit.0);
    book[at] = last;
    put_figures(book, at + 1, totals);
    book[at + 7] = net::bits_of(position);
}

// The head with so many rows more, and of an owner so many numbers more and the running totals raised where they stand.
pub fn raise_head(book: &mut [u64], owner: u64, rows: u64, letters: u64, added: Figures)
    requires { (17 ≤ length book.old) × (rows_claimed book.old + rows < 0x1_0000_0000_0000_0000) × (last_number owner book.old + letters < 0x1_0000_0000_0000_0000) × (fits (plus (running_totals owner book.old) added) ≡ true) × (within (position_of (plus (running_totals owner book.old) added)) ≡ true) }
    ensures { book.new ≡ sets (set book.old 0 (rows_claimed book.old + rows)) (block_of owner) (block_with (last_number owner book.old + letters) (plus (running_totals owner book.old) added)) }
{
    let block = block_of(owner);
    let last = number_at(book, block) + letters;
    let totals = figures_at(book, block + 1);
    book[0] += rows;
    put_block(book, block, last, figures::raised(totals, added));
}

// The head with an owner's running totals lowered where they stand.
pub fn lower_head(book: &mut [u64], owner: u64, gone: Figures)
    requires { (17 ≤ length book.old) × (covers (running_totals owner book.old) gone ≡ true) × (within (position_of (minus (running_totals owner book.old) gone)) ≡ true) }
    ensures { book.new ≡ sets book.old (block_of owner) (block_with (last_number owner book.old) (minus (running_totals owner book.old) gone)) }
{
    let block = block_of(owner);
    let last = number_at(book, block);
    let totals = figures_at(book, block + 1);
    put_block(book, block, last, figures::lowered(totals, gone));
}

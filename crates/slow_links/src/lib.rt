// What the slow reader asks of a record against those before it: links, and the totals of a control record.
// Stays: some of it does what a function of `agree` does, since the two readers are to stand on separate code (request 12).
#![tactic(auto)]

ghost use Rattle.std.specs.Prelude.{◌≡◌, ◌&&◌, ◌||◌, not, cond, ◌<◌, eqb};
ghost use Rattle.text.specs.Characters.{is_blank};
ghost use Rattle.text.specs.DataTypes.{every};
ghost use Rattle.text.specs.Number.{number};
ghost use Rattle.order.specs.MayFollow.{is_check_or_return};
ghost use Rattle.standing.specs.History.{characters};
ghost use Rattle.standing.specs.Standing.{Roomy};
ghost use Rattle.layout.specs.Fault.{as_field};
ghost use Rattle.agree.specs.Checks.{first_failing};
ghost use Rattle.agree.specs.Links.{same, addenda_kept, annex_b, numbered_on, signed, view_links, link_fault};
ghost use Rattle.agree.specs.Totals.{bundle_totals, letter_totals, file_totals, total_fault};

use measure::{Cents, Items, Records, Sums};
use slow_figures::{field_at, number_at};
use standing::Standing;
use text::CharacterSet;

// Byte by byte.
// Stays: no `==` of slices, since `agree` compares its links by that.
fn same_bytes(a: &[u8], b: &[u8]) -> bool
    ensures { result ≡ same a.now b.now }
{
    if a.len() != b.len() {
        return false;
    }
    for (i, x) in a.iter().enumerate() {
        if *x != b[i] {
            return false;
        }
    }
    true
}

// The fields of two records are the same.
fn same_field(
    file: &[u8],
    offset: usize,
    first: usize,
    other: usize,
    place: usize,
    size: usize,
) -> bool
    ensures { result ≡ same (characters file.now offset first size) (characters file.now other place size) }
{
    same_bytes(
        field_at(file, offset, first, size),
        field_at(file, other, place, size),
    )
}

// An item's addenda are as many as it states: none beyond that, and no other record before the last of them.
#[tactic(auto, unfolding(agree::specs::Links::addenda_kept))]
fn addenda_kept(kind: u64, stated: u64, read: u64) -> bool
    ensures { result ≡ addenda_kept kind stated read }
{
    if slow_figures::is_addendum(kind) {
        return read < stated;
    }
    stated <= read
}

// Under I and F every check and return has a view; a credit needs none.
fn view_kept(indicator: u8, holder: u64, shown: u64) -> bool
    ensures { result ≡ not ((eqb indicator 0x49 || eqb indicator 0x46) && (is_check_or_return holder && eqb shown 0)) }
{
    !(matches!(indicator, b'I' | b'F') && matches!(holder, 25 | 31) && shown == 0)
}

// Annex B, the cash letter's field 8: under N no bundle, under E no view, under I and F a view before the next item or the 70, and a
// bundle unless under N.
#[tactic(auto, unfolding(agree::specs::Links::annex_b))]
fn annex_b_kept(kind: u64, indicator: u8, opened: u64, holder: u64, shown: u64) -> bool
    ensures { result ≡ annex_b kind indicator opened holder shown }
{
    match kind {
        20 => indicator != b'N',
        50 => indicator != b'E',
        25 | 31 | 61 | 70 => view_kept(indicator, holder, shown),
        90 => indicator == b'N' || opened != 0,
        _ => true,
    }
}

// 26 and 32 are numbered from 1 in each item (field 2, position 3), and so are 28 and 35 (positions 3 and 4).
#[tactic(auto, unfolding(agree::specs::Links::numbered_on))]
fn numbered_on(
    set: CharacterSet,
    file: &[u8],
    bofd: u64,
    endorser: u64,
    kind: u64,
    offset: usize,
) -> bool
    requires { (bofd < 0x4000_0000_0000_0000) × (endorser < 0x4000_0000_0000_0000) }
    ensures { result ≡ numbered_on set file.now bofd endorser kind offset }
{
    match kind {
        26 | 32 => number_at(set, file, offset, 3, 1) == bofd + 1,
        28 | 35 => number_at(set, file, offset, 3, 2) == endorser + 1,
        _ => true,
    }
}

// Fields 7 and 8 of a 52 are not blank where its 50 says that the view is signed.
fn is_signed(set: CharacterSet, file: &[u8], signature: u64, offset: usize, first: usize) -> bool
    ensures { result ≡ signed set signature (characters file.now offset first 16) }
{
    signature != 1 || !slow_text::all_blank(set, field_at(file, offset, first, 16))
}

// The header over a view: that of its bundle, or directly in a cash letter the cash letter's.
fn header_over(s: Standing) -> usize
    ensures { result ≡ cond s.inside s.header s.heading }
{
    if s.inside { s.header } else { s.heading }
}

// Where an item has its sequence number: field 8 of a 61, field 7 of a 25 or a 31.
fn sequence_place(holder: u64) -> usize
    ensures { result ≡ cond (eqb holder 61) 63 58 }
{
    if holder == 61 { 63 } else { 58 }
}

// A cash letter header has no cycle number to compare.
fn same_cycle(file: &[u8], s: Standing, offset: usize) -> bool
    ensures { result ≡ (not s.inside || same (characters file.now offset 20 2) (characters file.now s.header 53 2)) }
{
    !s.inside || same_field(file, offset, 20, s.header, 53, 2)
}

// The links of a 52: institution, date and cycle of the header over it, the item's own sequence number, and what its 50 says.
fn view_fault(set: CharacterSet, file: &[u8], s: Standing, offset: usize) -> Option<usize>
    ensures { result ≡ as_field (first_failing (view_links set file.now s offset)) }
{
    let over = header_over(s);
    let place = sequence_place(s.holder);
    if !same_field(file, offset, 3, over, 14, 9) {
        return Some(2);
    }
    if !same_field(file, offset, 12, over, 23, 8) {
        return Some(3);
    }
    if !same_cycle(file, s, offset) {
        return Some(4);
    }
    if !same_field(file, offset, 22, s.item, place, 15) {
        return Some(5);
    }
    if !is_signed(set, file, s.signature, offset, 53) {
        return Some(7);
    }
    if !is_signed(set, file, s.signature, offset, 69) {
        return Some(8);
    }
    None
}

// LINK: the lowest field of a record that disagrees with an earlier one.
#[tactic(auto, unfolding(agree::specs::Links::link_fault))]
pub fn link_fault(
    set: CharacterSet,
    file: &[u8],
    s: Standing,
    kind: u64,
    offset: usize,
) -> Option<usize>
    requires { Roomy s }
    ensures { result ≡ as_field (link_fault set file.now s kind offset) }
{
    if !addenda_kept(kind, s.stated, s.addenda) {
        return Some(1);
    }
    if !annex_b_kept(kind, s.indicator, s.opened, s.holder, s.shown) {
        return Some(1);
    }
    if !numbered_on(set, file, s.bofd, s.endorser, kind, offset) {
        return Some(2);
    }
    if kind == 52 {
        return view_fault(set, file, s, offset);
    }
    None
}

// A control field states a number.
fn states(
    set: CharacterSet,
    file: &[u8],
    offset: usize,
    first: usize,
    size: usize,
    value: u64,
) -> bool
    ensures { result ≡ eqb (number set (characters file.now offset first size)) value }
{
    number_at(set, file, offset, first, size) == value
}

// The MICR total of a 70 (positions 19 to 30) is blank, or states the cents.
fn states_micr(set: CharacterSet, file: &[u8], offset: usize, micr: u64) -> bool
    ensures { result ≡ (every (is_blank set) (characters file.now offset 19 12) || eqb (number set (characters file.now offset 19 12)) micr) }
{
    slow_text::all_blank(set, field_at(file, offset, 19, 12))
        || number_at(set, file, offset, 19, 12) == micr
}

// Clause 31: a 70 states its bundle's debits, debit cents, MICR valid cents, views, credits and credit cents.
fn bundle_fault(
    set: CharacterSet,
    file: &[u8],
    s: Sums,
    micr: Cents,
    offset: usize,
) -> Option<usize>
    ensures { result ≡ as_field (first_failing (bundle_totals set file.now s micr.0 offset)) }
{
    if !states(set, file, offset, 3, 4, s.debits.0) {
        return Some(2);
    }
    if !states(set, file, offset, 7, 12, s.debit.0) {
        return Some(3);
    }
    if !states_micr(set, file, offset, micr.0) {
        return Some(4);
    }
    if !states(set, file, offset, 31, 5, s.views.0) {
        return Some(5);
    }
    if !states(set, file, offset, 36, 4, s.credits.0) {
        return Some(6);
    }
    if !states(set, file, offset, 40, 12, s.credit.0) {
        return Some(7);
    }
    None
}

// Clause 34: a 90 states its cash letter's bundles, debits, debit cents, views, credits and credit cents.
fn letter_fault(
    set: CharacterSet,
    file: &[u8],
    bundles: u64,
    s: Sums,
    offset: usize,
) -> Option<usize>
    ensures { result ≡ as_field (first_failing (letter_totals set file.now bundles s offset)) }
{
    if !states(set, file, offset, 3, 6, bundles) {
        return Some(2);
    }
    if !states(set, file, offset, 9, 8, s.debits.0) {
        return Some(3);
    }
    if !states(set, file, offset, 17, 14, s.debit.0) {
        return Some(4);
    }
    if !states(set, file, offset, 31, 9, s.views.0) {
        return Some(5);
    }
    if !states(set, file, offset, 64, 8, s.credits.0) {
        return Some(8);
    }
    if !states(set, file, offset, 72, 14, s.credit.0) {
        return Some(9);
    }
    None
}

// Clause 35: the 99 states the file's cash letters, its records with the 99 itself, items, debit cents and credit cents.
fn file_fault(
    set: CharacterSet,
    file: &[u8],
    letters: u64,
    before: Records,
    items: Items,
    s: Sums,
    offset: usize,
) -> Option<usize>
    requires { before.0 < 0x4000_0000_0000_0000 }
    ensures { result ≡ as_field (first_failing (file_totals set file.now letters before.0 items.0 s offset)) }
{
    if !states(set, file, offset, 3, 6, letters) {
        return Some(2);
    }
    if !states(set, file, offset, 9, 8, before.0 + 1) {
        return Some(3);
    }
    if !states(set, file, offset, 17, 8, items.0) {
        return Some(4);
    }
    if !states(set, file, offset, 25, 16, s.debit.0) {
        return Some(5);
    }
    if !states(set, file, offset, 65, 16, s.credit.0) {
        return Some(8);
    }
    None
}

// TOTAL: the lowest field of a control record that is not what its part adds up to.
#[tactic(auto, unfolding(agree::specs::Totals::total_fault))]
pub fn total_fault(
    set: CharacterSet,
    file: &[u8],
    s: Standing,
    kind: u64,
    offset: usize,
) -> Option<usize>
    requires { Roomy s }
    ensures { result ≡ as_field (total_fault set file.now s kind offset) }
{
    match kind {
        70 => bundle_fault(set, file, s.bundle, s.micr, offset),
        90 => letter_fault(set, file, s.opened, s.letter, offset),
        99 => file_fault(set, file, s.letters, s.records, s.items, s.whole, offset),
        _ => None,
    }
}

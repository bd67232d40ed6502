// What is judged of a record against those before it: links, and the totals of a control record.
#![tactic(auto)]

ghost use Rattle.std.specs.Prelude.{◌≡◌, true, ◌||◌, not, cond, ℕ, ◌+◌, ◌-◌, ◌<◌, ◌≤◌, eqb, length};
ghost use Rattle.text.specs.Characters.{is_blank};
ghost use Rattle.text.specs.DataTypes.{every};
ghost use Rattle.text.specs.Number.{number};
ghost use Rattle.standing.specs.History.{characters};
ghost use Rattle.layout.specs.Fault.{as_field};
ghost use Rattle.agree.specs.Checks.{first_failing, checks_of, fields_from_one};
ghost use Rattle.agree.specs.Links.{same, addenda_kept, annex_b, numbered_on, signed, view_links, link_fault};
ghost use Rattle.agree.specs.Totals.{bundle_totals, letter_totals, file_totals, total_fault};

use measure::{Cents, Items, Records, Sums};
use standing::{Standing, characters_at, number_at};
use text::CharacterSet;

pub fn same_bytes(a: &[u8], b: &[u8]) -> bool
    ensures { result ≡ same a.now b.now }
{
    a == b
}

// The field of the first check that does not hold.
fn first_failing(checks: &[(usize, bool)]) -> Option<usize>
    requires { fields_from_one checks.now ≡ true }
    ensures { result ≡ as_field (first_failing (checks_of checks.now)) }
{
    for &(field, holds) in checks {
        if !holds {
            return Some(field);
        }
    }
    None
}

// No addendum beyond the item's stated count, and no other record while addenda are owed.
pub fn addenda_kept(kind: u64, stated: u64, read: u64) -> bool
    ensures { result ≡ addenda_kept kind stated read }
{
    if order::is_addendum(kind) {
        return read < stated;
    }
    stated <= read
}

// Annex B: N, E, I and F. `holder` is the type of the newest item; no view is demanded of a 61.
pub fn annex_b_kept(kind: u64, indicator: u8, opened: u64, holder: u64, shown: u64) -> bool
    ensures { result ≡ annex_b kind indicator opened holder shown }
{
    let closes_item = order::is_item(kind) | (kind == 70);
    let wants_view = (indicator == b'I') | (indicator == b'F');
    !((kind == 20) & (indicator == b'N'))
        & (!((kind == 50) & (indicator == b'E'))
            & (!(closes_item & (wants_view & (order::is_check_or_return(holder) & (shown == 0))))
                & !((kind == 90) & (!(indicator == b'N') & (opened == 0)))))
}

// Record numbers run from 1 in each item (26 and 32: position 3; 28 and 35: positions 3 and 4).
// Stays: an arm for each layout, as in specs/Links.antt, though two positions and counts are the same.
pub fn numbered_on(
    set: CharacterSet,
    file: &[u8],
    bofd: u64,
    endorser: u64,
    kind: u64,
    offset: usize,
) -> bool
    requires { (bofd < 0x4000_0000_0000_0000) × (endorser < 0x4000_0000_0000_0000) }
    ensures { result ≡ numbered_on set file.now bofd endorser kind offset }
{
    match kind {
        26 => number_at(set, file, offset, 3, 1) == bofd + 1,
        32 => number_at(set, file, offset, 3, 1) == bofd + 1,
        28 => number_at(set, file, offset, 3, 2) == endorser + 1,
        35 => number_at(set, file, offset, 3, 2) == endorser + 1,
        _ => true,
    }
}

// The characters from a position on of two records of the file are the same.
fn same_at(
    file: &[u8],
    offset: usize,
    first: usize,
    other: usize,
    place: usize,
    size: usize,
) -> bool
    ensures { result ≡ same (characters file.now offset first size) (characters file.now other place size) }
{
    same_bytes(
        characters_at(file, offset, first, size),
        characters_at(file, other, place, size),
    )
}

fn is_signed(set: CharacterSet, file: &[u8], signature: u64, offset: usize, first: usize) -> bool
    ensures { result ≡ signed set signature (characters file.now offset first 16) }
{
    signature != 1 || !text::all_blank(set, characters_at(file, offset, first, 16))
}

// A cash letter header has no cycle number to compare.
fn same_cycle(file: &[u8], s: Standing, offset: usize) -> bool
    ensures { result ≡ (not s.inside || same (characters file.now offset 20 2) (characters file.now s.header 53 2)) }
{
    !s.inside | same_at(file, offset, 20, s.header, 53, 2)
}

// The links of a 52 with the header over it, the item and the 50. Institution and date, fields 4 and 5, stand at the same positions of a bundle
// header and of a cash letter header. A sequence number is field 7 of a 25 or a 31 and field 8 of a 61.
fn view_fault(set: CharacterSet, file: &[u8], s: Standing, offset: usize) -> Option<usize>
    ensures { result ≡ as_field (first_failing (view_links set file.now s offset)) }
{
    let over = if s.inside { s.header } else { s.heading };
    let place = if s.holder == 61 { 63 } else { 58 };
    first_failing(&[
        (2, same_at(file, offset, 3, over, 14, 9)),
        (3, same_at(file, offset, 12, over, 23, 8)),
        (4, same_cycle(file, s, offset)),
        (5, same_at(file, offset, 22, s.item, place, 15)),
        (7, is_signed(set, file, s.signature, offset, 53)),
        (8, is_signed(set, file, s.signature, offset, 69)),
    ])
}

// The lowest field of a record that disagrees with an earlier one.
pub fn link_fault(
    set: CharacterSet,
    file: &[u8],
    s: Standing,
    kind: u64,
    offset: usize,
) -> Option<usize>
    requires { (s.bofd < 0x4000_0000_0000_0000) × (s.endorser < 0x4000_0000_0000_0000) }
    ensures { result ≡ as_field (link_fault set file.now s kind offset) }
{
    if !addenda_kept(kind, s.stated, s.addenda) {
        return Some(1);
    }
    if !annex_b_kept(kind, s.indicator, s.opened, s.holder, s.shown) {
        return Some(1);
    }
    if !numbered_on(set, file, s.bofd, s.endorser, kind, offset) {
        return Some(2);
    }
    if kind != 52 {
        return None;
    }
    view_fault(set, file, s, offset)
}

// A control field states a number.
fn states_number(
    set: CharacterSet,
    file: &[u8],
    offset: usize,
    first: usize,
    size: usize,
    value: u64,
) -> bool
    ensures { result ≡ eqb (number set (characters file.now offset first size)) value }
{
    number_at(set, file, offset, first, size) == value
}

// The MICR total is blank, or states the cents.
fn states_micr(set: CharacterSet, file: &[u8], offset: usize, micr: u64) -> bool
    ensures { result ≡ (every (is_blank set) (characters file.now offset 19 12) || eqb (number set (characters file.now offset 19 12)) micr) }
{
    text::all_blank(set, characters_at(file, offset, 19, 12))
        || number_at(set, file, offset, 19, 12) == micr
}

// Clause 31.
fn bundle_fault(
    set: CharacterSet,
    file: &[u8],
    s: Sums,
    micr: Cents,
    offset: usize,
) -> Option<usize>
    ensures { result ≡ as_field (first_failing (bundle_totals set file.now s micr.0 offset)) }
{
    first_failing(&[
        (2, states_number(set, file, offset, 3, 4, s.debits.0)),
        (3, states_number(set, file, offset, 7, 12, s.debit.0)),
        (4, states_micr(set, file, offset, micr.0)),
        (5, states_number(set, file, offset, 31, 5, s.views.0)),
        (6, states_number(set, file, offset, 36, 4, s.credits.0)),
        (7, states_number(set, file, offset, 40, 12, s.credit.0)),
    ])
}

// Clause 34.
fn letter_fault(
    set: CharacterSet,
    file: &[u8],
    bundles: u64,
    s: Sums,
    offset: usize,
) -> Option<usize>
    ensures { result ≡ as_field (first_failing (letter_totals set file.now bundles s offset)) }
{
    first_failing(&[
        (2, states_number(set, file, offset, 3, 6, bundles)),
        (3, states_number(set, file, offset, 9, 8, s.debits.0)),
        (4, states_number(set, file, offset, 17, 14, s.debit.0)),
        (5, states_number(set, file, offset, 31, 9, s.views.0)),
        (8, states_number(set, file, offset, 64, 8, s.credits.0)),
        (9, states_number(set, file, offset, 72, 14, s.credit.0)),
    ])
}

// Clause 35; the 99 itself counts among the records, and credits count among the items.
fn file_fault(
    set: CharacterSet,
    file: &[u8],
    letters: u64,
    before: Records,
    items: Items,
    s: Sums,
    offset: usize,
) -> Option<usize>
    requires { before.0 < 0x4000_0000_0000_0000 }
    ensures { result ≡ as_field (first_failing (file_totals set file.now letters before.0 items.0 s offset)) }
{
    first_failing(&[
        (2, states_number(set, file, offset, 3, 6, letters)),
        (3, states_number(set, file, offset, 9, 8, before.0 + 1)),
        (4, states_number(set, file, offset, 17, 8, items.0)),
        (5, states_number(set, file, offset, 25, 16, s.debit.0)),
        (8, states_number(set, file, offset, 65, 16, s.credit.0)),
    ])
}

// The lowest field of a control record that is not what its part adds up to.
pub fn total_fault(
    set: CharacterSet,
    file: &[u8],
    s: Standing,
    kind: u64,
    offset: usize,
) -> Option<usize>
    requires { s.records.0 < 0x4000_0000_0000_0000 }
    ensures { result ≡ as_field (total_fault set file.now s kind offset) }
{
    match kind {
        70 => bundle_fault(set, file, s.bundle, s.micr, offset),
        90 => letter_fault(set, file, s.opened, s.letter, offset),
        99 => file_fault(set, file, s.letters, s.records, s.items, s.whole, offset),
        _ => None,
    }
}

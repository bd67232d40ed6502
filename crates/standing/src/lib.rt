// What stands before a record: the figures of all the records read so far, and how one record more moves them on.
#![tactic(auto)]

ghost use Rattle.std.specs.Prelude.{◌≡◌, true, false, ◌||◌, cond, List, [], ◌∷◌, ℕ, ◌+◌, ◌-◌, ◌<◌, ◌≤◌, eqb, get_or};
ghost use Rattle.text.specs.declared.character_set.CharacterSet.{CharacterSet};
ghost use Rattle.text.specs.Number.{number};
ghost use Rattle.measure.specs.Measures.{cents, capped, Small};
ghost use Rattle.order.specs.MayFollow.{is_one_of, is_check_or_return, is_item};
ghost use Rattle.standing.specs.History.{characters, amount_of, is_debit, micr_of, stated_by, indicator_in, signature_in, adds, one};
ghost use Rattle.standing.specs.Standing.{standing, onward, capped_figures, Roomy};

use measure::{Cents, Items, Records, Sums, Views};
use text::CharacterSet;

// Stays: a type is document 01's number, and 0 is none, since `standing` of specs/Standing.antt and the theorems on it say so.
// Stays: `Roomy s` and `capped_figures s ≡ s` are clauses and no fields here. What `moved` gives of figures that have room need not have it, and of a draft
// and of a torn file figures are moved that are those of no file.
#[derive(Clone, Copy)]
pub struct Standing {
    // The type of the last record, 0 at the start; whether a bundle is open; the type of the checks or returns in the open bundle, and that of
    // the newest item in it or, where none is open, directly in the cash letter, 0 where there is none yet.
    pub last: u64,
    pub inside: bool,
    pub present: u64,
    pub holder: u64,
    pub records: Records,
    pub letters: u64,
    // Bundles in the file, and those opened in the open cash letter.
    pub bundles: u64,
    pub opened: u64,
    // Checks, returns and credits in the file, and in the open bundle.
    pub items: Items,
    pub ordinal: u64,
    pub whole: Sums,
    pub letter: Sums,
    pub bundle: Sums,
    pub micr: Cents,
    // Of the item: its addenda read so far, those of the bank of first deposit (26, 32) and of endorsers (28, 35) among them, its views
    // shown so far, and the addenda that it states.
    pub addenda: u64,
    pub bofd: u64,
    pub endorser: u64,
    pub shown: u64,
    pub stated: u64,
    // Offsets of the item, of the bundle header and of the cash letter header.
    pub item: usize,
    pub header: usize,
    pub heading: usize,
    // Field 8 of the cash letter header, and field 10 of the last image view detail.
    pub indicator: u8,
    pub signature: u64,
}

impl Standing {
    pub fn start() -> Self
        ensures { (set : CharacterSet) (file : List ℕ) → result ≡ capped_figures (standing set file []) }
    {
        Standing {
            last: 0,
            inside: false,
            present: 0,
            holder: 0,
            records: Records(0),
            letters: 0,
            bundles: 0,
            opened: 0,
            items: Items(0),
            ordinal: 0,
            whole: Sums::none(),
            letter: Sums::none(),
            bundle: Sums::none(),
            micr: Cents(0),
            addenda: 0,
            bofd: 0,
            endorser: 0,
            shown: 0,
            stated: 0,
            item: 0,
            header: 0,
            heading: 0,
            indicator: 0,
            signature: 0,
        }
    }
}

// The characters of a record from a position on, counted from 1; its length field stands at an offset of the file.
// Stays: set, file and offset are three arguments here and below, as they are of the definitions (specs/History.antt) and of the public `moved` and `agree::link_fault`.
pub fn characters_at(file: &[u8], offset: usize, first: usize, size: usize) -> &[u8]
    ensures { result.now ≡ characters file.now offset first size }
{
    let start = offset
        .saturating_add(4)
        .saturating_add(first.saturating_sub(1));
    frame::part_of(file, start, size)
}

// The number there.
pub fn number_at(set: CharacterSet, file: &[u8], offset: usize, first: usize, size: usize) -> u64
    ensures { result ≡ number set (characters file.now offset first size) }
{
    text::number_in(set, characters_at(file, offset, first, size))
}

// An item's amount (25 and 31, field 6, positions 48 to 57; 61, field 7, positions 49 to 62), 0 of any other record.
// Stays: an arm for each layout, as `amount_of` of specs/History.antt has it, though two positions are the same.
pub fn amount_at(set: CharacterSet, file: &[u8], kind: u64, offset: usize) -> u64
    ensures { (result ≡ amount_of set file.now kind offset) × (result < 100_000_000_000_000) }
{
    match kind {
        25 => number_at(set, file, offset, 48, 10),
        31 => number_at(set, file, offset, 48, 10),
        61 => number_at(set, file, offset, 49, 14),
        _ => 0,
    }
}

// Every 25 and 31 is a debit, and a 61 whose Record Usage Indicator (field 2, position 3) is 9.
fn is_debit_at(set: CharacterSet, file: &[u8], kind: u64, offset: usize) -> bool
    ensures { result ≡ is_debit set file.now kind offset }
{
    if kind == 61 {
        return number_at(set, file, offset, 3, 1) == 9;
    }
    order::is_check_or_return(kind)
}

// The debit that a record adds, where it is a 25 whose MICR Valid Indicator (field 10, position 75) is 1.
fn micr_at(set: CharacterSet, file: &[u8], kind: u64, offset: usize, amount: u64) -> u64
    requires { amount ≡ (adds set file.now kind offset).debit.0 }
    ensures { (result ≡ micr_of set file.now kind offset) × (result ≤ amount) }
{
    if kind == 25 && number_at(set, file, offset, 75, 1) == 1 {
        amount
    } else {
        0
    }
}

// The addenda that an item states: 25, field 12, positions 77 and 78; 31, field 8, positions 73 and 74.
fn stated_at(set: CharacterSet, file: &[u8], kind: u64, offset: usize) -> u64
    ensures { result ≡ stated_by set file.now kind offset }
{
    match kind {
        25 => number_at(set, file, offset, 77, 2),
        31 => number_at(set, file, offset, 73, 2),
        _ => 0,
    }
}

// 10, field 8, position 43.
fn indicator_at(set: CharacterSet, file: &[u8], offset: usize) -> u8
    ensures { result ≡ indicator_in set file.now offset }
{
    let first = characters_at(file, offset, 43, 1).first();
    text::capital_of(set, first.copied().unwrap_or(0))
}

// Stays: `u64::from` with a contract of its own, for crates that add up tests too (drafting).
pub fn one_if(test: bool) -> u64
    ensures { (result ≡ one test) × (result ≤ 1) }
{
    u64::from(test)
}

// A sum with what one record adds, or none where the record begins the level anew.
// Stays: six figures of `moved_in_full` go by it, and written out each would have the test and the sum again.
fn since(begins: bool, more: u64, sum: u64) -> u64
    requires { (more < 0x4000_0000_0000_0000) × (sum < 0x4000_0000_0000_0000) }
    ensures { result ≡ cond begins 0 (more + sum) }
{
    if begins { 0 } else { more + sum }
}

// The same of a sum of cents, which stops at what no control field can state.
fn cents_since(begins: bool, more: u64, sum: Cents) -> Cents
    requires { (more < 0x4000_0000_0000_0000) × (sum.0 < 0x4000_0000_0000_0000) }
    ensures { result ≡ cents (capped (cond begins 0 (more + sum.0))) }
{
    if begins {
        Cents(0)
    } else {
        Cents(more).plus(sum)
    }
}

// A view, whether or not it holds image bytes.
fn views_at(file: &[u8], kind: u64, offset: usize) -> u64
    ensures { (result ≡ one (eqb kind 50)) × (result ≤ 1) }
{
    let counts = kind == 50;
    u64::from(counts)
}

// What one record adds to the sums of each level.
fn added_at(set: CharacterSet, file: &[u8], kind: u64, offset: usize) -> Sums
    ensures { (result ≡ adds set file.now kind offset) × Small result }
{
    let debit = is_debit_at(set, file, kind, offset);
    let credit = (kind == 61) & !debit;
    let cents = amount_at(set, file, kind, offset);
    let views = views_at(file, kind, offset);
    Sums {
        debits: Items(u64::from(debit)),
        debit: Cents(if debit { cents } else { 0 }),
        credits: Items(u64::from(credit)),
        credit: Cents(if credit { cents } else { 0 }),
        views: Views(views),
    }
}

// Field 8 of the newest cash letter header, and field 10 of the newest image view detail (position 29).
fn indicator_after(set: CharacterSet, file: &[u8], kind: u64, offset: usize, older: u8) -> u8
    ensures { result ≡ cond (eqb kind 10) (indicator_in set file.now offset) older }
{
    if kind == 10 {
        indicator_at(set, file, offset)
    } else {
        older
    }
}

fn signature_after(set: CharacterSet, file: &[u8], kind: u64, offset: usize, older: u64) -> u64
    ensures { result ≡ cond (eqb kind 50) (signature_in set file.now offset) older }
{
    if kind == 50 {
        number_at(set, file, offset, 29, 1)
    } else {
        older
    }
}

// Whether a bundle is open, the type of the checks or returns in it, and that of the newest item in it or directly in the cash letter.
fn inside_after(kind: u64, older: bool) -> bool
    ensures { result ≡ cond (eqb kind 20) true (cond (eqb kind 70) false older) }
{
    (kind == 20) | ((kind != 70) & older)
}

fn present_after(kind: u64, older: u64) -> u64
    ensures { result ≡ cond (eqb kind 20) 0 (cond (is_check_or_return kind) kind older) }
{
    if kind == 20 {
        0
    } else if order::is_check_or_return(kind) {
        kind
    } else {
        older
    }
}

fn holder_after(kind: u64, older: u64) -> u64
    ensures { result ≡ cond (eqb kind 10 || (eqb kind 20 || eqb kind 70)) 0 (cond (is_item kind) kind older) }
{
    if (kind == 10) | ((kind == 20) | (kind == 70)) {
        0
    } else if order::is_item(kind) {
        kind
    } else {
        older
    }
}

// The figures with one record more of any type.
fn moved_in_full(set: CharacterSet, file: &[u8], s: Standing, kind: u64, offset: usize) -> Standing
    requires { Roomy s }
    ensures { result ≡ capped_figures (onward set file.now s kind offset) }
{
    let item = order::is_item(kind);
    let letter = kind == 10;
    let bundle = kind == 20;
    let added = added_at(set, file, kind, offset);
    let micr = micr_at(set, file, kind, offset, added.debit.0);
    Standing {
        last: kind,
        inside: inside_after(kind, s.inside),
        present: present_after(kind, s.present),
        holder: holder_after(kind, s.holder),
        records: Records(s.records.0 + 1),
        letters: u64::from(letter) + s.letters,
        bundles: u64::from(bundle) + s.bundles,
        opened: since(letter, u64::from(bundle), s.opened),
        items: Items(u64::from(item) + s.items.0),
        ordinal: since(bundle, u64::from(item), s.ordinal),
        whole: s.whole.since(false, added),
        letter: s.letter.since(letter, added),
        bundle: s.bundle.since(bundle, added),
        micr: cents_since(bundle, micr, s.micr),
        addenda: since(item, u64::from(order::is_addendum(kind)), s.addenda),
        bofd: since(item, u64::from((kind == 26) | (kind == 32)), s.bofd),
        endorser: since(item, u64::from((kind == 28) | (kind == 35)), s.endorser),
        shown: since(item, u64::from(kind == 50), s.shown),
        stated: if item {
            stated_at(set, file, kind, offset)
        } else {
            s.stated
        },
        item: if item { offset } else { s.item },
        header: if bundle { offset } else { s.header },
        heading: if letter { offset } else { s.heading },
        indicator: indicator_after(set, file, kind, offset, s.indicator),
        signature: signature_after(set, file, kind, offset, s.signature),
    }
}

// The types that begin or end a part of the file, or are counted in one. Of the others, addenda and 52s mostly, a file has as many or more, and they
// leave nearly all figures as they are: not to work those out again takes a sixth of the instructions.
fn changes_much(kind: u64) -> bool
    ensures { result ≡ is_one_of kind (10 ∷ 20 ∷ 25 ∷ 31 ∷ 50 ∷ 61 ∷ 70 ∷ []) }
{
    matches!(kind, 10 | 20 | 25 | 31 | 50 | 61 | 70)
}

// The figures with one record more of another type.
fn moved_a_little(s: Standing, kind: u64) -> Standing
    requires { Roomy s × (capped_figures s ≡ s) × (is_one_of kind (10 ∷ 20 ∷ 25 ∷ 31 ∷ 50 ∷ 61 ∷ 70 ∷ []) ≡ false) }
    ensures { (set : CharacterSet) (file : List ℕ) (offset : ℕ) → result ≡ capped_figures (onward set file s kind offset) }
{
    Standing {
        last: kind,
        records: Records(s.records.0 + 1),
        addenda: u64::from(order::is_addendum(kind)) + s.addenda,
        bofd: u64::from((kind == 26) | (kind == 32)) + s.bofd,
        endorser: u64::from((kind == 28) | (kind == 35)) + s.endorser,
        ..s
    }
}

// The figures with one record more, whose length field stands at an offset.
pub fn moved(set: CharacterSet, file: &[u8], s: Standing, kind: u64, offset: usize) -> Standing
    requires { Roomy s × (capped_figures s ≡ s) }
    ensures { result ≡ capped_figures (onward set file.now s kind offset) }
{
    if changes_much(kind) {
        return moved_in_full(set, file, s, kind, offset);
    }
    moved_a_little(s, kind)
}

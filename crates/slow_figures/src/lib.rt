// The figures that the slow reader keeps of the records read so far, and what each record does to them.
// Stays: some of it does what a function of `standing` does, since the two readers are to stand on separate code (request 12).
#![tactic(auto)]

ghost use Rattle.std.specs.Prelude.{◌≡◌, true, false, cond, List, [], ◌∷◌, ℕ, ◌+◌, ◌<◌, ◌≤◌};
ghost use Rattle.text.specs.declared.character_set.CharacterSet.{CharacterSet};
ghost use Rattle.text.specs.Number.{number};
ghost use Rattle.measure.specs.Measures.{cents, sums, capped, no_sums, together, capped_sums, Small};
ghost use Rattle.order.specs.MayFollow.{is_one_of, is_check_or_return, is_item, is_addendum};
ghost use Rattle.standing.specs.History.{one, characters, amount_of, is_debit, micr_of, stated_by, indicator_in, adds, is_bofd_addendum, is_endorser_addendum};
ghost use Rattle.standing.specs.Standing.{standing, onward, capped_figures, Roomy};

use measure::{Cents, Items, Records, Sums, Views};
use standing::Standing;
use text::CharacterSet;

// A field of the record whose length field stands at an offset: so many characters from a position on, counted from 1.
pub fn field_at(file: &[u8], offset: usize, first: usize, size: usize) -> &[u8]
    ensures { result.now ≡ characters file.now offset first size }
{
    let body = slow_text::behind(slow_text::behind(file, offset), 4);
    slow_record::part_of(body, slow_text::place_of(first), size)
}

// The number in a field.
pub fn number_at(set: CharacterSet, file: &[u8], offset: usize, first: usize, size: usize) -> u64
    ensures { result ≡ number set (characters file.now offset first size) }
{
    slow_text::number_in(set, field_at(file, offset, first, size))
}

// Stays: 0 and no Option here and in `micr_at` and `stated_at`, which adds nothing to a sum, as `amount_of`, `micr_of` and `stated_by` have it.
// The amount of an item: field 6 of a 25 or a 31 (positions 48 to 57), field 7 of a 61 (positions 49 to 62).
pub fn amount_at(set: CharacterSet, file: &[u8], kind: u64, offset: usize) -> u64
    ensures { (result ≡ amount_of set file.now kind offset) × (result < 100_000_000_000_000) }
{
    match kind {
        25 | 31 => number_at(set, file, offset, 48, 10),
        61 => number_at(set, file, offset, 49, 14),
        _ => 0,
    }
}

// Every check and return is a debit; a 61 is one where its Record Usage Indicator (field 2, position 3) is 9, and else a credit.
fn is_debit(set: CharacterSet, file: &[u8], kind: u64, offset: usize) -> bool
    requires { is_item kind ≡ true }
    ensures { result ≡ is_debit set file.now kind offset }
{
    kind != 61 || number_at(set, file, offset, 3, 1) == 9
}

// The cents of a 25 whose MICR Valid Indicator (field 10, position 75) is 1.
fn micr_at(set: CharacterSet, file: &[u8], kind: u64, offset: usize) -> u64
    ensures { (result ≡ micr_of set file.now kind offset) × (result < 100_000_000_000_000) }
{
    if kind == 25 && number_at(set, file, offset, 75, 1) == 1 {
        return amount_at(set, file, kind, offset);
    }
    0
}

// The addenda that an item states: field 12 of a 25 (positions 77 and 78), field 8 of a 31 (positions 73 and 74).
fn stated_at(set: CharacterSet, file: &[u8], kind: u64, offset: usize) -> u64
    ensures { result ≡ stated_by set file.now kind offset }
{
    match kind {
        25 => number_at(set, file, offset, 77, 2),
        31 => number_at(set, file, offset, 73, 2),
        _ => 0,
    }
}

// Field 8 of a cash letter header (position 43), in capitals.
fn indicator_at(set: CharacterSet, file: &[u8], offset: usize) -> u8
    ensures { result ≡ indicator_in set file.now offset }
{
    slow_text::capital_of(set, slow_text::byte_at(field_at(file, offset, 43, 1), 0))
}

fn no_sums() -> Sums
    ensures { result ≡ no_sums }
{
    Sums {
        debits: Items(0),
        debit: Cents(0),
        credits: Items(0),
        credit: Cents(0),
        views: Views(0),
    }
}

// The sums of one item: a debit, or a credit.
fn item_sums(set: CharacterSet, file: &[u8], kind: u64, offset: usize) -> Sums
    requires { is_item kind ≡ true }
    ensures { (result ≡ adds set file.now kind offset) × Small result }
{
    let amount = amount_at(set, file, kind, offset);
    if is_debit(set, file, kind, offset) {
        return Sums {
            debits: Items(1),
            debit: Cents(amount),
            ..no_sums()
        };
    }
    Sums {
        credits: Items(1),
        credit: Cents(amount),
        ..no_sums()
    }
}

fn view_sums() -> Sums
    ensures { result ≡ sums 0 0 0 0 1 }
{
    Sums {
        views: Views(1),
        ..no_sums()
    }
}

// More cents. No control field has more than 16 digits, and a sum that none can state stays at the first such number.
// Stays: no `min`, since `measure` stops its sums by that.
fn cents_and(sum: Cents, more: u64) -> Cents
    requires { (sum.0 < 0x4000_0000_0000_0000) × (more < 0x4000_0000_0000_0000) }
    ensures { result ≡ cents (capped (more + sum.0)) }
{
    let all = more + sum.0;
    if 10_000_000_000_000_000 < all {
        return Cents(10_000_000_000_000_000);
    }
    Cents(all)
}

// Like is added to like.
fn sums_and(sums: Sums, more: Sums) -> Sums
    requires { Small sums × Small more }
    ensures { result ≡ capped_sums (together more sums) }
{
    Sums {
        debits: Items(more.debits.0 + sums.debits.0),
        debit: cents_and(sums.debit, more.debit.0),
        credits: Items(more.credits.0 + sums.credits.0),
        credit: cents_and(sums.credit, more.credit.0),
        views: Views(more.views.0 + sums.views.0),
    }
}

// Before the first record.
#[tactic(auto, unfolding(standing::specs::Standing::standing))]
pub fn start() -> Standing
    ensures { (set : CharacterSet) (file : List ℕ) → result ≡ capped_figures (standing set file []) }
{
    Standing {
        last: 0,
        inside: false,
        present: 0,
        holder: 0,
        records: Records(0),
        letters: 0,
        bundles: 0,
        opened: 0,
        items: Items(0),
        ordinal: 0,
        whole: no_sums(),
        letter: no_sums(),
        bundle: no_sums(),
        micr: Cents(0),
        addenda: 0,
        bofd: 0,
        endorser: 0,
        shown: 0,
        stated: 0,
        item: 0,
        header: 0,
        heading: 0,
        indicator: 0,
        signature: 0,
    }
}

// A 10 begins a cash letter: no bundle in it yet, and nothing added up.
fn with_cash_letter(set: CharacterSet, file: &[u8], s: Standing, offset: usize) -> Standing
    requires { Roomy s × (capped_figures s ≡ s) }
    ensures { result ≡ capped_figures (onward set file.now s 10 offset) }
{
    Standing {
        last: 10,
        records: Records(s.records.0 + 1),
        letters: 1 + s.letters,
        letter: no_sums(),
        heading: offset,
        indicator: indicator_at(set, file, offset),
        opened: 0,
        holder: 0,
        ..s
    }
}

// A 20 begins a bundle: no item in it yet, and nothing added up.
fn with_bundle(s: Standing, offset: usize) -> Standing
    requires { Roomy s × (capped_figures s ≡ s) }
    ensures { (set : CharacterSet) (file : List ℕ) → result ≡ capped_figures (onward set file s 20 offset) }
{
    Standing {
        last: 20,
        records: Records(s.records.0 + 1),
        bundles: 1 + s.bundles,
        opened: 1 + s.opened,
        bundle: no_sums(),
        header: offset,
        inside: true,
        present: 0,
        holder: 0,
        ordinal: 0,
        micr: Cents(0),
        ..s
    }
}

// A bundle's items are all 25 or all 31, as the first; 61s do not count for that.
fn item_type(kind: u64, older: u64) -> u64
    requires { is_item kind ≡ true }
    ensures { result ≡ cond (is_check_or_return kind) kind older }
{
    if kind == 61 { older } else { kind }
}

// An item, a 25, a 31 or a 61, has no addenda and no views yet. It is added to the bundle, to the cash letter and to the file.
fn with_item(set: CharacterSet, file: &[u8], s: Standing, kind: u64, offset: usize) -> Standing
    requires { Roomy s × (is_item kind ≡ true) }
    ensures { result ≡ capped_figures (onward set file.now s kind offset) }
{
    let sums = item_sums(set, file, kind, offset);
    Standing {
        last: kind,
        records: Records(s.records.0 + 1),
        items: Items(1 + s.items.0),
        ordinal: 1 + s.ordinal,
        present: item_type(kind, s.present),
        holder: kind,
        item: offset,
        whole: sums_and(s.whole, sums),
        letter: sums_and(s.letter, sums),
        bundle: sums_and(s.bundle, sums),
        micr: cents_and(s.micr, micr_at(set, file, kind, offset)),
        stated: stated_at(set, file, kind, offset),
        addenda: 0,
        bofd: 0,
        endorser: 0,
        shown: 0, // no view yet
        ..s
    }
}

// A 50 is a view of the item, whether or not it holds image bytes.
fn with_view(set: CharacterSet, file: &[u8], s: Standing, offset: usize) -> Standing
    requires { Roomy s × (capped_figures s ≡ s) }
    ensures { result ≡ capped_figures (onward set file.now s 50 offset) }
{
    let view = view_sums();
    Standing {
        last: 50,
        records: Records(s.records.0 + 1),
        whole: sums_and(s.whole, view),
        letter: sums_and(s.letter, view),
        bundle: sums_and(s.bundle, view),
        shown: 1 + s.shown,
        signature: number_at(set, file, offset, 29, 1),
        ..s
    }
}

// A 70 closes its bundle.
fn without_bundle(s: Standing) -> Standing
    requires { Roomy s × (capped_figures s ≡ s) }
    ensures { (set : CharacterSet) (file : List ℕ) (offset : ℕ) → result ≡ capped_figures (onward set file s 70 offset) }
{
    Standing {
        last: 70,
        records: Records(s.records.0 + 1),
        inside: false,
        holder: 0,
        ..s
    }
}

// The addenda of a check, 26 to 28, and of a return, 32 to 35.
pub fn is_addendum(kind: u64) -> bool
    ensures { result ≡ is_addendum kind }
{
    matches!(kind, 26..=28 | 32..=35)
}

// Those that are numbered from 1 in each item: 26 and 32, and by themselves 28 and 35.
fn is_bofd_addendum(kind: u64) -> bool
    ensures { result ≡ is_bofd_addendum kind }
{
    matches!(kind, 26 | 32)
}

fn is_endorser_addendum(kind: u64) -> bool
    ensures { result ≡ is_endorser_addendum kind }
{
    matches!(kind, 28 | 35)
}

// Stays: no `u64::from`, since `standing` counts by that.
fn one_if(test: bool) -> u64
    ensures { (result ≡ one test) × (result ≤ 1) }
{
    if test { 1 } else { 0 }
}

// An addendum of the item, or a record that is only counted. 26 and 32 are numbered on by themselves, and so are 28 and 35.
fn with_addendum_or_other(s: Standing, kind: u64) -> Standing
    requires { Roomy s × (capped_figures s ≡ s) × (is_one_of kind (10 ∷ 20 ∷ 25 ∷ 31 ∷ 50 ∷ 61 ∷ 70 ∷ []) ≡ false) }
    ensures { (set : CharacterSet) (file : List ℕ) (offset : ℕ) → result ≡ capped_figures (onward set file s kind offset) }
{
    Standing {
        last: kind,
        records: Records(s.records.0 + 1),
        addenda: one_if(is_addendum(kind)) + s.addenda,
        bofd: one_if(is_bofd_addendum(kind)) + s.bofd,
        endorser: one_if(is_endorser_addendum(kind)) + s.endorser,
        ..s
    }
}

// The figures with one record more, whose length field stands at an offset.
pub fn moved_on(set: CharacterSet, file: &[u8], s: Standing, kind: u64, offset: usize) -> Standing
    requires { Roomy s × (capped_figures s ≡ s) }
    ensures { result ≡ capped_figures (onward set file.now s kind offset) }
{
    match kind {
        10 => with_cash_letter(set, file, s, offset),
        20 => with_bundle(s, offset),
        25 | 31 | 61 => with_item(set, file, s, kind, offset),
        50 => with_view(set, file, s, offset),
        70 => without_bundle(s),
        _ => with_addendum_or_other(s, kind),
    }
}

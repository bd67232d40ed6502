// One record that was called for, and what stands behind it.
// Stays: some of it does what a function of `passes` or `order` does, since the two readers are to stand on separate code (request 12).
#![tactic(auto)]

ghost use Rattle.std.specs.Prelude.{◌≡◌, false, leb, length};
ghost use Rattle.frame.specs.Unless.{unless};
ghost use Rattle.judge.specs.Alone.{type_of, judged_as};
ghost use Rattle.order.specs.MayFollow.{is_carried, follows, one_item_type};
ghost use Rattle.standing.specs.Standing.{capped_figures, Roomy};
ghost use Rattle.passes.specs.declared.Fault.TheVariants.{Length, UnknownType, Place};
ghost use Rattle.passes.specs.Answers.{Faulty};
ghost use Rattle.passes.specs.Answers.{Stop};
ghost use Rattle.passes.specs.CheckOrder.{unless_alone, agreement};
ghost use Rattle.passes.specs.Reading.{step_of, ended_with};
ghost use Rattle.slow_record.specs.Types.{as_type};
ghost use Rattle.slow_step.specs.Places.{type_in, type_at, IsAnswer, Reached, Called, Enters};

use frame::Extent;
use judge::Flaw;
use passes::{Answer, Fault, Refusal, Step, Totals, Turn};
use standing::Standing;
use text::CharacterSet;

// A record that was called for: the figures with it, the offset behind it, and the type of the record that stands there, if it can be told.
pub type Entered = Result<(Standing, usize, Option<u64>), Refusal>;

// The record types that are carried.
#[tactic(auto, unfolding(order::specs::MayFollow::is_carried))]
fn is_carried(kind: u64) -> bool
    ensures { result ≡ is_carried kind }
{
    matches!(kind, 1 | 10 | 20 | 25..=28 | 31..=35 | 50 | 52 | 54 | 61 | 70 | 90 | 99)
}

// The type of a record, where it can be told and is carried.
#[tactic(auto, unfolding(judge::specs::Alone::type_of))]
fn type_in(set: CharacterSet, body: &[u8]) -> Option<u64>
    ensures { result ≡ as_type (type_in set body.now) }
{
    slow_record::type_of(set, body).filter(|kind| is_carried(*kind))
}

// The type of the record at an offset; none also where the bytes end there or are cut.
#[tactic(auto, unfolding(crate::specs::Places::type_at))]
pub fn type_at(set: CharacterSet, file: &[u8], at: usize) -> Option<u64>
    ensures { result ≡ as_type (type_at set file.now at) }
{
    let Extent { start, size } = slow_record::frame_at(file, at)?;
    type_in(set, slow_record::part_of(file, start, size))
}

// LINK, then TOTAL.
#[tactic(auto, unfolding(passes::specs::CheckOrder::agreement))]
fn agrees(set: CharacterSet, file: &[u8], s: Standing, at: usize, kind: u64) -> Turn
    requires { Roomy s }
    ensures { result ≡ agreement set file.now s at kind }
{
    if let Some(field) = slow_links::link_fault(set, file, s, kind, at) {
        return Err(Fault::Link(field));
    }
    if let Some(field) = slow_links::total_fault(set, file, s, kind, at) {
        return Err(Fault::Total(field));
    }
    Ok(kind)
}

// The items of a bundle are all 25 or all 31, as the first.
fn as_the_first(kind: u64, first: u64) -> bool
    ensures { result ≡ one_item_type first kind }
{
    !matches!(kind, 25 | 31) || first == 0 || first == kind
}

// A record where it was called for: PLACE where the bundle's items are of the other type, then the record alone, LINK and TOTAL.
fn examined<'a>(
    set: CharacterSet,
    file: &'a [u8],
    s: Standing,
    at: usize,
    kind: u64,
    body: &'a [u8],
) -> Turn
    requires { Roomy s }
    ensures { result ≡ unless (one_item_type s.present kind) (Faulty Place) (unless_alone (judged_as set kind body.now) (agreement set file.now s at kind)) }
{
    if !as_the_first(kind, s.present) {
        return Err(Fault::Place);
    }
    // Stays: no ?, which would have `passes` turn the flaw into a fault (request 12: the slow reader calls nothing of `passes`).
    match slow_record::judge(set, kind, body) {
        Ok(()) => agrees(set, file, s, at, kind),
        Err(Flaw::Length) => Err(Fault::Length),
        Err(Flaw::UnknownType) => Err(Fault::UnknownType),
        Err(Flaw::Field(n)) => Err(Fault::Field(n)),
    }
}

fn record_at(set: CharacterSet, file: &[u8], s: Standing, kind: u64, at: usize) -> Step
    requires { Called set file.now s at s.inside kind }
    ensures { result ≡ step_of set file.now s at }
{
    let Some(Extent { start, size }) = slow_record::frame_at(file, at) else {
        return Err(Fault::Cut);
    };
    let body = slow_record::part_of(file, start, size);
    let found = examined(set, file, s, at, kind, body)?;
    Ok((found, size))
}

pub fn enter(set: CharacterSet, file: &[u8], s: Standing, kind: u64, at: usize) -> Entered
    requires { Called set file.now s at s.inside kind }
    ensures { Enters set file.now s at kind result }
{
    match record_at(set, file, s, kind, at) {
        Err(fault) => Err(Refusal {
            fault,
            place: s.records.0 + 1,
            offset: at,
        }),
        Ok((_, size)) => {
            let here = slow_figures::moved_on(set, file, s, kind, at);
            let next = at + 4 + size;
            let called = type_at(set, file, next);
            Ok((here, next, called))
        }
    }
}

// At the end of the bytes: accepted behind a 99, and else OPEN.
#[tactic(auto, unfolding(passes::specs::Reading::ended_with))]
fn ended(s: Standing, at: usize) -> Answer
    requires { Roomy s × (capped_figures s ≡ s) }
    ensures { result ≡ ended_with s at }
{
    if s.last == 99 {
        return Ok(Totals {
            records: s.records,
            letters: s.letters,
            bundles: s.bundles,
            items: s.items,
            sums: s.whole,
        });
    }
    Err(Refusal {
        fault: Fault::Open,
        place: s.records.0 + 1,
        offset: at,
    })
}

// A record that nothing calls for: LENGTH, UNKNOWN TYPE or PLACE.
#[tactic(auto, unfolding(order::specs::MayFollow::is_carried))]
fn misfit(set: CharacterSet, body: &[u8]) -> Fault
    ensures { result ≡ unless (leb 2 (length body.now)) Length (unless (is_carried (type_of set body.now)) UnknownType Place) }
{
    if body.len() < 2 {
        return Fault::Length;
    }
    match slow_record::type_of(set, body) {
        Some(kind) if is_carried(kind) => Fault::Place,
        _ => Fault::UnknownType,
    }
}

// Bytes that nothing calls for: AFTER behind the 99, and else CUT, or the fault of the record there.
fn unfit(set: CharacterSet, file: &[u8], s: Standing, at: usize) -> Fault
    requires { follows s.inside s.last (type_at set file.now at) ≡ false }
    ensures { step_of set file.now s at ≡ Stop result }
{
    if s.last == 99 {
        return Fault::After;
    }
    match slow_record::frame_at(file, at) {
        Some(Extent { start, size }) => misfit(set, slow_record::part_of(file, start, size)),
        None => Fault::Cut,
    }
}

// What stands at an offset is none of the records that are called for there.
pub fn not_called_for(set: CharacterSet, file: &[u8], s: Standing, at: usize) -> Answer
    requires { Reached set file.now at s × (follows s.inside s.last (type_at set file.now at) ≡ false) }
    ensures { IsAnswer set file.now result }
{
    if file.len() <= at {
        return ended(s, at);
    }
    Err(Refusal {
        fault: unfit(set, file, s, at),
        place: s.records.0 + 1,
        offset: at,
    })
}

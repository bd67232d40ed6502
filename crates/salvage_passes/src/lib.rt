// The two passes over what is left of a torn file: whether a file can be made of it, and the file set out in the lent buffer.
#![tactic(auto)]

ghost use Rattle.std.specs.Prelude.{List, [], ◌∷◌, ◌++◌, ◌≡◌, length, drop};
ghost use Rattle.draft.specs.Values.{Values};
ghost use Rattle.draft.specs.Drafted.{answer_from, made};
ghost use Rattle.draft_survey.specs.CappedOutcome.{capped_outcome};
ghost use Rattle.set_out.specs.SetOut.{Onward};
ghost use Rattle.salvage_next.specs.Cued.{Cued, Cueing};
ghost use Rattle.salvage_entry.specs.Entered.{EnteredAs};
ghost use Rattle.salvage_passes.specs.Says.{NextEntered, NextWritten};
ghost use Rattle.salvage_passes.specs.Writable.{Writable};

use draft::Outcome;
use salvage_entry::{Entered, Pen};
use salvage_marks::Torn;
use salvage_next::{Cue, Entry};
use set_out::Progress;
use standing::Standing;
use text::CharacterSet;

// One record more of the new file, judged on the sheet; `text` and `row` are lent to say it as a draft does.
fn enter_next<'a>(
    torn: Torn<'a>,
    entry: Entry,
    pen: Pen,
    text: &mut [u8; 85],
    row: &mut [u64; 10],
    sheet: &mut [u8],
) -> Entered
    requires { NextEntered torn.set torn.file.now entry sheet.old pen }
    ensures { (e : NextEntered torn.entry.set torn.entry.file.now entry sheet.old pen) → EnteredAs e.value e.entering.others e.entering.begun.file e.entering.begun.past result sheet.new }
{
    let layouts = torn.layouts();
    let body = frame::part_of(torn.file, entry.start, entry.size);
    if entry.kept {
        salvage_rows::put_kept(torn.set, layouts, body, row);
        return salvage_entry::enter(torn.set, layouts, body, row, entry.addenda, pen, sheet);
    }
    salvage_rows::put_control(torn.set, layouts, entry.kind, body, text, row);
    salvage_entry::enter(
        CharacterSet::Ascii,
        layouts,
        text,
        row,
        entry.addenda,
        pen,
        sheet,
    )
}

// One record more of the new file, written.
fn write_next<'a>(
    torn: Torn<'a>,
    entry: Entry,
    s: Standing,
    text: &mut [u8; 85],
    row: &mut [u64; 10],
    sheet: &mut [u8],
    out: &mut [u8],
) -> Progress
    requires { NextWritten torn.set torn.file.now entry sheet.old s (length out.old) }
    ensures { (w : NextWritten torn.entry.set torn.entry.file.now entry sheet.old s (length out.old)) → Onward (w.value ∷ w.ready.others) w.ready.ready.file w.ready.ready.past out.old w.ready.others sheet.new result.standing result.bytes out.new }
{
    let layouts = torn.layouts();
    let body = frame::part_of(torn.file, entry.start, entry.size);
    if entry.kept {
        salvage_rows::put_kept(torn.set, layouts, body, row);
        return set_out::write_counted(torn.set, layouts, body, row, entry.addenda, s, sheet, out);
    }
    salvage_rows::put_control(torn.set, layouts, entry.kind, body, text, row);
    set_out::write_counted(
        CharacterSet::Ascii,
        layouts,
        text,
        row,
        entry.addenda,
        s,
        sheet,
        out,
    )
}

// The answer to what is left, whatever the buffer; 2^64 - 1 bytes stand for as many or more.
pub fn decide<'a>(torn: Torn<'a>, cue: Cue) -> Outcome
    requires { Cueing torn.set torn.file.now torn.end cue }
    ensures { (vs : List Values) → Cued torn.entry.set torn.entry.file.now torn.entry.end cue vs → result ≡ capped_outcome (answer_from vs [] []) }
{
    let mut sheet: [u8; 800] = [0; 800];
    let mut text: [u8; 85] = [0; 85];
    let mut row: [u64; 10] = [0; 10];
    let mut pen = Pen {
        standing: Standing::start(),
        bytes: 0,
    };
    let mut at = cue;
    // Stays: what comes next is found from where the making out stands; nothing is counted.
    while !at.done {
        let entry = salvage_next::next_entry(torn, at);
        // Stays: a `match`, so that the refusal handed on has a line of its own, which `more-edits/refusal_without_its_offset` turns.
        match enter_next(torn, entry, pen, &mut text, &mut row, &mut sheet) {
            Err(refusal) => return Err(refusal),
            Ok(on) => {
                pen = on;
                at = entry.next;
            }
        }
    }
    draft_survey::rows_ended(pen.standing, pen.bytes)
}

// What is left set out in the buffer, record behind record.
pub fn write_left<'a>(torn: Torn<'a>, cue: Cue, out: &mut [u8])
    requires { Writable torn.set torn.file.now torn.end cue (length out.old) }
    ensures { (w : Writable torn.entry.set torn.entry.file.now torn.entry.end cue (length out.old)) → out.new ≡ made w.values ++ drop (length (made w.values)) out.old }
{
    let mut sheet: [u8; 800] = [0; 800];
    let mut text: [u8; 85] = [0; 85];
    let mut row: [u64; 10] = [0; 10];
    let mut s = Standing::start();
    let mut bytes: usize = 0;
    let mut at = cue;
    // Stays: as in `decide`.
    while !at.done {
        let entry = salvage_next::next_entry(torn, at);
        let one = write_next(
            torn,
            entry,
            s,
            &mut text,
            &mut row,
            &mut sheet,
            &mut out[bytes..],
        );
        s = one.standing;
        bytes += one.bytes;
        at = entry.next;
    }
}

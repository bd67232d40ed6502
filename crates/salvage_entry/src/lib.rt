// A file made out record by record, without a draft (request 4, reading 47): one record more, judged on the sheet.
#![tactic(auto)]

ghost use Rattle.std.specs.Prelude.{◌≤◌, length};
ghost use Rattle.draft.specs.Values.{values_of_row};
ghost use Rattle.salvage_entry.specs.Entered.{Entering, EnteredAs};

use draft_rows::Row;
use layout::Layouts;
use passes::Refusal;
use standing::Standing;
use text::CharacterSet;

// The figures of the records so far, and the bytes that they take; 2^64 - 1 stands for as many or more.
#[derive(Clone, Copy)]
pub struct Pen {
    pub standing: Standing,
    pub bytes: usize,
}

// What one record more comes to. A refusal has the record (from 1), and the offset that its length field would have.
pub type Entered = Result<Pen, Refusal>;

// One record more, with so many addenda behind it: `text` and `row` say it as a draft does.
pub fn enter<'a>(
    set: CharacterSet,
    layouts: Layouts<'a>,
    text: &'a [u8],
    row: &'a [u64],
    addenda: u64,
    pen: Pen,
    sheet: &mut [u8],
) -> Entered
    requires { (10 ≤ length row.now) × Entering (values_of_row set text.now row.now) addenda sheet.old pen }
    ensures { (e : Entering (values_of_row set text.now row.now) addenda sheet.old pen) → EnteredAs (values_of_row set text.now row.now) e.others e.begun.file e.begun.past result sheet.new }
{
    let s = pen.standing;
    let own = layouts.own_numbers(row[0]);
    match draft_survey::judge_counted(set, own, text, row, addenda, s, sheet) {
        Err(fault) => Err(Refusal {
            fault,
            place: s.records.0 + 1,
            offset: pen.bytes,
        }),
        Ok(kind) => {
            let size = fitting::size_of(Row { own, rows: row });
            let bytes = fitting::plus(pen.bytes, fitting::plus(4, size));
            let standing = standing::moved(
                CharacterSet::Ascii,
                sheet,
                s,
                kind,
                sheet::slot_of(kind),
            );
            Ok(Pen { standing, bytes })
        }
    }
}

// The writer: a draft made out in the lent buffer.
#![tactic(auto)]

ghost use Rattle.std.specs.Prelude.{◌≡◌, length};
ghost use Rattle.draft.specs.Values.{values_of_draft};
ghost use Rattle.draft.specs.Drafted.{outcome_of, buffer_of};
ghost use Rattle.draft.specs.Promises.{Promised};

use draft::Outcome;
use layout::Layouts;
use passes::{Fault, Refusal};

// The file that a draft makes: what becomes of it, and in the lent buffer its bytes where it can be made out and there is room. The draft is a text of
// bytes and rows of ten numbers (reading 41); what is worked out is not looked at in the text.
pub fn write<'a>(text: &'a [u8], draft: &'a [u64], out: &mut [u8]) -> Outcome
    ensures answer { result ≡ outcome_of (values_of_draft text.now draft.now) (length out.old) }
    ensures buffer { out.new ≡ buffer_of (values_of_draft text.now draft.now) out.old }
    ensures promised { Promised text.now draft.now out.old result out.new }
{
    let numbers = layout::table();
    let layouts = Layouts { numbers: &numbers };
    let (bytes, totals) = draft_survey::survey_draft(layouts, text, draft)?;
    if 268_435_456 < bytes {
        return Err(Refusal::of_file(Fault::Size, 0));
    }
    if out.len() < bytes {
        return Err(Refusal::of_file(Fault::Room, bytes as u64));
    }
    let set = draft_survey::set_of_text(text, draft);
    set_out::write_rows(set, layouts, text, draft, out);
    Ok((bytes, totals))
}

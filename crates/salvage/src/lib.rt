// A torn file salvaged: the good bundles and credits in a new file, and what became of each record in a list (request 11).
#![tactic(auto)]

ghost use Rattle.std.specs.Prelude.{true, ◌&&◌, ◌≡◌, leb, length};
ghost use Rattle.salvage_model.specs.Walked.{walked};
ghost use Rattle.salvage_model.specs.Kept.{is_anything};
ghost use Rattle.salvage_model.specs.Salvaged.{salvage_outcome, salvage_buffer, salvage_list};
ghost use Rattle.salvage_model.specs.Promises.{Promised};
ghost use Rattle.salvage.specs.Steps.{WalkedTo, SalvagedAs};

use draft::Outcome;
use passes::{Fault, Refusal};
use salvage_marks::Torn;
use salvage_next::Cue;

// Neither empty nor longer than what is read.
fn is_of_size(bytes: usize) -> bool
    ensures { result ≡ (leb 1 bytes && leb bytes 268_435_456) }
{
    (1 <= bytes) & (bytes <= 268_435_456)
}

// Whether the file header is sound and any cash letter is left.
fn is_anything<'a>(torn: Torn<'a>) -> bool
    requires { WalkedTo torn.set torn.file.now torn.end }
    ensures { result ≡ is_anything torn.entry.set (walked torn.entry.file.now) }
{
    if torn.end == 0 {
        return false;
    }
    let seen = salvage_walk::seen_at(torn.set, torn.file, 0, torn.end);
    let body = frame::part_of(torn.file, seen.start, seen.size);
    if !salvage_runs::is_sound_alone(torn.set, torn.layouts(), 1, body) {
        return false;
    }
    let plan = salvage_marks::plan_at(seen.next);
    salvage_list::is_any_kept(torn, plan)
}

// Of a file of which anything is left: the writer's answer, and the new file and the list where there is room for both.
fn salvage_left<'a>(torn: Torn<'a>, rows: u64, out: &mut [u8], list: &mut [u64]) -> Outcome
    requires { WalkedTo torn.set torn.file.now torn.end × (rows ≡ length (walked torn.file.now)) × (is_anything torn.set (walked torn.file.now) ≡ true) }
    ensures { SalvagedAs torn.entry.file.now out.old list.old result out.new list.new }
{
    let plan = torn.plan_of_file();
    let cue = Cue {
        plan,
        open: false,
        done: false,
    };
    let (bytes, totals) = salvage_passes::decide(torn, cue)?;
    if 268_435_456 < bytes {
        return Err(Refusal::of_file(Fault::Size, 0));
    }
    if out.len() < bytes {
        return Err(Refusal::of_file(Fault::Room, bytes as u64));
    }
    if (list.len() as u64) / 4 < rows {
        return Err(Refusal::of_file(Fault::Room, rows));
    }
    salvage_passes::write_left(torn, cue, out);
    salvage_list::put_list(torn, plan, list);
    Ok((bytes, totals))
}

// What is left of a torn file: the answer, in the buffer the new file, and in the list four numbers for each record walked. Buffer and list are as they
// were on every refusal.
pub fn salvage(file: &[u8], out: &mut [u8], list: &mut [u64]) -> Outcome
    ensures answer { result ≡ salvage_outcome file.now (length out.old) (length list.old) }
    ensures buffer { out.new ≡ salvage_buffer file.now out.old (length list.old) }
    ensures rows { list.new ≡ salvage_list file.now (length out.old) list.old }
    ensures promised { Promised file.now out.old list.old result out.new }
{
    if !is_of_size(file.len()) {
        return Err(Refusal::of_file(Fault::Size, 0));
    }
    let set = text::set_of(file);
    let numbers = layout::table();
    let way = salvage_walk::walk(set, file);
    let torn = Torn {
        set,
        numbers: &numbers,
        file,
        end: way.end,
    };
    if !is_anything(torn) {
        return Err(Refusal::of_file(Fault::Nothing, 0));
    }
    salvage_left(torn, way.count, out, list)
}

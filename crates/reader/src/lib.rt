// The reader: the answer to a file, and in the lent table the rows of an accepted one.
#![tactic(auto)]

ghost use Rattle.std.specs.Prelude.{◌≡◌, length};
ghost use Rattle.passes.specs.Reading.{answer_of, table_of};
ghost use Rattle.arrangement.specs.Arranged.{Arranged};
ghost use Rattle.read_as_copy.specs.AsItsCopy.{AsItsCopy};
ghost use Rattle.own_fault.specs.OwnFault.{OwnFault};

use passes::{Answer, Fault, Refusal};

// The answer to a file, and in the lent table the rows of an accepted one.
pub fn read(file: &[u8], table: &mut [u64]) -> Answer
    ensures answer { result ≡ answer_of file.now (length table.old) }
    ensures rows { table.new ≡ table_of file.now table.old }
    ensures arranged { Arranged file.now table.old result table.new }
    ensures copy { AsItsCopy file.now table.old result table.new }
    ensures own { OwnFault file.now result }
{
    let totals = passes::survey(file)?;
    let needed = totals.records.0;
    if (table.len() as u64) / 7 < needed {
        return Err(Refusal::of_file(Fault::Room, needed));
    }
    passes::fill(file, table);
    Ok(totals)
}

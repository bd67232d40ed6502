// The call for a torn transmission (request 11).
ghost use Rattle.abi.specs.Salvaging.{Salvaging};

use crate::tell;

// What is left of a torn file: 0 and the totals of the new file with its bytes, or a refusal as x9_write answers it. In `out` the new file, in `list` four
// numbers for each record walked.
#[unsafe(no_mangle)]
pub extern "C" fn x9_salvage(
    file: &[u8],
    out: &mut [u8],
    list: &mut [u64],
    answer: &mut [u64; 12],
) -> u64
    ensures { Salvaging file.now out.old list.old result out.new list.new answer.new }
{
    match salvage::salvage(file, out, list) {
        Ok((bytes, totals)) => tell(bytes as u64, Ok(totals), answer),
        Err(refusal) => tell(0, Err(refusal), answer),
    }
}

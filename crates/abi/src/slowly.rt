// The slow reader's call (request 12).
ghost use Rattle.abi.specs.Slowly.{SlowReading};

use crate::tell;

// The reading of a whole file of up to 65,536 bytes by the slow reader: number, `table` and `answer` as x9_read has them.
#[unsafe(no_mangle)]
pub extern "C" fn x9_read_slowly(file: &[u8], table: &mut [u64], answer: &mut [u64; 12]) -> u64
    ensures { SlowReading file.now table.old result table.new answer.new }
{
    let size = file.len() as u64;
    tell(size, slow_reader::read_slowly(file, table), answer)
}

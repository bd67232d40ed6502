// What becomes of a draft.
#![tactic(auto)]

use passes::{Refusal, Totals};

// The bytes of the file and what it adds up to, or the fault, the record (from 1) and the offset that its length field would have.
pub type Outcome = Result<(usize, Totals), Refusal>;

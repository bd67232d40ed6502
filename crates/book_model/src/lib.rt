// No code: what a day book is, and what each of its calls answers and leaves, stands in `specs/`. The types of its entries and answers are declared here.
#![tactic(auto)]

use figures::Figures;
use passes::{Fault, Refusal, Totals};

// One cash letter as it was entered: its entry number, the caller's number for its file, its own figures.
#[derive(Clone, Copy)]
pub struct Entry {
    pub number: u64,
    pub file: u64,
    pub figures: Figures,
}

// What an owner has in the book: how many entries there are, the running totals and the net position.
#[derive(Clone, Copy)]
pub struct Tally {
    pub entries: u64,
    pub figures: Figures,
    pub net: i64,
}

// What entering a file gives: the first entry number given and the totals of the file, or why and where it is refused.
pub type Entering = Result<(u64, Totals), Refusal>;

// What looking up an entry, asking for an owner's tally, and withdrawing an entry or tidying up give: each of them, or the fault.
pub type Finding = Result<Entry, Fault>;

pub type Tallying = Result<Tally, Fault>;

pub type Change = Result<(), Fault>;

// Clause 5 for the slow reader (request 12). It calls nothing of `text` and shares its types and definitions.
// Stays: some of it does what a function of `text` does, since the two readers are to stand on separate code (request 12).
// Stays: loops and tests by hand where `text` calls a function of the library that tests or reads; what both call only hands on (tests/tests/slow_reader.rs).
#![tactic(auto)]

mod basic_types;
mod data_types;
mod numbers;

pub use basic_types::{is_blank, is_dash, set_of};
pub use data_types::{all_blank, all_digits, digits_and_blanks, of_type, some_digit, some_mark};
pub use numbers::{behind, byte_at, capital_of, digit_of, number_in, part_of, place_of};

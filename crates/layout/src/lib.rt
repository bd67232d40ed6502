// The layouts of the carried kinds of record.
#![tactic(auto)]

mod kinds;
mod packed;
mod packing;

pub use kinds::{
    BundleControl, BundleHeader, CashLetterControl, CashLetterHeader, CheckDetail,
    CheckDetailAddendumA, CheckDetailAddendumB, CheckDetailAddendumC, CreditRecord, FileControl,
    FileHeader, ImageViewAnalysis, ImageViewData, ImageViewDetail, Kind, ReturnAddendumA,
    ReturnAddendumB, ReturnAddendumC, ReturnAddendumD, ReturnRecord,
};
pub use packed::{COUNT, Layouts, own_numbers, table};
pub use packing::{
    Origin, data_type_of, fields_in, length_in, origin_of, parts_in, place_of, rule_of, usage_of,
};

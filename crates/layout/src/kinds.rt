// The carried kinds of record, each a type with its type number, the length of its fixed part and how many fields it has, as its clause says.
use crate::packing::{ANS, BINARY, FIRST, SIZE};

// The form that document 01 names: what each kind says of itself.
pub trait Kind {
    const TYPE: u64;

    const LENGTH: u64;

    const FIELDS: u64;
}

// Clause 7: File Header Record (Type 01).
#[derive(Clone, Copy)]
pub struct FileHeader {}

impl Kind for FileHeader {
    const TYPE: u64 = 1;

    const LENGTH: u64 = 80;

    const FIELDS: u64 = 14;
}

// Clause 8: Cash Letter Header Record (Type 10).
#[derive(Clone, Copy)]
pub struct CashLetterHeader {}

impl Kind for CashLetterHeader {
    const TYPE: u64 = 10;

    const LENGTH: u64 = 80;

    const FIELDS: u64 = 14;
}

// Clause 9: Bundle Header Record (Type 20).
#[derive(Clone, Copy)]
pub struct BundleHeader {}

impl Kind for BundleHeader {
    const TYPE: u64 = 20;

    const LENGTH: u64 = 80;

    const FIELDS: u64 = 13;
}

// Clause 10: Check Detail Record (Type 25).
#[derive(Clone, Copy)]
pub struct CheckDetail {}

impl Kind for CheckDetail {
    const TYPE: u64 = 25;

    const LENGTH: u64 = 80;

    const FIELDS: u64 = 14;
}

// Clause 11: Check Detail Addendum A Record (Type 26).
#[derive(Clone, Copy)]
pub struct CheckDetailAddendumA {}

impl Kind for CheckDetailAddendumA {
    const TYPE: u64 = 26;

    const LENGTH: u64 = 115;

    const FIELDS: u64 = 14;
}

// Clause 12: Check Detail Addendum B Record (Type 27).
#[derive(Clone, Copy)]
pub struct CheckDetailAddendumB {}

impl Kind for CheckDetailAddendumB {
    const TYPE: u64 = 27;

    const LENGTH: u64 = 73;

    const FIELDS: u64 = 18;
}

// Clause 13: Check Detail Addendum C Record (Type 28).
#[derive(Clone, Copy)]
pub struct CheckDetailAddendumC {}

impl Kind for CheckDetailAddendumC {
    const TYPE: u64 = 28;

    const LENGTH: u64 = 80;

    const FIELDS: u64 = 14;
}

// Clause 14: Return Record (Type 31).
#[derive(Clone, Copy)]
pub struct ReturnRecord {}

impl Kind for ReturnRecord {
    const TYPE: u64 = 31;

    const LENGTH: u64 = 80;

    const FIELDS: u64 = 9;
}

// Clause 15: Return Addendum A Record (Type 32).
#[derive(Clone, Copy)]
pub struct ReturnAddendumA {}

impl Kind for ReturnAddendumA {
    const TYPE: u64 = 32;

    const LENGTH: u64 = 115;

    const FIELDS: u64 = 14;
}

// Clause 16: Return Addendum B Record (Type 33).
#[derive(Clone, Copy)]
pub struct ReturnAddendumB {}

impl Kind for ReturnAddendumB {
    const TYPE: u64 = 33;

    const LENGTH: u64 = 80;

    const FIELDS: u64 = 11;
}

// Clause 17: Return Addendum C Record (Type 34).
#[derive(Clone, Copy)]
pub struct ReturnAddendumC {}

impl Kind for ReturnAddendumC {
    const TYPE: u64 = 34;

    const LENGTH: u64 = 73;

    const FIELDS: u64 = 18;
}

// Clause 18: Return Addendum D Record (Type 35).
#[derive(Clone, Copy)]
pub struct ReturnAddendumD {}

impl Kind for ReturnAddendumD {
    const TYPE: u64 = 35;

    const LENGTH: u64 = 80;

    const FIELDS: u64 = 14;
}

// Clause 21: Image View Detail Record (Type 50).
#[derive(Clone, Copy)]
pub struct ImageViewDetail {}

impl Kind for ImageViewDetail {
    const TYPE: u64 = 50;

    const LENGTH: u64 = 80;

    const FIELDS: u64 = 23;
}

// Clause 22: Image View Data Record (Type 52).
#[derive(Clone, Copy)]
pub struct ImageViewData {}

impl Kind for ImageViewData {
    const TYPE: u64 = 52;

    const LENGTH: u64 = 139;

    const FIELDS: u64 = 28;
}

impl ImageViewData {
    // The fields after the fixed part, which the picture call wants without the rest of the layouts.
    pub const PARTS: [u64; 7] = [
        104 * FIRST + 4 * SIZE + ANS, // 22 Image Reference Key
        108 * FIRST + 5 * SIZE + BINARY, // 23 Digital Signature
        113 * FIRST + 5 * SIZE + ANS, // 24 Digital Certificate Issuer Distinguished Name
        118 * FIRST + 5 * SIZE + ANS, // 25 Digital Certificate Serial Number
        123 * FIRST + 5 * SIZE + BINARY, // 26 Digital Certificate
        128 * FIRST + 7 * SIZE + BINARY, // 27 Image Data
        135 * FIRST + 5 * SIZE + BINARY, // 28 Ancillary Data
    ];
}

// Clause 23: Image View Analysis Record (Type 54).
#[derive(Clone, Copy)]
pub struct ImageViewAnalysis {}

impl Kind for ImageViewAnalysis {
    const TYPE: u64 = 54;

    const LENGTH: u64 = 80;

    const FIELDS: u64 = 47;
}

// Clause 26: Credit/Reconciliation Record (Type 61).
#[derive(Clone, Copy)]
pub struct CreditRecord {}

impl Kind for CreditRecord {
    const TYPE: u64 = 61;

    const LENGTH: u64 = 84;

    const FIELDS: u64 = 12;
}

// Clause 31: Bundle Control Record (Type 70).
#[derive(Clone, Copy)]
pub struct BundleControl {}

impl Kind for BundleControl {
    const TYPE: u64 = 70;

    const LENGTH: u64 = 80;

    const FIELDS: u64 = 9;
}

// Clause 34: Cash Letter Control Record (Type 90).
#[derive(Clone, Copy)]
pub struct CashLetterControl {}

impl Kind for CashLetterControl {
    const TYPE: u64 = 90;

    const LENGTH: u64 = 85;

    const FIELDS: u64 = 9;
}

// Clause 35: File Control Record (Type 99).
#[derive(Clone, Copy)]
pub struct FileControl {}

impl Kind for FileControl {
    const TYPE: u64 = 99;

    const LENGTH: u64 = 80;

    const FIELDS: u64 = 8;
}

// The layouts, kind by kind in the order of the clauses: a number for the kind, then one for each of its fields. A part's number has the
// position and size of the field that states the part's size. packing.rt says how the numbers are made.
ghost use Rattle.std.specs.Prelude.{◌≡◌, length};
ghost use Rattle.layout.specs.Packing.{Packed, own_in};

use crate::kinds::{
    BundleControl, BundleHeader, CashLetterControl, CashLetterHeader, CheckDetail,
    CheckDetailAddendumA, CheckDetailAddendumB, CheckDetailAddendumC, CreditRecord, FileControl,
    FileHeader, ImageViewAnalysis, ImageViewData, ImageViewDetail, Kind, ReturnAddendumA,
    ReturnAddendumB, ReturnAddendumC, ReturnAddendumD, ReturnRecord,
};
use crate::packing::{
    A, AB, ACCOUNT_TYPES, ADDENDUM_COUNT, ALL_DIGITS, AN, ANS, ARCHIVE_TYPES, B_TTTTAAAA, BINARY,
    BUNDLE_COLLECTION_TYPE, BUNDLE_COUNT, C, CASH_LETTER_DOCUMENTATION, CLIPPED_BY,
    COLLECTION_TYPE, CREDIT_CENTS, CREDIT_COUNT, DATE, DEBIT_CENTS, DEBIT_COUNT, FIELDS,
    FILE_TYPES, FIRST, HOURS_MINUTES, HOURS_MINUTES_SECONDS, ITEM_COUNT, ITEM_DOCUMENTATION, KIND,
    LETTER_COUNT, LONG, LOW, M, MICR_CENTS, N, NB, NBD, NBMC, NBMCD, NBMCDO, NBMU, NBQ, NNNNNNNNN,
    NUMBERS, ONE_OR_TWO_DIGITS, PART_SIZE, PARTS, RECORD_COUNT, RECORD_NUMBER,
    RECORD_TYPE_INDICATORS, RETURN_ACCEPTANCE, ROUTING, SIZE, SOURCE_OF_WORK, STANDARD_LEVEL,
    TEST_OVERRIDES, TTTT_AAAA, TTTTAAAAC, TTTTT_FFF, TYPE_NUMBER, VIEW_COUNT, YES_NO,
    YES_NO_UNKNOWN, fields_in, type_in,
};

pub const COUNT: usize = 322;

// A kind's number, with how many of its fields are parts.
macro_rules! header {
    ($kind:ident) => {
        header!($kind, 0)
    };
    ($kind:ident, $parts:expr) => {
        $kind::TYPE * KIND + $kind::LENGTH * LONG + $kind::FIELDS * FIELDS + $parts * PARTS
    };
}

const LAYOUTS: [u64; COUNT] = [
    // Clause 7: File Header Record.
    header!(FileHeader),
    1 * FIRST + 2 * SIZE + M + TYPE_NUMBER + N + NUMBERS + 1 * LOW + 1, // 1 Record Type
    3 * FIRST + 2 * SIZE + M + N + STANDARD_LEVEL, // 2 Standard Level
    5 * FIRST + 1 * SIZE + M + AN + FILE_TYPES, // 3 File Type Indicator
    6 * FIRST + 9 * SIZE + M + NBD + ROUTING + TTTTAAAAC + TTTTT_FFF + NNNNNNNNN, // 4 Immediate Destination Routing Number
    15 * FIRST + 9 * SIZE + M + NBD + ROUTING + TTTTAAAAC + TTTTT_FFF + NNNNNNNNN, // 5 Immediate Origin Routing Number
    24 * FIRST + 8 * SIZE + M + N + DATE, // 6 File Creation Date
    32 * FIRST + 4 * SIZE + M + N + HOURS_MINUTES, // 7 File Creation Time
    36 * FIRST + 1 * SIZE + M + A + YES_NO, // 8 Resend Indicator
    37 * FIRST + 18 * SIZE + C + ANS, // 9 Immediate Destination Name
    55 * FIRST + 18 * SIZE + C + ANS, // 10 Immediate Origin Name
    73 * FIRST + 1 * SIZE + C + AN, // 11 File ID Modifier
    74 * FIRST + 2 * SIZE + C + AN, // 12 Country Code
    76 * FIRST + 4 * SIZE + C + ANS, // 13 User Field
    80 * FIRST + 1 * SIZE + M + AB, // 14 Reserved
    // Clause 8: Cash Letter Header Record.
    header!(CashLetterHeader),
    1 * FIRST + 2 * SIZE + M + TYPE_NUMBER + N + NUMBERS + 10 * LOW + 10, // 1 Record Type
    3 * FIRST + 2 * SIZE + M + N + COLLECTION_TYPE, // 2 Collection Type Indicator
    5 * FIRST + 9 * SIZE + M + NBD + ROUTING + TTTTAAAAC + TTTTT_FFF + NNNNNNNNN, // 3 Destination Routing Number
    14 * FIRST + 9 * SIZE + M + NBD + ROUTING + TTTTAAAAC + TTTTT_FFF + NNNNNNNNN, // 4 ECE Institution Routing Number
    23 * FIRST + 8 * SIZE + M + N + DATE, // 5 Cash Letter Business Date
    31 * FIRST + 8 * SIZE + M + N + DATE, // 6 Cash Letter Creation Date
    39 * FIRST + 4 * SIZE + M + N + HOURS_MINUTES, // 7 Cash Letter Creation Time
    43 * FIRST + 1 * SIZE + M + AN + RECORD_TYPE_INDICATORS, // 8 Cash Letter Record Type Indicator
    44 * FIRST + 1 * SIZE + C + AN + CASH_LETTER_DOCUMENTATION, // 9 Cash Letter Documentation Type Indicator
    45 * FIRST + 8 * SIZE + C + AN, // 10 Cash Letter ID
    53 * FIRST + 14 * SIZE + C + ANS, // 11 Originator Contact Name
    67 * FIRST + 10 * SIZE + C + NB, // 12 Originator Contact Phone Number
    77 * FIRST + 2 * SIZE + C + AN + NUMBERS + 1 * LOW + 99, // 13 Work Type
    79 * FIRST + 2 * SIZE + C + ANS, // 14 User Field
    // Clause 9: Bundle Header Record.
    header!(BundleHeader),
    1 * FIRST + 2 * SIZE + M + TYPE_NUMBER + N + NUMBERS + 20 * LOW + 20, // 1 Record Type
    3 * FIRST + 2 * SIZE + M + N + BUNDLE_COLLECTION_TYPE, // 2 Collection Type Indicator
    5 * FIRST + 9 * SIZE + M + NBD + ROUTING + TTTTAAAAC + TTTTT_FFF + NNNNNNNNN, // 3 Bundle Destination Routing Number
    14 * FIRST + 9 * SIZE + M + NBD + ROUTING + TTTTAAAAC + TTTTT_FFF + NNNNNNNNN, // 4 Bundle ECE Institution Routing Number
    23 * FIRST + 8 * SIZE + M + N + DATE, // 5 Bundle Business Date
    31 * FIRST + 8 * SIZE + C + NB + DATE, // 6 Bundle Creation Date
    39 * FIRST + 10 * SIZE + C + AN, // 7 Bundle ID
    49 * FIRST + 4 * SIZE + C + NB, // 8 Bundle Sequence Number
    53 * FIRST + 2 * SIZE + C + AN, // 9 Cycle Number
    55 * FIRST + 9 * SIZE + C + NBD + ROUTING + TTTTAAAAC + TTTTT_FFF, // 10 Return Location Routing Number
    64 * FIRST + 4 * SIZE + C + NB + HOURS_MINUTES, // 11 Bundle Creation Time
    68 * FIRST + 6 * SIZE + C + ANS, // 12 User Field
    74 * FIRST + 7 * SIZE + M + AB, // 13 Reserved
    // Clause 10: Check Detail Record.
    header!(CheckDetail),
    1 * FIRST + 2 * SIZE + M + TYPE_NUMBER + N + NUMBERS + 25 * LOW + 25, // 1 Record Type
    3 * FIRST + 15 * SIZE + C + NBMCD, // 2 Auxiliary On-Us
    18 * FIRST + 1 * SIZE + C + NBMC, // 3 External Processing Code
    19 * FIRST + 9 * SIZE + M + NBMCD + ROUTING + TTTTAAAAC + TTTTT_FFF + TTTT_AAAA + B_TTTTAAAA, // 4 Payor Bank Routing Number
    28 * FIRST + 20 * SIZE + C + NBMCDO, // 5 On-Us
    48 * FIRST + 10 * SIZE + M + N, // 6 Item Amount
    58 * FIRST + 15 * SIZE + M + NB, // 7 ECE Institution Item Sequence Number
    73 * FIRST + 1 * SIZE + C + AN + ITEM_DOCUMENTATION, // 8 Documentation Type Indicator
    74 * FIRST + 1 * SIZE + C + AN + RETURN_ACCEPTANCE, // 9 Electronic Return Acceptance Indicator
    75 * FIRST + 1 * SIZE + C + NB + NUMBERS + 1 * LOW + 4, // 10 MICR Valid Indicator
    76 * FIRST + 1 * SIZE + C + A + YES_NO_UNKNOWN, // 11 BOFD Indicator
    77 * FIRST + 2 * SIZE + M + ADDENDUM_COUNT + N + NUMBERS + 0 * LOW + 99, // 12 Check Detail Record Addendum Count
    79 * FIRST + 1 * SIZE + C + AN + NUMBERS + 0 * LOW + 4, // 13 Correction Indicator
    80 * FIRST + 1 * SIZE + C + AN + ARCHIVE_TYPES, // 14 Archive Type Indicator
    // Clause 11: Check Detail Addendum A Record.
    header!(CheckDetailAddendumA),
    1 * FIRST + 2 * SIZE + M + TYPE_NUMBER + N + NUMBERS + 26 * LOW + 26, // 1 Record Type
    3 * FIRST + 1 * SIZE + M + RECORD_NUMBER + N, // 2 Check Detail Addendum A Record Number
    4 * FIRST + 9 * SIZE + C + NBD + ROUTING + TTTTAAAAC + TTTTT_FFF, // 3 Return Location Routing Number
    13 * FIRST + 8 * SIZE + C + NB + DATE, // 4 BOFD Business Endorsement Date
    21 * FIRST + 15 * SIZE + C + NB, // 5 BOFD Item Sequence Number
    36 * FIRST + 18 * SIZE + C + ANS, // 6 Deposit Account Number at BOFD
    54 * FIRST + 5 * SIZE + C + ANS, // 7 BOFD Deposit Branch
    59 * FIRST + 50 * SIZE + C + ANS, // 8 Payee Name
    109 * FIRST + 1 * SIZE + C + A + YES_NO, // 9 Truncation Indicator
    110 * FIRST + 1 * SIZE + C + AN + NUMBERS + 0 * LOW + 8, // 10 BOFD Conversion Indicator
    111 * FIRST + 1 * SIZE + C + AN + NUMBERS + 0 * LOW + 4, // 11 BOFD Correction Indicator
    112 * FIRST + 1 * SIZE + C + AN + NUMBERS + 0 * LOW + 3, // 12 BOFD Magnetic Read Indicator
    113 * FIRST + 1 * SIZE + C + ANS, // 13 User Field
    114 * FIRST + 2 * SIZE + M + AB, // 14 Reserved
    // Clause 12: Check Detail Addendum B Record.
    header!(CheckDetailAddendumB, 6),
    1 * FIRST + 2 * SIZE + M + TYPE_NUMBER + N + NUMBERS + 27 * LOW + 27, // 1 Record Type
    3 * FIRST + 20 * SIZE + C + ANS, // 2 Item Description
    23 * FIRST + 8 * SIZE + C + NB + DATE, // 3 Image Capture Date
    31 * FIRST + 6 * SIZE + C + NB + HOURS_MINUTES_SECONDS, // 4 Image Capture Time
    37 * FIRST + 15 * SIZE + C + NB, // 5 Microfilm Archive Sequence Number
    52 * FIRST + 4 * SIZE + M + PART_SIZE + N, // 6 Length of Image Archive Locator
    56 * FIRST + 2 * SIZE + M + PART_SIZE + N + NUMBERS + 0 * LOW + 99, // 7 Length of Captured Unparsed MICR Data
    58 * FIRST + 2 * SIZE + M + PART_SIZE + N + NUMBERS + 0 * LOW + 99, // 8 Length of Captured High Unparsed MICR Data
    60 * FIRST + 2 * SIZE + M + PART_SIZE + N + NUMBERS + 0 * LOW + 99, // 9 Length of Corrected Unparsed MICR Data
    62 * FIRST + 2 * SIZE + M + PART_SIZE + N + NUMBERS + 0 * LOW + 99, // 10 Length of Corrected High Unparsed MICR Data
    64 * FIRST + 5 * SIZE + M + PART_SIZE + N, // 11 Length of User Data
    69 * FIRST + 5 * SIZE + M + AB, // 12 Reserved
    52 * FIRST + 4 * SIZE + ANS, // 13 Image Archive Locator
    56 * FIRST + 2 * SIZE + NBMU, // 14 Captured Unparsed MICR Data
    58 * FIRST + 2 * SIZE + NBMU, // 15 Captured High Unparsed MICR Data
    60 * FIRST + 2 * SIZE + NBMU, // 16 Corrected Unparsed MICR Data
    62 * FIRST + 2 * SIZE + NBMU, // 17 Corrected High Unparsed MICR Data
    64 * FIRST + 5 * SIZE + ANS, // 18 User Field
    // Clause 13: Check Detail Addendum C Record.
    header!(CheckDetailAddendumC),
    1 * FIRST + 2 * SIZE + M + TYPE_NUMBER + N + NUMBERS + 28 * LOW + 28, // 1 Record Type
    3 * FIRST + 2 * SIZE + M + RECORD_NUMBER + N, // 2 Check Detail Addendum C Record Number
    5 * FIRST + 9 * SIZE + C + NBD + ROUTING + TTTTAAAAC + TTTTT_FFF, // 3 Endorsing Bank Routing Number
    14 * FIRST + 8 * SIZE + C + NB + DATE, // 4 Endorsing Bank Endorsement Date
    22 * FIRST + 15 * SIZE + C + NB, // 5 Endorsing Bank Item Sequence Number
    37 * FIRST + 1 * SIZE + C + A + YES_NO, // 6 Truncation Indicator
    38 * FIRST + 1 * SIZE + C + AN + NUMBERS + 0 * LOW + 8, // 7 Endorsing Bank Conversion Indicator
    39 * FIRST + 1 * SIZE + C + AN + NUMBERS + 0 * LOW + 4, // 8 Endorsing Bank Correction Indicator
    40 * FIRST + 2 * SIZE + C + AN, // 9 Return Reason
    42 * FIRST + 1 * SIZE + C + AN + NUMBERS + 0 * LOW + 3, // 10 Endorsing Bank Magnetic Read Indicator
    43 * FIRST + 1 * SIZE + C + AN + NUMBERS + 0 * LOW + 3, // 11 Endorsing Bank Identifier
    44 * FIRST + 18 * SIZE + C + ANS, // 12 Deposit Account Number at BOFD
    62 * FIRST + 15 * SIZE + C + ANS, // 13 User Field
    77 * FIRST + 4 * SIZE + M + AB, // 14 Reserved
    // Clause 14: Return Record.
    header!(ReturnRecord),
    1 * FIRST + 2 * SIZE + M + TYPE_NUMBER + N + NUMBERS + 31 * LOW + 31, // 1 Record Type
    3 * FIRST + 15 * SIZE + C + NBMCD, // 2 Auxiliary On-Us
    18 * FIRST + 1 * SIZE + C + NBMC, // 3 External Processing Code
    19 * FIRST + 9 * SIZE + M + NBMCD + ROUTING + TTTTAAAAC + TTTTT_FFF + TTTT_AAAA + B_TTTTAAAA, // 4 Payor Bank Routing Number
    28 * FIRST + 20 * SIZE + C + NBMCDO, // 5 On-Us
    48 * FIRST + 10 * SIZE + M + N, // 6 Item Amount
    58 * FIRST + 15 * SIZE + M + NB, // 7 ECE Institution Item Sequence Number
    73 * FIRST + 2 * SIZE + M + ADDENDUM_COUNT + N + NUMBERS + 0 * LOW + 99, // 8 Return Record Addendum Count
    75 * FIRST + 6 * SIZE + M + AB, // 9 Reserved
    // Clause 15: Return Addendum A Record.
    header!(ReturnAddendumA),
    1 * FIRST + 2 * SIZE + M + TYPE_NUMBER + N + NUMBERS + 32 * LOW + 32, // 1 Record Type
    3 * FIRST + 1 * SIZE + M + RECORD_NUMBER + N, // 2 Return Addendum A Record Number
    4 * FIRST + 9 * SIZE + C + NBD + ROUTING + TTTTAAAAC + TTTTT_FFF, // 3 Return Location Routing Number
    13 * FIRST + 8 * SIZE + C + NBQ + DATE, // 4 BOFD Business Endorsement Date
    21 * FIRST + 15 * SIZE + C + NBQ, // 5 BOFD Item Sequence Number
    36 * FIRST + 18 * SIZE + C + ANS, // 6 Deposit Account Number at BOFD
    54 * FIRST + 5 * SIZE + C + ANS, // 7 BOFD Deposit Branch
    59 * FIRST + 50 * SIZE + C + ANS, // 8 Payee Name
    109 * FIRST + 1 * SIZE + C + A + YES_NO, // 9 Truncation Indicator
    110 * FIRST + 1 * SIZE + C + AN + NUMBERS + 0 * LOW + 8, // 10 BOFD Conversion Indicator
    111 * FIRST + 1 * SIZE + C + AN + NUMBERS + 0 * LOW + 4, // 11 BOFD Correction Indicator
    112 * FIRST + 1 * SIZE + C + AN + NUMBERS + 0 * LOW + 3, // 12 BOFD Magnetic Read Indicator
    113 * FIRST + 1 * SIZE + C + ANS, // 13 User Field
    114 * FIRST + 2 * SIZE + M + AB, // 14 Reserved
    // Clause 16: Return Addendum B Record.
    header!(ReturnAddendumB),
    1 * FIRST + 2 * SIZE + M + TYPE_NUMBER + N + NUMBERS + 33 * LOW + 33, // 1 Record Type
    3 * FIRST + 2 * SIZE + M + AN, // 2 Return Reason
    5 * FIRST + 8 * SIZE + C + NB + DATE, // 3 Forward Bundle Date
    13 * FIRST + 2 * SIZE + C + AN, // 4 Additional Return Reason
    15 * FIRST + 1 * SIZE + C + NB + NUMBERS + 0 * LOW + 3, // 5 Number of Times Returned
    16 * FIRST + 1 * SIZE + C + AN + ITEM_DOCUMENTATION, // 6 Return Documentation Type Indicator
    17 * FIRST + 1 * SIZE + C + AN + ARCHIVE_TYPES, // 7 Archive Type Indicator
    18 * FIRST + 18 * SIZE + C + ANS, // 8 Payor Bank Name
    36 * FIRST + 15 * SIZE + C + NB, // 9 Payor Bank Item Sequence Number
    51 * FIRST + 8 * SIZE + C + NB + DATE, // 10 Payor Bank Business Date
    59 * FIRST + 22 * SIZE + C + ANS, // 11 Payor Account Name
    // Clause 17: Return Addendum C Record.
    header!(ReturnAddendumC, 6),
    1 * FIRST + 2 * SIZE + M + TYPE_NUMBER + N + NUMBERS + 34 * LOW + 34, // 1 Record Type
    3 * FIRST + 20 * SIZE + C + ANS, // 2 Item Description
    23 * FIRST + 8 * SIZE + C + NB + DATE, // 3 Image Capture Date
    31 * FIRST + 6 * SIZE + C + NB + HOURS_MINUTES_SECONDS, // 4 Image Capture Time
    37 * FIRST + 15 * SIZE + C + NB, // 5 Microfilm Archive Sequence Number
    52 * FIRST + 4 * SIZE + M + PART_SIZE + N, // 6 Length of Image Archive Locator
    56 * FIRST + 2 * SIZE + M + PART_SIZE + N + NUMBERS + 0 * LOW + 99, // 7 Length of Captured Unparsed MICR Data
    58 * FIRST + 2 * SIZE + M + PART_SIZE + N + NUMBERS + 0 * LOW + 99, // 8 Length of Captured High Unparsed MICR Data
    60 * FIRST + 2 * SIZE + M + PART_SIZE + N + NUMBERS + 0 * LOW + 99, // 9 Length of Corrected Unparsed MICR Data
    62 * FIRST + 2 * SIZE + M + PART_SIZE + N + NUMBERS + 0 * LOW + 99, // 10 Length of Corrected High Unparsed MICR Data
    64 * FIRST + 5 * SIZE + M + PART_SIZE + N, // 11 Length of User Data
    69 * FIRST + 5 * SIZE + M + AB, // 12 Reserved
    52 * FIRST + 4 * SIZE + ANS, // 13 Image Archive Locator
    56 * FIRST + 2 * SIZE + NBMU, // 14 Captured Unparsed MICR Data
    58 * FIRST + 2 * SIZE + NBMU, // 15 Captured High Unparsed MICR Data
    60 * FIRST + 2 * SIZE + NBMU, // 16 Corrected Unparsed MICR Data
    62 * FIRST + 2 * SIZE + NBMU, // 17 Corrected High Unparsed MICR Data
    64 * FIRST + 5 * SIZE + ANS, // 18 User Field
    // Clause 18: Return Addendum D Record.
    header!(ReturnAddendumD),
    1 * FIRST + 2 * SIZE + M + TYPE_NUMBER + N + NUMBERS + 35 * LOW + 35, // 1 Record Type
    3 * FIRST + 2 * SIZE + M + RECORD_NUMBER + N, // 2 Return Addendum D Record Number
    5 * FIRST + 9 * SIZE + C + NBD + ROUTING + TTTTAAAAC + TTTTT_FFF, // 3 Endorsing Bank Routing Number
    14 * FIRST + 8 * SIZE + C + NB + DATE, // 4 Endorsing Bank Endorsement Date
    22 * FIRST + 15 * SIZE + C + NB, // 5 Endorsing Bank Item Sequence Number
    37 * FIRST + 1 * SIZE + C + A + YES_NO, // 6 Truncation Indicator
    38 * FIRST + 1 * SIZE + C + AN + NUMBERS + 0 * LOW + 8, // 7 Endorsing Bank Conversion Indicator
    39 * FIRST + 1 * SIZE + C + AN + NUMBERS + 0 * LOW + 4, // 8 Endorsing Bank Correction Indicator
    40 * FIRST + 2 * SIZE + C + AN, // 9 Return Reason
    42 * FIRST + 1 * SIZE + C + AN + NUMBERS + 0 * LOW + 3, // 10 Endorsing Bank Magnetic Read Indicator
    43 * FIRST + 1 * SIZE + C + AN + NUMBERS + 0 * LOW + 3, // 11 Endorsing Bank Identifier
    44 * FIRST + 18 * SIZE + C + ANS, // 12 Deposit Account Number at BOFD
    62 * FIRST + 15 * SIZE + C + ANS, // 13 User Field
    77 * FIRST + 4 * SIZE + M + AB, // 14 Reserved
    // Clause 21: Image View Detail Record.
    header!(ImageViewDetail),
    1 * FIRST + 2 * SIZE + M + TYPE_NUMBER + N + NUMBERS + 50 * LOW + 50, // 1 Record Type
    3 * FIRST + 1 * SIZE + M + AN + NUMBERS + 0 * LOW + 3, // 2 Image Indicator
    4 * FIRST + 9 * SIZE + M + NBD + ROUTING + TTTTAAAAC + TTTTT_FFF + NNNNNNNNN, // 3 Image Creator Routing Number
    13 * FIRST + 8 * SIZE + M + N + DATE, // 4 Image Creator Date
    21 * FIRST + 2 * SIZE + M + AN + NUMBERS + 0 * LOW + 99, // 5 Image View Format Indicator
    23 * FIRST + 2 * SIZE + M + AN + NUMBERS + 0 * LOW + 99, // 6 Image View Compression Algorithm Identifier
    25 * FIRST + 1 * SIZE + M + AN + NUMBERS + 0 * LOW + 4, // 7 Image View Type
    26 * FIRST + 1 * SIZE + M + AN + NUMBERS + 0 * LOW + 1, // 8 View Side Indicator
    27 * FIRST + 2 * SIZE + M + AN + NUMBERS + 0 * LOW + 99, // 9 View Descriptor
    29 * FIRST + 1 * SIZE + M + AN + NUMBERS + 0 * LOW + 1, // 10 Digital Signature Indicator
    30 * FIRST + 2 * SIZE + C + AN + ONE_OR_TWO_DIGITS, // 11 Digital Signature Hash Function Method
    32 * FIRST + 2 * SIZE + C + AN + ONE_OR_TWO_DIGITS, // 12 Digital Signature Cryptographic Algorithm Method
    34 * FIRST + 10 * SIZE + C + ANS, // 13 DSA/RSA Key Size or ECC Curve Number
    44 * FIRST + 1 * SIZE + M + AN + NUMBERS + 0 * LOW + 1, // 14 Digital Certificate Indicator
    45 * FIRST + 2 * SIZE + C + AN + NUMBERS + 0 * LOW + 99, // 15 Digital Certificate Format
    47 * FIRST + 2 * SIZE + C + AN + NUMBERS + 0 * LOW + 99, // 16 Digital Certificate Conveyance Method
    49 * FIRST + 7 * SIZE + M + N, // 17 Start of Protected Data
    56 * FIRST + 7 * SIZE + M + N, // 18 Length of Protected Data
    63 * FIRST + 1 * SIZE + C + AN + NUMBERS + 0 * LOW + 1, // 19 Image Recreate Indicator
    64 * FIRST + 1 * SIZE + C + AN + TEST_OVERRIDES, // 20 Image Test Override Indicator
    65 * FIRST + 6 * SIZE + C + NB + HOURS_MINUTES_SECONDS, // 21 Image Capture Time
    71 * FIRST + 6 * SIZE + C + ANS, // 22 User Field
    77 * FIRST + 4 * SIZE + M + AB, // 23 Reserved
    // Clause 22: Image View Data Record.
    header!(ImageViewData, 7),
    1 * FIRST + 2 * SIZE + M + TYPE_NUMBER + N + NUMBERS + 52 * LOW + 52, // 1 Record Type
    3 * FIRST + 9 * SIZE + M + NBD + ROUTING + TTTTAAAAC + TTTTT_FFF + NNNNNNNNN, // 2 ECE Institution Routing Number
    12 * FIRST + 8 * SIZE + M + N + DATE, // 3 Bundle Business Date
    20 * FIRST + 2 * SIZE + C + AN, // 4 Cycle Number
    22 * FIRST + 15 * SIZE + M + NB, // 5 ECE Institution Item Sequence Number
    37 * FIRST + 16 * SIZE + C + ANS, // 6 Security Originator Name
    53 * FIRST + 16 * SIZE + C + ANS, // 7 Security Authenticator Name
    69 * FIRST + 16 * SIZE + C + ANS, // 8 Security Key Name
    85 * FIRST + 1 * SIZE + M + AN + NUMBERS + 0 * LOW + 4, // 9 Clipping Origin
    86 * FIRST + 4 * SIZE + M + N + CLIPPED_BY + 85, // 10 Clipping Coordinate h1
    90 * FIRST + 4 * SIZE + M + N + CLIPPED_BY + 85, // 11 Clipping Coordinate h2
    94 * FIRST + 4 * SIZE + M + N + CLIPPED_BY + 85, // 12 Clipping Coordinate v1
    98 * FIRST + 4 * SIZE + M + N + CLIPPED_BY + 85, // 13 Clipping Coordinate v2
    102 * FIRST + 2 * SIZE + M + N + NUMBERS + 0 * LOW + 99, // 14 Ancillary Data Indicator
    104 * FIRST + 4 * SIZE + M + PART_SIZE + N, // 15 Length of Image Reference Key
    108 * FIRST + 5 * SIZE + M + PART_SIZE + N, // 16 Length of Digital Signature
    113 * FIRST + 5 * SIZE + M + PART_SIZE + N, // 17 Length of Digital Certificate Issuer Distinguished Name
    118 * FIRST + 5 * SIZE + M + PART_SIZE + N, // 18 Length of Digital Certificate Serial Number
    123 * FIRST + 5 * SIZE + M + PART_SIZE + N, // 19 Length of Digital Certificate
    128 * FIRST + 7 * SIZE + M + PART_SIZE + N, // 20 Length of Image Data
    135 * FIRST + 5 * SIZE + M + PART_SIZE + N, // 21 Length of Ancillary Data
    ImageViewData::PARTS[0], // 22 Image Reference Key
    ImageViewData::PARTS[1], // 23 Digital Signature
    ImageViewData::PARTS[2], // 24 Digital Certificate Issuer Distinguished Name
    ImageViewData::PARTS[3], // 25 Digital Certificate Serial Number
    ImageViewData::PARTS[4], // 26 Digital Certificate
    ImageViewData::PARTS[5], // 27 Image Data
    ImageViewData::PARTS[6], // 28 Ancillary Data
    // Clause 23: Image View Analysis Record.
    header!(ImageViewAnalysis),
    1 * FIRST + 2 * SIZE + M + TYPE_NUMBER + N + NUMBERS + 54 * LOW + 54, // 1 Record Type
    3 * FIRST + 1 * SIZE + M + AN + NUMBERS + 0 * LOW + 2, // 2 Global Image Defect
    4 * FIRST + 1 * SIZE + M + AN + NUMBERS + 0 * LOW + 2, // 3 Global Image Usability
    5 * FIRST + 1 * SIZE + M + AN + NUMBERS + 0 * LOW + 2, // 4 Imaging Bank Specific Test
    6 * FIRST + 1 * SIZE + C + AN + NUMBERS + 0 * LOW + 2, // 5 Partial Image
    7 * FIRST + 1 * SIZE + C + AN + NUMBERS + 0 * LOW + 2, // 6 Excessive Image Skew
    8 * FIRST + 1 * SIZE + C + AN + NUMBERS + 0 * LOW + 2, // 7 Piggyback Image
    9 * FIRST + 1 * SIZE + C + AN + NUMBERS + 0 * LOW + 2, // 8 Too Light
    10 * FIRST + 1 * SIZE + C + AN + NUMBERS + 0 * LOW + 2, // 9 Too Dark
    11 * FIRST + 1 * SIZE + C + AN + NUMBERS + 0 * LOW + 2, // 10 Streaks and or Bands
    12 * FIRST + 1 * SIZE + C + AN + NUMBERS + 0 * LOW + 2, // 11 Below Minimum Image Size
    13 * FIRST + 1 * SIZE + C + AN + NUMBERS + 0 * LOW + 2, // 12 Exceeds Maximum Image Size
    14 * FIRST + 1 * SIZE + M + AB, // 13 Reserved
    15 * FIRST + 1 * SIZE + M + AB, // 14 Reserved
    16 * FIRST + 1 * SIZE + M + AB, // 15 Reserved
    17 * FIRST + 1 * SIZE + M + AB, // 16 Reserved
    18 * FIRST + 1 * SIZE + M + AB, // 17 Reserved
    19 * FIRST + 1 * SIZE + M + AB, // 18 Reserved
    20 * FIRST + 1 * SIZE + M + AB, // 19 Reserved
    21 * FIRST + 1 * SIZE + M + AB, // 20 Reserved
    22 * FIRST + 1 * SIZE + M + AB, // 21 Reserved
    23 * FIRST + 1 * SIZE + M + AB, // 22 Reserved
    24 * FIRST + 1 * SIZE + M + AB, // 23 Reserved
    25 * FIRST + 1 * SIZE + M + AB, // 24 Reserved
    26 * FIRST + 1 * SIZE + M + AB, // 25 Reserved
    27 * FIRST + 1 * SIZE + C + AN + NUMBERS + 0 * LOW + 2, // 26 Image-Enabled POD
    28 * FIRST + 1 * SIZE + C + AN + NUMBERS + 0 * LOW + 2, // 27 Source Document Bad
    29 * FIRST + 1 * SIZE + C + AN + NUMBERS + 0 * LOW + 2, // 28 Date (Issue) Usability
    30 * FIRST + 1 * SIZE + C + AN + NUMBERS + 0 * LOW + 2, // 29 Payee Usability
    31 * FIRST + 1 * SIZE + C + AN + NUMBERS + 0 * LOW + 2, // 30 Convenience Amount Usability
    32 * FIRST + 1 * SIZE + C + AN + NUMBERS + 0 * LOW + 2, // 31 Amount in Words (Legal Amount) Usability
    33 * FIRST + 1 * SIZE + C + AN + NUMBERS + 0 * LOW + 2, // 32 Signature (Payor) Usability
    34 * FIRST + 1 * SIZE + C + AN + NUMBERS + 0 * LOW + 2, // 33 Payor Name and Address Usability
    35 * FIRST + 1 * SIZE + C + AN + NUMBERS + 0 * LOW + 2, // 34 MICR Line Usability
    36 * FIRST + 1 * SIZE + C + AN + NUMBERS + 0 * LOW + 2, // 35 Memo Line Usability
    37 * FIRST + 1 * SIZE + C + AN + NUMBERS + 0 * LOW + 2, // 36 Payor Bank Name and Address Usability
    38 * FIRST + 1 * SIZE + C + AN + NUMBERS + 0 * LOW + 2, // 37 Payee Endorsement Usability
    39 * FIRST + 1 * SIZE + C + AN + NUMBERS + 0 * LOW + 2, // 38 Bank of First Deposit Endorsement Usability
    40 * FIRST + 1 * SIZE + C + AN + NUMBERS + 0 * LOW + 2, // 39 Transit Endorsement Usability
    41 * FIRST + 1 * SIZE + M + AB, // 40 Reserved
    42 * FIRST + 1 * SIZE + M + AB, // 41 Reserved
    43 * FIRST + 1 * SIZE + M + AB, // 42 Reserved
    44 * FIRST + 1 * SIZE + M + AB, // 43 Reserved
    45 * FIRST + 1 * SIZE + M + AB, // 44 Reserved
    46 * FIRST + 1 * SIZE + M + AB, // 45 Reserved
    47 * FIRST + 20 * SIZE + C + ANS, // 46 User Field
    67 * FIRST + 14 * SIZE + M + AB, // 47 Reserved
    // Clause 26: Credit/Reconciliation Record.
    header!(CreditRecord),
    1 * FIRST + 2 * SIZE + M + TYPE_NUMBER + N + NUMBERS + 61 * LOW + 61, // 1 Record Type
    3 * FIRST + 1 * SIZE + C + AN + NUMBERS + 1 * LOW + 9, // 2 Record Usage Indicator
    4 * FIRST + 15 * SIZE + C + NBMCD, // 3 Auxiliary On-Us
    19 * FIRST + 1 * SIZE + C + NBMC, // 4 External Processing Code
    20 * FIRST + 9 * SIZE + M + NBMCD + ROUTING + TTTTAAAAC + TTTTT_FFF, // 5 Posting Bank Routing Number
    29 * FIRST + 20 * SIZE + C + NBMCDO, // 6 Posting Account Number (On-Us)
    49 * FIRST + 14 * SIZE + M + N, // 7 Item Amount
    63 * FIRST + 15 * SIZE + M + NB, // 8 Item Sequence Number
    78 * FIRST + 1 * SIZE + C + AN + ITEM_DOCUMENTATION, // 9 Documentation Type Indicator
    79 * FIRST + 1 * SIZE + C + AN + ACCOUNT_TYPES, // 10 Type of Account Code
    80 * FIRST + 2 * SIZE + C + AN + SOURCE_OF_WORK, // 11 Source of Work Code
    82 * FIRST + 3 * SIZE + M + AB, // 12 Reserved
    // Clause 31: Bundle Control Record.
    header!(BundleControl),
    1 * FIRST + 2 * SIZE + M + TYPE_NUMBER + N + NUMBERS + 70 * LOW + 70, // 1 Record Type
    3 * FIRST + 4 * SIZE + M + DEBIT_COUNT + N, // 2 Bundle Debit Item Count
    7 * FIRST + 12 * SIZE + M + DEBIT_CENTS + N, // 3 Bundle Debit Total Amount
    19 * FIRST + 12 * SIZE + C + MICR_CENTS + NB + ALL_DIGITS, // 4 MICR Valid Debit Total Amount
    31 * FIRST + 5 * SIZE + M + VIEW_COUNT + N, // 5 Bundle Image View Record Count
    36 * FIRST + 4 * SIZE + M + CREDIT_COUNT + N, // 6 Bundle Credit Item Count
    40 * FIRST + 12 * SIZE + M + CREDIT_CENTS + N, // 7 Bundle Credit Total Amount
    52 * FIRST + 9 * SIZE + C + ANS, // 8 User Field
    61 * FIRST + 20 * SIZE + M + AB, // 9 Reserved
    // Clause 34: Cash Letter Control Record.
    header!(CashLetterControl),
    1 * FIRST + 2 * SIZE + M + TYPE_NUMBER + N + NUMBERS + 90 * LOW + 90, // 1 Record Type
    3 * FIRST + 6 * SIZE + M + BUNDLE_COUNT + N, // 2 Bundle Count
    9 * FIRST + 8 * SIZE + M + DEBIT_COUNT + N, // 3 Cash Letter Debit Item Count
    17 * FIRST + 14 * SIZE + M + DEBIT_CENTS + N, // 4 Cash Letter Debit Total Amount
    31 * FIRST + 9 * SIZE + M + VIEW_COUNT + N, // 5 Cash Letter Image View Record Count
    40 * FIRST + 16 * SIZE + C + ANS, // 6 ECE Institution Name
    56 * FIRST + 8 * SIZE + C + NB + DATE, // 7 Settlement Date
    64 * FIRST + 8 * SIZE + M + CREDIT_COUNT + N, // 8 Cash Letter Credit Item Count
    72 * FIRST + 14 * SIZE + M + CREDIT_CENTS + N, // 9 Cash Letter Credit Total Amount
    // Clause 35: File Control Record.
    header!(FileControl),
    1 * FIRST + 2 * SIZE + M + TYPE_NUMBER + N + NUMBERS + 99 * LOW + 99, // 1 Record Type
    3 * FIRST + 6 * SIZE + M + LETTER_COUNT + N, // 2 Cash Letter Count
    9 * FIRST + 8 * SIZE + M + RECORD_COUNT + N, // 3 Total Record Count
    17 * FIRST + 8 * SIZE + M + ITEM_COUNT + N, // 4 Total Item Count
    25 * FIRST + 16 * SIZE + M + DEBIT_CENTS + N, // 5 File Debit Total Amount
    41 * FIRST + 14 * SIZE + C + ANS, // 6 Immediate Origin Contact Name
    55 * FIRST + 10 * SIZE + C + NB, // 7 Immediate Origin Contact Phone Number
    65 * FIRST + 16 * SIZE + M + CREDIT_CENTS + N, // 8 File Credit Total Amount
];

// The layouts as one table, to be lent to whoever judges records: a constant array is laid out anew wherever it is named.
pub fn table() -> [u64; COUNT]
    ensures { Packed result }
{
    LAYOUTS
}

// The numbers from those of a kind on, or none where the kind is not carried.
pub fn own_numbers(numbers: &[u64], kind: u64) -> &[u64]
    ensures { result.now ≡ own_in kind (length numbers.now) numbers.now }
{
    // Stays: no index loop. Each step is as long as the kind's number says.
    let mut at = 0;
    while at < numbers.len() {
        let header = numbers[at];
        if kind == type_in(header) {
            return &numbers[at..];
        }
        let fields = fields_in(header);
        if numbers.len() - at <= fields {
            return &numbers[0..0];
        }
        at += fields + 1;
    }
    &numbers[0..0]
}

// Numbers that stand for the layouts, as they are lent.
#[derive(Clone, Copy)]
pub struct Layouts<'a> {
    pub numbers: &'a [u64],
    pub ghost packed: { Packed numbers.now },
}

impl<'a> Layouts<'a> {
    // The numbers from those of a kind on, or none where the kind is not carried.
    pub fn own_numbers(self, kind: u64) -> &'a [u64]
        ensures { result.now ≡ own_in kind (length self.entry.numbers.now) self.entry.numbers.now }
    {
        own_numbers(self.numbers, kind)
    }
}

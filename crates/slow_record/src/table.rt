// The fields of every kind of record, for the slow reader, as clauses 7 to 35 print them. A line is one number. Its highest eleven digits, in
// front of AT, are the record's type, the field's number, its first position and its size; then come its usage, its data type and its
// Format or Defined Values. Field 0 is the record itself, with the length of its fixed part. A field behind the fixed part has the
// position and the size of the field that states its size.
// Stays: a line is one number. A table of structs with the same columns was tried with kit 13f: 15 lines took 9 s of processor time to check and
// 60 lines 25 s, and all 322 were not tried (docs/DECISIONS.md, 12).
ghost use Rattle.slow_record.specs.Rows.{Meant};

const AT: u64 = 1_000_000_000;

// 6.3: mandatory or conditional; a field behind the fixed part; the record itself
const M: u64 = 0;

const C: u64 = 1 * 100_000_000;

const PART: u64 = 2 * 100_000_000;

const RECORD: u64 = 3 * 100_000_000;

// 5.3: the data types
const AB: u64 = 1 * 1_000_000;

const A: u64 = 2 * 1_000_000;

const AN: u64 = 3 * 1_000_000;

const ANS: u64 = 4 * 1_000_000;

const BINARY: u64 = 5 * 1_000_000;

const N: u64 = 6 * 1_000_000;

const NB: u64 = 7 * 1_000_000;

const NBD: u64 = 8 * 1_000_000;

const NBQ: u64 = 9 * 1_000_000;

const NBMC: u64 = 10 * 1_000_000;

const NBMCD: u64 = 11 * 1_000_000;

const NBMCDO: u64 = 12 * 1_000_000;

const NBMU: u64 = 13 * 1_000_000;

// 6.7 and 6.8: numbers from LOW on through another
const NUMBERS: u64 = 1 * 10_000;

const LOW: u64 = 100;

const ALL_DIGITS: u64 = 2 * 10_000;

const ONE_OR_TWO_DIGITS: u64 = 3 * 10_000;

const STANDARD_LEVEL: u64 = 4 * 10_000;

const COLLECTION_TYPE: u64 = 5 * 10_000;

const BUNDLE_COLLECTION_TYPE: u64 = 6 * 10_000;

const DATE: u64 = 8 * 10_000;

const HOURS_MINUTES: u64 = 9 * 10_000;

const HOURS_MINUTES_SECONDS: u64 = 10 * 10_000;

// a routing number of one of these forms
const ROUTING: u64 = 11 * 10_000;

const TTTTAAAAC: u64 = 1;

const TTTTT_FFF: u64 = 2;

const TTTT_AAAA: u64 = 4;

const B_TTTTAAAA: u64 = 8;

const NNNNNNNNN: u64 = 16;

// a coordinate, under the clipping origin at a position
const CLIPPED_BY: u64 = 12 * 10_000;

const SOURCE_OF_WORK: u64 = 7 * 10_000;

// one character of a list
const CODE: u64 = 13 * 10_000;

const FILE_TYPES: u64 = CODE + 1;

const YES_NO: u64 = CODE + 2;

const YES_NO_UNKNOWN: u64 = CODE + 3;

const RECORD_TYPE_INDICATORS: u64 = CODE + 4;

const CASH_LETTER_DOCUMENTATION: u64 = CODE + 5;

const ITEM_DOCUMENTATION: u64 = CODE + 6;

const RETURN_ACCEPTANCE: u64 = CODE + 7;

const ARCHIVE_TYPES: u64 = CODE + 8;

const TEST_OVERRIDES: u64 = CODE + 9;

const ACCOUNT_TYPES: u64 = CODE + 10;

const FIELDS: [u64; 322] = [
    // Clause 7
    01_00_001_080 * AT + RECORD, // File Header Record
    01_01_001_002 * AT + M + N + NUMBERS + 1 * LOW + 1, // Record Type
    01_02_003_002 * AT + M + N + STANDARD_LEVEL, // Standard Level
    01_03_005_001 * AT + M + AN + FILE_TYPES, // File Type Indicator
    01_04_006_009 * AT + M + NBD + ROUTING + TTTTAAAAC + TTTTT_FFF + NNNNNNNNN, // Immediate Destination Routing Number
    01_05_015_009 * AT + M + NBD + ROUTING + TTTTAAAAC + TTTTT_FFF + NNNNNNNNN, // Immediate Origin Routing Number
    01_06_024_008 * AT + M + N + DATE, // File Creation Date
    01_07_032_004 * AT + M + N + HOURS_MINUTES, // File Creation Time
    01_08_036_001 * AT + M + A + YES_NO, // Resend Indicator
    01_09_037_018 * AT + C + ANS, // Immediate Destination Name
    01_10_055_018 * AT + C + ANS, // Immediate Origin Name
    01_11_073_001 * AT + C + AN, // File ID Modifier
    01_12_074_002 * AT + C + AN, // Country Code
    01_13_076_004 * AT + C + ANS, // User Field
    01_14_080_001 * AT + M + AB, // Reserved
    // Clause 8
    10_00_001_080 * AT + RECORD, // Cash Letter Header Record
    10_01_001_002 * AT + M + N + NUMBERS + 10 * LOW + 10, // Record Type
    10_02_003_002 * AT + M + N + COLLECTION_TYPE, // Collection Type Indicator
    10_03_005_009 * AT + M + NBD + ROUTING + TTTTAAAAC + TTTTT_FFF + NNNNNNNNN, // Destination Routing Number
    10_04_014_009 * AT + M + NBD + ROUTING + TTTTAAAAC + TTTTT_FFF + NNNNNNNNN, // ECE Institution Routing Number
    10_05_023_008 * AT + M + N + DATE, // Cash Letter Business Date
    10_06_031_008 * AT + M + N + DATE, // Cash Letter Creation Date
    10_07_039_004 * AT + M + N + HOURS_MINUTES, // Cash Letter Creation Time
    10_08_043_001 * AT + M + AN + RECORD_TYPE_INDICATORS, // Cash Letter Record Type Indicator
    10_09_044_001 * AT + C + AN + CASH_LETTER_DOCUMENTATION, // Cash Letter Documentation Type Indicator
    10_10_045_008 * AT + C + AN, // Cash Letter ID
    10_11_053_014 * AT + C + ANS, // Originator Contact Name
    10_12_067_010 * AT + C + NB, // Originator Contact Phone Number
    10_13_077_002 * AT + C + AN + NUMBERS + 1 * LOW + 99, // Work Type
    10_14_079_002 * AT + C + ANS, // User Field
    // Clause 9
    20_00_001_080 * AT + RECORD, // Bundle Header Record
    20_01_001_002 * AT + M + N + NUMBERS + 20 * LOW + 20, // Record Type
    20_02_003_002 * AT + M + N + BUNDLE_COLLECTION_TYPE, // Collection Type Indicator
    20_03_005_009 * AT + M + NBD + ROUTING + TTTTAAAAC + TTTTT_FFF + NNNNNNNNN, // Bundle Destination Routing Number
    20_04_014_009 * AT + M + NBD + ROUTING + TTTTAAAAC + TTTTT_FFF + NNNNNNNNN, // Bundle ECE Institution Routing Number
    20_05_023_008 * AT + M + N + DATE, // Bundle Business Date
    20_06_031_008 * AT + C + NB + DATE, // Bundle Creation Date
    20_07_039_010 * AT + C + AN, // Bundle ID
    20_08_049_004 * AT + C + NB, // Bundle Sequence Number
    20_09_053_002 * AT + C + AN, // Cycle Number
    20_10_055_009 * AT + C + NBD + ROUTING + TTTTAAAAC + TTTTT_FFF, // Return Location Routing Number
    20_11_064_004 * AT + C + NB + HOURS_MINUTES, // Bundle Creation Time
    20_12_068_006 * AT + C + ANS, // User Field
    20_13_074_007 * AT + M + AB, // Reserved
    // Clause 10
    25_00_001_080 * AT + RECORD, // Check Detail Record
    25_01_001_002 * AT + M + N + NUMBERS + 25 * LOW + 25, // Record Type
    25_02_003_015 * AT + C + NBMCD, // Auxiliary On-Us
    25_03_018_001 * AT + C + NBMC, // External Processing Code
    25_04_019_009 * AT + M + NBMCD + ROUTING + TTTTAAAAC + TTTTT_FFF + TTTT_AAAA + B_TTTTAAAA, // Payor Bank Routing Number
    25_05_028_020 * AT + C + NBMCDO, // On-Us
    25_06_048_010 * AT + M + N, // Item Amount
    25_07_058_015 * AT + M + NB, // ECE Institution Item Sequence Number
    25_08_073_001 * AT + C + AN + ITEM_DOCUMENTATION, // Documentation Type Indicator
    25_09_074_001 * AT + C + AN + RETURN_ACCEPTANCE, // Electronic Return Acceptance Indicator
    25_10_075_001 * AT + C + NB + NUMBERS + 1 * LOW + 4, // MICR Valid Indicator
    25_11_076_001 * AT + C + A + YES_NO_UNKNOWN, // BOFD Indicator
    25_12_077_002 * AT + M + N + NUMBERS + 0 * LOW + 99, // Check Detail Record Addendum Count
    25_13_079_001 * AT + C + AN + NUMBERS + 0 * LOW + 4, // Correction Indicator
    25_14_080_001 * AT + C + AN + ARCHIVE_TYPES, // Archive Type Indicator
    // Clause 11
    26_00_001_115 * AT + RECORD, // Check Detail Addendum A Record
    26_01_001_002 * AT + M + N + NUMBERS + 26 * LOW + 26, // Record Type
    26_02_003_001 * AT + M + N, // Check Detail Addendum A Record Number
    26_03_004_009 * AT + C + NBD + ROUTING + TTTTAAAAC + TTTTT_FFF, // Return Location Routing Number
    26_04_013_008 * AT + C + NB + DATE, // BOFD Business Endorsement Date
    26_05_021_015 * AT + C + NB, // BOFD Item Sequence Number
    26_06_036_018 * AT + C + ANS, // Deposit Account Number at BOFD
    26_07_054_005 * AT + C + ANS, // BOFD Deposit Branch
    26_08_059_050 * AT + C + ANS, // Payee Name
    26_09_109_001 * AT + C + A + YES_NO, // Truncation Indicator
    26_10_110_001 * AT + C + AN + NUMBERS + 0 * LOW + 8, // BOFD Conversion Indicator
    26_11_111_001 * AT + C + AN + NUMBERS + 0 * LOW + 4, // BOFD Correction Indicator
    26_12_112_001 * AT + C + AN + NUMBERS + 0 * LOW + 3, // BOFD Magnetic Read Indicator
    26_13_113_001 * AT + C + ANS, // User Field
    26_14_114_002 * AT + M + AB, // Reserved
    // Clause 12
    27_00_001_073 * AT + RECORD, // Check Detail Addendum B Record
    27_01_001_002 * AT + M + N + NUMBERS + 27 * LOW + 27, // Record Type
    27_02_003_020 * AT + C + ANS, // Item Description
    27_03_023_008 * AT + C + NB + DATE, // Image Capture Date
    27_04_031_006 * AT + C + NB + HOURS_MINUTES_SECONDS, // Image Capture Time
    27_05_037_015 * AT + C + NB, // Microfilm Archive Sequence Number
    27_06_052_004 * AT + M + N, // Length of Image Archive Locator
    27_07_056_002 * AT + M + N + NUMBERS + 0 * LOW + 99, // Length of Captured Unparsed MICR Data
    27_08_058_002 * AT + M + N + NUMBERS + 0 * LOW + 99, // Length of Captured High Unparsed MICR Data
    27_09_060_002 * AT + M + N + NUMBERS + 0 * LOW + 99, // Length of Corrected Unparsed MICR Data
    27_10_062_002 * AT + M + N + NUMBERS + 0 * LOW + 99, // Length of Corrected High Unparsed MICR Data
    27_11_064_005 * AT + M + N, // Length of User Data
    27_12_069_005 * AT + M + AB, // Reserved
    27_13_052_004 * AT + PART + ANS, // Image Archive Locator
    27_14_056_002 * AT + PART + NBMU, // Captured Unparsed MICR Data
    27_15_058_002 * AT + PART + NBMU, // Captured High Unparsed MICR Data
    27_16_060_002 * AT + PART + NBMU, // Corrected Unparsed MICR Data
    27_17_062_002 * AT + PART + NBMU, // Corrected High Unparsed MICR Data
    27_18_064_005 * AT + PART + ANS, // User Field
    // Clause 13
    28_00_001_080 * AT + RECORD, // Check Detail Addendum C Record
    28_01_001_002 * AT + M + N + NUMBERS + 28 * LOW + 28, // Record Type
    28_02_003_002 * AT + M + N, // Check Detail Addendum C Record Number
    28_03_005_009 * AT + C + NBD + ROUTING + TTTTAAAAC + TTTTT_FFF, // Endorsing Bank Routing Number
    28_04_014_008 * AT + C + NB + DATE, // Endorsing Bank Endorsement Date
    28_05_022_015 * AT + C + NB, // Endorsing Bank Item Sequence Number
    28_06_037_001 * AT + C + A + YES_NO, // Truncation Indicator
    28_07_038_001 * AT + C + AN + NUMBERS + 0 * LOW + 8, // Endorsing Bank Conversion Indicator
    28_08_039_001 * AT + C + AN + NUMBERS + 0 * LOW + 4, // Endorsing Bank Correction Indicator
    28_09_040_002 * AT + C + AN, // Return Reason
    28_10_042_001 * AT + C + AN + NUMBERS + 0 * LOW + 3, // Endorsing Bank Magnetic Read Indicator
    28_11_043_001 * AT + C + AN + NUMBERS + 0 * LOW + 3, // Endorsing Bank Identifier
    28_12_044_018 * AT + C + ANS, // Deposit Account Number at BOFD
    28_13_062_015 * AT + C + ANS, // User Field
    28_14_077_004 * AT + M + AB, // Reserved
    // Clause 14
    31_00_001_080 * AT + RECORD, // Return Record
    31_01_001_002 * AT + M + N + NUMBERS + 31 * LOW + 31, // Record Type
    31_02_003_015 * AT + C + NBMCD, // Auxiliary On-Us
    31_03_018_001 * AT + C + NBMC, // External Processing Code
    31_04_019_009 * AT + M + NBMCD + ROUTING + TTTTAAAAC + TTTTT_FFF + TTTT_AAAA + B_TTTTAAAA, // Payor Bank Routing Number
    31_05_028_020 * AT + C + NBMCDO, // On-Us
    31_06_048_010 * AT + M + N, // Item Amount
    31_07_058_015 * AT + M + NB, // ECE Institution Item Sequence Number
    31_08_073_002 * AT + M + N + NUMBERS + 0 * LOW + 99, // Return Record Addendum Count
    31_09_075_006 * AT + M + AB, // Reserved
    // Clause 15
    32_00_001_115 * AT + RECORD, // Return Addendum A Record
    32_01_001_002 * AT + M + N + NUMBERS + 32 * LOW + 32, // Record Type
    32_02_003_001 * AT + M + N, // Return Addendum A Record Number
    32_03_004_009 * AT + C + NBD + ROUTING + TTTTAAAAC + TTTTT_FFF, // Return Location Routing Number
    32_04_013_008 * AT + C + NBQ + DATE, // BOFD Business Endorsement Date
    32_05_021_015 * AT + C + NBQ, // BOFD Item Sequence Number
    32_06_036_018 * AT + C + ANS, // Deposit Account Number at BOFD
    32_07_054_005 * AT + C + ANS, // BOFD Deposit Branch
    32_08_059_050 * AT + C + ANS, // Payee Name
    32_09_109_001 * AT + C + A + YES_NO, // Truncation Indicator
    32_10_110_001 * AT + C + AN + NUMBERS + 0 * LOW + 8, // BOFD Conversion Indicator
    32_11_111_001 * AT + C + AN + NUMBERS + 0 * LOW + 4, // BOFD Correction Indicator
    32_12_112_001 * AT + C + AN + NUMBERS + 0 * LOW + 3, // BOFD Magnetic Read Indicator
    32_13_113_001 * AT + C + ANS, // User Field
    32_14_114_002 * AT + M + AB, // Reserved
    // Clause 16
    33_00_001_080 * AT + RECORD, // Return Addendum B Record
    33_01_001_002 * AT + M + N + NUMBERS + 33 * LOW + 33, // Record Type
    33_02_003_002 * AT + M + AN, // Return Reason
    33_03_005_008 * AT + C + NB + DATE, // Forward Bundle Date
    33_04_013_002 * AT + C + AN, // Additional Return Reason
    33_05_015_001 * AT + C + NB + NUMBERS + 0 * LOW + 3, // Number of Times Returned
    33_06_016_001 * AT + C + AN + ITEM_DOCUMENTATION, // Return Documentation Type Indicator
    33_07_017_001 * AT + C + AN + ARCHIVE_TYPES, // Archive Type Indicator
    33_08_018_018 * AT + C + ANS, // Payor Bank Name
    33_09_036_015 * AT + C + NB, // Payor Bank Item Sequence Number
    33_10_051_008 * AT + C + NB + DATE, // Payor Bank Business Date
    33_11_059_022 * AT + C + ANS, // Payor Account Name
    // Clause 17
    34_00_001_073 * AT + RECORD, // Return Addendum C Record
    34_01_001_002 * AT + M + N + NUMBERS + 34 * LOW + 34, // Record Type
    34_02_003_020 * AT + C + ANS, // Item Description
    34_03_023_008 * AT + C + NB + DATE, // Image Capture Date
    34_04_031_006 * AT + C + NB + HOURS_MINUTES_SECONDS, // Image Capture Time
    34_05_037_015 * AT + C + NB, // Microfilm Archive Sequence Number
    34_06_052_004 * AT + M + N, // Length of Image Archive Locator
    34_07_056_002 * AT + M + N + NUMBERS + 0 * LOW + 99, // Length of Captured Unparsed MICR Data
    34_08_058_002 * AT + M + N + NUMBERS + 0 * LOW + 99, // Length of Captured High Unparsed MICR Data
    34_09_060_002 * AT + M + N + NUMBERS + 0 * LOW + 99, // Length of Corrected Unparsed MICR Data
    34_10_062_002 * AT + M + N + NUMBERS + 0 * LOW + 99, // Length of Corrected High Unparsed MICR Data
    34_11_064_005 * AT + M + N, // Length of User Data
    34_12_069_005 * AT + M + AB, // Reserved
    34_13_052_004 * AT + PART + ANS, // Image Archive Locator
    34_14_056_002 * AT + PART + NBMU, // Captured Unparsed MICR Data
    34_15_058_002 * AT + PART + NBMU, // Captured High Unparsed MICR Data
    34_16_060_002 * AT + PART + NBMU, // Corrected Unparsed MICR Data
    34_17_062_002 * AT + PART + NBMU, // Corrected High Unparsed MICR Data
    34_18_064_005 * AT + PART + ANS, // User Field
    // Clause 18
    35_00_001_080 * AT + RECORD, // Return Addendum D Record
    35_01_001_002 * AT + M + N + NUMBERS + 35 * LOW + 35, // Record Type
    35_02_003_002 * AT + M + N, // Return Addendum D Record Number
    35_03_005_009 * AT + C + NBD + ROUTING + TTTTAAAAC + TTTTT_FFF, // Endorsing Bank Routing Number
    35_04_014_008 * AT + C + NB + DATE, // Endorsing Bank Endorsement Date
    35_05_022_015 * AT + C + NB, // Endorsing Bank Item Sequence Number
    35_06_037_001 * AT + C + A + YES_NO, // Truncation Indicator
    35_07_038_001 * AT + C + AN + NUMBERS + 0 * LOW + 8, // Endorsing Bank Conversion Indicator
    35_08_039_001 * AT + C + AN + NUMBERS + 0 * LOW + 4, // Endorsing Bank Correction Indicator
    35_09_040_002 * AT + C + AN, // Return Reason
    35_10_042_001 * AT + C + AN + NUMBERS + 0 * LOW + 3, // Endorsing Bank Magnetic Read Indicator
    35_11_043_001 * AT + C + AN + NUMBERS + 0 * LOW + 3, // Endorsing Bank Identifier
    35_12_044_018 * AT + C + ANS, // Deposit Account Number at BOFD
    35_13_062_015 * AT + C + ANS, // User Field
    35_14_077_004 * AT + M + AB, // Reserved
    // Clause 21
    50_00_001_080 * AT + RECORD, // Image View Detail Record
    50_01_001_002 * AT + M + N + NUMBERS + 50 * LOW + 50, // Record Type
    50_02_003_001 * AT + M + AN + NUMBERS + 0 * LOW + 3, // Image Indicator
    50_03_004_009 * AT + M + NBD + ROUTING + TTTTAAAAC + TTTTT_FFF + NNNNNNNNN, // Image Creator Routing Number
    50_04_013_008 * AT + M + N + DATE, // Image Creator Date
    50_05_021_002 * AT + M + AN + NUMBERS + 0 * LOW + 99, // Image View Format Indicator
    50_06_023_002 * AT + M + AN + NUMBERS + 0 * LOW + 99, // Image View Compression Algorithm Identifier
    50_07_025_001 * AT + M + AN + NUMBERS + 0 * LOW + 4, // Image View Type
    50_08_026_001 * AT + M + AN + NUMBERS + 0 * LOW + 1, // View Side Indicator
    50_09_027_002 * AT + M + AN + NUMBERS + 0 * LOW + 99, // View Descriptor
    50_10_029_001 * AT + M + AN + NUMBERS + 0 * LOW + 1, // Digital Signature Indicator
    50_11_030_002 * AT + C + AN + ONE_OR_TWO_DIGITS, // Digital Signature Hash Function Method
    50_12_032_002 * AT + C + AN + ONE_OR_TWO_DIGITS, // Digital Signature Cryptographic Algorithm Method
    50_13_034_010 * AT + C + ANS, // DSA/RSA Key Size or ECC Curve Number
    50_14_044_001 * AT + M + AN + NUMBERS + 0 * LOW + 1, // Digital Certificate Indicator
    50_15_045_002 * AT + C + AN + NUMBERS + 0 * LOW + 99, // Digital Certificate Format
    50_16_047_002 * AT + C + AN + NUMBERS + 0 * LOW + 99, // Digital Certificate Conveyance Method
    50_17_049_007 * AT + M + N, // Start of Protected Data
    50_18_056_007 * AT + M + N, // Length of Protected Data
    50_19_063_001 * AT + C + AN + NUMBERS + 0 * LOW + 1, // Image Recreate Indicator
    50_20_064_001 * AT + C + AN + TEST_OVERRIDES, // Image Test Override Indicator
    50_21_065_006 * AT + C + NB + HOURS_MINUTES_SECONDS, // Image Capture Time
    50_22_071_006 * AT + C + ANS, // User Field
    50_23_077_004 * AT + M + AB, // Reserved
    // Clause 22
    52_00_001_139 * AT + RECORD, // Image View Data Record
    52_01_001_002 * AT + M + N + NUMBERS + 52 * LOW + 52, // Record Type
    52_02_003_009 * AT + M + NBD + ROUTING + TTTTAAAAC + TTTTT_FFF + NNNNNNNNN, // ECE Institution Routing Number
    52_03_012_008 * AT + M + N + DATE, // Bundle Business Date
    52_04_020_002 * AT + C + AN, // Cycle Number
    52_05_022_015 * AT + M + NB, // ECE Institution Item Sequence Number
    52_06_037_016 * AT + C + ANS, // Security Originator Name
    52_07_053_016 * AT + C + ANS, // Security Authenticator Name
    52_08_069_016 * AT + C + ANS, // Security Key Name
    52_09_085_001 * AT + M + AN + NUMBERS + 0 * LOW + 4, // Clipping Origin
    52_10_086_004 * AT + M + N + CLIPPED_BY + 85, // Clipping Coordinate h1
    52_11_090_004 * AT + M + N + CLIPPED_BY + 85, // Clipping Coordinate h2
    52_12_094_004 * AT + M + N + CLIPPED_BY + 85, // Clipping Coordinate v1
    52_13_098_004 * AT + M + N + CLIPPED_BY + 85, // Clipping Coordinate v2
    52_14_102_002 * AT + M + N + NUMBERS + 0 * LOW + 99, // Ancillary Data Indicator
    52_15_104_004 * AT + M + N, // Length of Image Reference Key
    52_16_108_005 * AT + M + N, // Length of Digital Signature
    52_17_113_005 * AT + M + N, // Length of Digital Certificate Issuer Distinguished Name
    52_18_118_005 * AT + M + N, // Length of Digital Certificate Serial Number
    52_19_123_005 * AT + M + N, // Length of Digital Certificate
    52_20_128_007 * AT + M + N, // Length of Image Data
    52_21_135_005 * AT + M + N, // Length of Ancillary Data
    52_22_104_004 * AT + PART + ANS, // Image Reference Key
    52_23_108_005 * AT + PART + BINARY, // Digital Signature
    52_24_113_005 * AT + PART + ANS, // Digital Certificate Issuer Distinguished Name
    52_25_118_005 * AT + PART + ANS, // Digital Certificate Serial Number
    52_26_123_005 * AT + PART + BINARY, // Digital Certificate
    52_27_128_007 * AT + PART + BINARY, // Image Data
    52_28_135_005 * AT + PART + BINARY, // Ancillary Data
    // Clause 23
    54_00_001_080 * AT + RECORD, // Image View Analysis Record
    54_01_001_002 * AT + M + N + NUMBERS + 54 * LOW + 54, // Record Type
    54_02_003_001 * AT + M + AN + NUMBERS + 0 * LOW + 2, // Global Image Defect
    54_03_004_001 * AT + M + AN + NUMBERS + 0 * LOW + 2, // Global Image Usability
    54_04_005_001 * AT + M + AN + NUMBERS + 0 * LOW + 2, // Imaging Bank Specific Test
    54_05_006_001 * AT + C + AN + NUMBERS + 0 * LOW + 2, // Partial Image
    54_06_007_001 * AT + C + AN + NUMBERS + 0 * LOW + 2, // Excessive Image Skew
    54_07_008_001 * AT + C + AN + NUMBERS + 0 * LOW + 2, // Piggyback Image
    54_08_009_001 * AT + C + AN + NUMBERS + 0 * LOW + 2, // Too Light
    54_09_010_001 * AT + C + AN + NUMBERS + 0 * LOW + 2, // Too Dark
    54_10_011_001 * AT + C + AN + NUMBERS + 0 * LOW + 2, // Streaks and or Bands
    54_11_012_001 * AT + C + AN + NUMBERS + 0 * LOW + 2, // Below Minimum Image Size
    54_12_013_001 * AT + C + AN + NUMBERS + 0 * LOW + 2, // Exceeds Maximum Image Size
    54_13_014_001 * AT + M + AB, // Reserved
    54_14_015_001 * AT + M + AB, // Reserved
    54_15_016_001 * AT + M + AB, // Reserved
    54_16_017_001 * AT + M + AB, // Reserved
    54_17_018_001 * AT + M + AB, // Reserved
    54_18_019_001 * AT + M + AB, // Reserved
    54_19_020_001 * AT + M + AB, // Reserved
    54_20_021_001 * AT + M + AB, // Reserved
    54_21_022_001 * AT + M + AB, // Reserved
    54_22_023_001 * AT + M + AB, // Reserved
    54_23_024_001 * AT + M + AB, // Reserved
    54_24_025_001 * AT + M + AB, // Reserved
    54_25_026_001 * AT + M + AB, // Reserved
    54_26_027_001 * AT + C + AN + NUMBERS + 0 * LOW + 2, // Image-Enabled POD
    54_27_028_001 * AT + C + AN + NUMBERS + 0 * LOW + 2, // Source Document Bad
    54_28_029_001 * AT + C + AN + NUMBERS + 0 * LOW + 2, // Date (Issue) Usability
    54_29_030_001 * AT + C + AN + NUMBERS + 0 * LOW + 2, // Payee Usability
    54_30_031_001 * AT + C + AN + NUMBERS + 0 * LOW + 2, // Convenience Amount Usability
    54_31_032_001 * AT + C + AN + NUMBERS + 0 * LOW + 2, // Amount in Words (Legal Amount) Usability
    54_32_033_001 * AT + C + AN + NUMBERS + 0 * LOW + 2, // Signature (Payor) Usability
    54_33_034_001 * AT + C + AN + NUMBERS + 0 * LOW + 2, // Payor Name and Address Usability
    54_34_035_001 * AT + C + AN + NUMBERS + 0 * LOW + 2, // MICR Line Usability
    54_35_036_001 * AT + C + AN + NUMBERS + 0 * LOW + 2, // Memo Line Usability
    54_36_037_001 * AT + C + AN + NUMBERS + 0 * LOW + 2, // Payor Bank Name and Address Usability
    54_37_038_001 * AT + C + AN + NUMBERS + 0 * LOW + 2, // Payee Endorsement Usability
    54_38_039_001 * AT + C + AN + NUMBERS + 0 * LOW + 2, // Bank of First Deposit Endorsement Usability
    54_39_040_001 * AT + C + AN + NUMBERS + 0 * LOW + 2, // Transit Endorsement Usability
    54_40_041_001 * AT + M + AB, // Reserved
    54_41_042_001 * AT + M + AB, // Reserved
    54_42_043_001 * AT + M + AB, // Reserved
    54_43_044_001 * AT + M + AB, // Reserved
    54_44_045_001 * AT + M + AB, // Reserved
    54_45_046_001 * AT + M + AB, // Reserved
    54_46_047_020 * AT + C + ANS, // User Field
    54_47_067_014 * AT + M + AB, // Reserved
    // Clause 26
    61_00_001_084 * AT + RECORD, // Credit/Reconciliation Record
    61_01_001_002 * AT + M + N + NUMBERS + 61 * LOW + 61, // Record Type
    61_02_003_001 * AT + C + AN + NUMBERS + 1 * LOW + 9, // Record Usage Indicator
    61_03_004_015 * AT + C + NBMCD, // Auxiliary On-Us
    61_04_019_001 * AT + C + NBMC, // External Processing Code
    61_05_020_009 * AT + M + NBMCD + ROUTING + TTTTAAAAC + TTTTT_FFF, // Posting Bank Routing Number
    61_06_029_020 * AT + C + NBMCDO, // Posting Account Number (On-Us)
    61_07_049_014 * AT + M + N, // Item Amount
    61_08_063_015 * AT + M + NB, // Item Sequence Number
    61_09_078_001 * AT + C + AN + ITEM_DOCUMENTATION, // Documentation Type Indicator
    61_10_079_001 * AT + C + AN + ACCOUNT_TYPES, // Type of Account Code
    61_11_080_002 * AT + C + AN + SOURCE_OF_WORK, // Source of Work Code
    61_12_082_003 * AT + M + AB, // Reserved
    // Clause 31
    70_00_001_080 * AT + RECORD, // Bundle Control Record
    70_01_001_002 * AT + M + N + NUMBERS + 70 * LOW + 70, // Record Type
    70_02_003_004 * AT + M + N, // Bundle Debit Item Count
    70_03_007_012 * AT + M + N, // Bundle Debit Total Amount
    70_04_019_012 * AT + C + NB + ALL_DIGITS, // MICR Valid Debit Total Amount
    70_05_031_005 * AT + M + N, // Bundle Image View Record Count
    70_06_036_004 * AT + M + N, // Bundle Credit Item Count
    70_07_040_012 * AT + M + N, // Bundle Credit Total Amount
    70_08_052_009 * AT + C + ANS, // User Field
    70_09_061_020 * AT + M + AB, // Reserved
    // Clause 34
    90_00_001_085 * AT + RECORD, // Cash Letter Control Record
    90_01_001_002 * AT + M + N + NUMBERS + 90 * LOW + 90, // Record Type
    90_02_003_006 * AT + M + N, // Bundle Count
    90_03_009_008 * AT + M + N, // Cash Letter Debit Item Count
    90_04_017_014 * AT + M + N, // Cash Letter Debit Total Amount
    90_05_031_009 * AT + M + N, // Cash Letter Image View Record Count
    90_06_040_016 * AT + C + ANS, // ECE Institution Name
    90_07_056_008 * AT + C + NB + DATE, // Settlement Date
    90_08_064_008 * AT + M + N, // Cash Letter Credit Item Count
    90_09_072_014 * AT + M + N, // Cash Letter Credit Total Amount
    // Clause 35
    99_00_001_080 * AT + RECORD, // File Control Record
    99_01_001_002 * AT + M + N + NUMBERS + 99 * LOW + 99, // Record Type
    99_02_003_006 * AT + M + N, // Cash Letter Count
    99_03_009_008 * AT + M + N, // Total Record Count
    99_04_017_008 * AT + M + N, // Total Item Count
    99_05_025_016 * AT + M + N, // File Debit Total Amount
    99_06_041_014 * AT + C + ANS, // Immediate Origin Contact Name
    99_07_055_010 * AT + C + NB, // Immediate Origin Contact Phone Number
    99_08_065_016 * AT + M + N, // File Credit Total Amount
];

// A constant array is laid out anew wherever it is named, so it is named here alone and lent.
pub fn fields() -> [u64; 322]
    ensures { Meant result }
{
    FIELDS
}

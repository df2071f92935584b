// The limits of the grammar, beside those of contests, trees and multipliers that other crates have.
use ballot_form::Cand;
use exact_num::WIDE;

/// The longest text of a certificate, in bytes.
pub const LONGEST_TEXT: u64 = 1_073_741_824;

/// The greatest number of a candidate that a text may name.
pub const GREATEST_CANDIDATE: Cand = 255;

/// The greatest budget of nodes.
pub const MOST_BUDGET: u32 = 40_000;

/// The most multipliers of a cut.
pub const MOST_MULTIPLIERS: usize = 1_035;

/// The greatest multiplier, 2^63 - 1.
pub const GREATEST_MULTIPLIER: u64 = WIDE - 1;

/// The greatest key of a branch, 2^40 - 1.
pub const GREATEST_KEY: u64 = 1_099_511_627_775;

/// The last place that an arc leaves.
pub const LAST_LEFT: u8 = 39;

/// The last place that an arc enters.
pub const LAST_ENTERED: u8 = 40;

/// The greatest value of a branch.
pub const GREATEST_VALUE: u32 = 999_999;

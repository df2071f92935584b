// The limit of a ballot file.

/// The longest ballot file, in bytes.
pub const LONGEST_FILE: u64 = 67_108_864;

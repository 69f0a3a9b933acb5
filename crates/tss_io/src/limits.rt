//! The limit of a line (this project's own).

/// How long a line may be, in bytes before its newline.
pub const LONGEST_LINE: usize = 120;

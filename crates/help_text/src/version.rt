//! The version of the program.

/// The line of `--version`. Its second word is the version that `packaging/version` prints.
pub const VERSION: &str = "inputflinger 1.0.0+next\n";

// Written by tools/known.

/// The version of the list, and the day on which it came out where data/ has it.
pub static VERSION: &str = "3.29.0";

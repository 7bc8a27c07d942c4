// The rows of a catalogue, as they are handed in.

/// A listed licence.
#[derive(Drop)]
pub struct License {
    /// The short identifier, as `Apache-2.0`.
    pub name: String,
    /// The name in full.
    pub full_name: String,
    /// The row's position in its list, from 0.
    pub index: usize,
    /// The bits of `flags`.
    pub flags: u8,
}

/// A listed exception, which may follow `WITH`.
#[derive(Drop)]
pub struct Exception {
    /// The short identifier, as `LLVM-exception`.
    pub name: String,
    /// The row's position in its list, from 0.
    pub index: usize,
    /// The bits of `flags`, of which only `IS_DEPRECATED` speaks of exceptions.
    pub flags: u8,
}

/// Another spelling of a licence's name, as `apache` for `Apache-2.0`.
#[derive(Drop)]
pub struct ImpreciseName {
    /// What a text may begin with.
    pub prefix: String,
    /// The name of the licence that is meant.
    pub name: String,
}

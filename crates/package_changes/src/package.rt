// Packages, and what became of them.

/// A package, as a list has it.
#[derive(Clone, Copy, Debug, PartialEq, Eq)]
pub struct Package<'p> {
    pub name: &'p str,
    /// Empty where none is told.
    pub version: &'p str,
    /// The text that states its license; empty where none is stated.
    pub license: &'p str,
}

/// What became of a package between an older and a newer list.
#[derive(Clone, Copy, Debug, PartialEq, Eq)]
pub enum Change<'p> {
    /// Both lists have it: so the older one, and so the newer one. Often it is the same in both.
    Stayed { old: Package<'p>, new: Package<'p> },
    /// Only the older list has it.
    Went(Package<'p>),
    /// Only the newer list has it.
    Came(Package<'p>),
}

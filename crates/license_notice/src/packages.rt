// Packages with their choices, and the notice that is made of them.

/// A requirement of a package's choice: a licence, with an exception where it has one.
#[derive(Clone, Copy, Debug)]
pub struct Requirement<'t> {
    /// As it is written, as `Apache-2.0 WITH LLVM-exception`.
    pub name: &'t str,
    /// The names of the texts that it wants, as `Apache-2.0` and `LLVM-exception`.
    pub texts: &'t [String],
}

/// A package, and the requirements under which it is taken.
#[derive(Clone, Copy, Debug)]
pub struct Package<'c, 't> {
    pub name: &'t str,
    pub version: &'t str,
    pub choice: &'c [Requirement<'t>],
}

/// A package as a notice names it.
#[derive(Clone, Copy, PartialEq, Eq, PartialOrd, Ord, Debug)]
pub struct Release<'t> {
    pub name: &'t str,
    pub version: &'t str,
}

/// A requirement, and the packages that stand under it: one at least.
#[derive(Debug, Drop)]
pub struct Group<'t> {
    pub requirement: &'t str,
    pub packages: Vec<Release<'t>>,
}

/// Who stands where, and the names of the texts that are wanted.
#[derive(Debug, Drop)]
pub struct Notice<'t> {
    pub groups: Vec<Group<'t>>,
    pub texts: Vec<&'t str>,
}

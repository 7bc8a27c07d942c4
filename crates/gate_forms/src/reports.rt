// A gate's verdict on a package, and the reasons of it.

ghost use Rattle.std.specs.Prelude.{◌≡◌};
ghost use Rattle.gate_forms.specs.Report.{is_refused, is_accepted, is_part_accepted};

/// What a policy says of one requirement.
#[derive(Clone, Copy)]
pub enum Mark {
    Accepted,
    Denied,
    /// No entry of the policy speaks of it.
    Open,
}

/// A requirement of an expression.
#[derive(Clone, Copy)]
pub struct Leaf<'r> {
    pub text: &'r str,
    /// Where it begins, in bytes of the expression.
    pub start: usize,
    /// Where it ends, in bytes of the expression.
    pub end: usize,
    pub mark: Mark,
    /// The policy's entry that decided, as text; empty if none did.
    pub by: &'r str,
}

/// A part of an expression: a requirement, or parts that are joined.
#[derive(Clone, Copy)]
pub enum Part<'r> {
    License(Leaf<'r>),
    And { accepted: bool },
    Or { accepted: bool },
}

/// A part of an expression, and how many parts it stands in. The parts that are joined follow the part that joins them.
#[derive(Clone, Copy)]
pub struct Node<'r> {
    pub depth: usize,
    pub part: Part<'r>,
}

#[derive(Clone, Copy)]
pub enum Verdict {
    Allowed,
    ByException,
    /// The expression is not allowed, or is none.
    Refused,
    /// The package states no licence.
    Unstated { allowed: bool },
}

/// What would make a refused package pass.
#[derive(Clone, Copy)]
pub enum Advice<'r> {
    /// Nothing that may be allowed does.
    Unmet,
    /// These, allowed besides.
    Allow(&'r [&'r str]),
    /// It was not sought among so many entries.
    NotSought { entries: usize },
}

/// Why a package is refused.
#[derive(Clone, Copy)]
pub enum Why<'r> {
    Nothing,
    /// The expression is none: the reason, and where the fault begins and ends in its bytes.
    Fault {
        reason: &'r str,
        start: usize,
        end: usize,
    },
    /// The requirements that the refusal hangs on, and what would make the package pass.
    Missing {
        leaves: &'r [Leaf<'r>],
        advice: Advice<'r>,
    },
}

/// Whether a refusal is known: whether it was there before, among the refusals of a baseline.
#[derive(Clone, Copy)]
pub enum Baseline {
    /// There is no baseline.
    Absent,
    /// It isn't in the baseline.
    New,
    /// It is in the baseline.
    Known,
}

/// The verdict of a policy on a package. Any values are a report: a place that is within a character or past the end of
/// the expression stands for its end, and what ends before it begins is empty.
#[derive(Clone, Copy)]
pub struct Report<'r> {
    /// The policy's file.
    pub policy: &'r str,
    /// The file that names the package.
    pub file: &'r str,
    pub name: &'r str,
    pub version: Option<&'r str>,
    pub expression: &'r str,
    pub verdict: Verdict,
    /// Of a refusal, whether it is known.
    pub baseline: Baseline,
    pub why: Why<'r>,
    /// The parts of the expression.
    pub nodes: &'r [Node<'r>],
}

/// How many packages there are, and of which verdict.
#[derive(Clone, Copy)]
pub struct Totals {
    pub packages: u64,
    /// Also those by exception.
    pub allowed: u64,
    pub by_exception: u64,
    pub refused: u64,
    pub unstated: u64,
}

/// An entry that would make refused packages pass.
#[derive(Clone, Copy)]
pub struct Need<'r> {
    pub entry: &'r str,
    /// How many refused packages need it.
    pub packages: u64,
}

/// What would make all refused packages pass.
#[derive(Clone, Copy)]
pub struct Summary<'r> {
    pub needs: &'r [Need<'r>],
    /// How many packages nothing that may be allowed makes pass.
    pub unmet: u64,
    /// For how many it was not sought, among too many entries.
    pub not_sought: u64,
}

impl Verdict {
    /// Whether the package does not pass.
    pub fn is_refused(self) -> bool
        ensures { result ≡ is_refused self }
    {
        match self {
            Verdict::Allowed | Verdict::ByException => false,
            Verdict::Refused => true,
            Verdict::Unstated { allowed } => !allowed,
        }
    }
}

impl Mark {
    pub(crate) fn is_accepted(self) -> bool
        ensures { result ≡ is_accepted self }
    {
        match self {
            Mark::Accepted => true,
            Mark::Denied | Mark::Open => false,
        }
    }
}

impl Part<'_> {
    pub(crate) fn is_accepted(&self) -> bool
        ensures { result ≡ is_part_accepted self.now }
    {
        match self {
            Part::License(leaf) => leaf.mark.is_accepted(),
            Part::And { accepted } => *accepted,
            Part::Or { accepted } => *accepted,
        }
    }
}

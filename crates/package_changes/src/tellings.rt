// What is told of a change.

ghost use Rattle.std.specs.Prelude.{◌≡◌};
ghost use Rattle.package_changes.specs.Tellings.{how_words, how_name, reason_words, reason_name};

/// A package, as one of the lists has it. Both texts may be empty.
#[derive(Clone, Copy, Debug)]
pub struct Release<'t> {
    pub version: &'t str,
    pub license: &'t str,
}

/// How a package changed.
#[derive(Clone, Copy, Debug, PartialEq, Eq)]
pub enum How {
    Came,
    Went,
    /// Of its license only the writing.
    Rewritten,
    /// Its license is another one with the same meaning.
    SameMeaning,
    More,
    Less,
    /// Each of its licenses asks for what the other doesn't.
    Other,
    Untold,
}

/// Why it isn't told what a license asks.
#[derive(Clone, Copy, Debug, PartialEq, Eq)]
pub enum Reason {
    Told,
    Unstated,
    Unread,
    TooManySets,
}

/// What is told of a change.
#[derive(Clone, Copy, Debug)]
pub struct Telling<'t> {
    pub how: How,
    pub name: &'t str,
    /// As the older list has it, if it does.
    pub old: Option<Release<'t>>,
    /// As the newer list has it, if it does.
    pub new: Option<Release<'t>>,
    /// The licenses with which alone the older license held and the newer one doesn't; empty where none are named.
    pub enough_before: &'t str,
    /// The licenses with which alone the newer license holds and the older one didn't; empty where none are named.
    pub enough_now: &'t str,
    pub untold_before: Reason,
    pub untold_now: Reason,
    /// Whether a policy refuses it.
    pub is_refused: bool,
}

impl How {
    /// What a line says.
    pub(crate) fn words(self) -> &'static str
        ensures { result.now ≡ how_words self }
    {
        match self {
            How::Came => "came",
            How::Went => "went",
            How::Rewritten => "written otherwise",
            How::SameMeaning => "same meaning",
            How::More => "asks for more",
            How::Less => "asks for less",
            How::Other => "asks for other",
            How::Untold => "can't be told",
        }
    }

    /// The word for machines.
    pub(crate) fn name(self) -> &'static str
        ensures { result.now ≡ how_name self }
    {
        match self {
            How::Came => "came",
            How::Went => "went",
            How::Rewritten => "rewritten",
            How::SameMeaning => "same-meaning",
            How::More => "more",
            How::Less => "less",
            How::Other => "other",
            How::Untold => "untold",
        }
    }
}

impl Reason {
    pub(crate) fn words(self) -> &'static str
        ensures { result.now ≡ reason_words self }
    {
        match self {
            Reason::Told => "",
            Reason::Unstated => "not stated",
            Reason::Unread => "no expression",
            Reason::TooManySets => "too many sets",
        }
    }

    pub(crate) fn name(self) -> &'static str
        ensures { result.now ≡ reason_name self }
    {
        match self {
            Reason::Told => "",
            Reason::Unstated => "unstated",
            Reason::Unread => "unread",
            Reason::TooManySets => "too-many-sets",
        }
    }
}

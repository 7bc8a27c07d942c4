// A finding, and where its fault stands.

ghost use Rattle.std.specs.Prelude.{◌≡◌, IsCharBoundary};
ghost use Rattle.finding_forms.specs.Finding.{aid_of, before_in, column_behind, end_in, fault_of, from_of, place_in, seen_in, seen_of, to_of, told};
ghost use Rattle.finding_forms.specs.Message.{helps};

/// Where an expression stands: the line of the file, from 1, and the column in which the expression begins, in
/// characters from 1.
#[derive(Clone, Copy, Debug)]
pub struct Place<'t> {
    pub file: &'t str,
    pub line: u64,
    pub column: u64,
}

/// What helps where an expression is refused.
#[derive(Clone, Copy, Debug)]
pub enum Help<'t> {
    /// Nothing is known that does.
    Nothing,
    /// The mended text of the expression.
    Write(&'t str),
    /// Names that may be meant, the likeliest first, and a word for the rule that gave them.
    Names { names: &'t [&'t str], rule: &'t str },
    /// A note in words.
    Note(&'t str),
}

/// Where a fault is seen in its file: in a line, which may have more than the expression, or have it with escapes.
#[derive(Clone, Copy, Debug)]
pub struct Sight<'t> {
    /// The line of the fault, from 1.
    pub line: u64,
    /// The column in which the fault begins, in characters from 1.
    pub column: u64,
    /// What is shown of the line.
    pub text: &'t str,
    /// Where the fault begins, in bytes of that text.
    pub start: usize,
    /// Where the fault ends, in bytes of that text.
    pub end: usize,
}

/// What is wrong with an expression. Any values are a finding: a place of the fault that is within a character or past
/// the end of the expression stands for its end, and a fault that ends before it begins is empty.
#[derive(Clone, Copy, Debug)]
pub struct Finding<'t> {
    pub place: Place<'t>,
    pub expression: &'t str,
    /// Where the fault begins, in bytes of the expression.
    pub start: usize,
    /// Where the fault ends, in bytes of the expression.
    pub end: usize,
    pub reason: &'t str,
    pub help: Help<'t>,
    /// Where the fault is seen; `None` where the expression stands in the file as it is, at its place.
    pub sight: Option<Sight<'t>>,
}

impl Help<'_> {
    pub(crate) fn helps(&self) -> bool
        ensures { result ≡ helps (aid_of self.now) }
    {
        match self {
            Help::Nothing => false,
            Help::Write(_) | Help::Note(_) => true,
            Help::Names { names, rule: _ } => !names.is_empty(),
        }
    }
}

/// The place in the text, which is its end where the place is none.
pub(crate) fn place_in(text: &str, at: usize) -> usize
    ensures place { result ≡ place_in text.now at }
    ensures boundary { IsCharBoundary text.now result }
{
    if text.is_char_boundary(at) {
        at
    } else {
        text.len()
    }
}

/// The column so many characters behind another. Columns end with those of 64 bits.
pub(crate) fn column_behind(column: u64, text: &str) -> u64
    ensures { result ≡ column_behind column text.now }
{
    column.saturating_add(text.chars().count() as u64)
}

/// Where a fault ends in a text, which is not before it begins.
pub(crate) fn end_in(text: &str, start: usize, end: usize) -> usize
    ensures end { result ≡ end_in text.now start end }
    ensures boundary { IsCharBoundary text.now result }
{
    place_in(text, end).max(place_in(text, start))
}

impl<'t> Finding<'t> {
    /// Where the fault is seen.
    pub(crate) fn sight(&self) -> Sight<'t>
        ensures seen { seen_of result ≡ seen_in self.now }
        ensures line { result.line ≡ (seen_in self.now).line }
        ensures column { result.column ≡ (seen_in self.now).column }
    {
        match self.sight {
            Some(sight) => sight,
            None => Sight {
                line: self.place.line,
                column: column_behind(self.place.column, before_in(self.expression, self.start)),
                text: self.expression,
                start: self.start,
                end: self.end,
            },
        }
    }

    /// Where the fault begins in the expression.
    pub(crate) fn from(&self) -> usize
        ensures { result ≡ from_of (told self.now) }
    {
        place_in(self.expression, self.start)
    }

    /// Where the fault ends in the expression.
    pub(crate) fn to(&self) -> usize
        ensures { result ≡ to_of (told self.now) }
    {
        end_in(self.expression, self.start, self.end)
    }

    /// What is seen of the fault.
    pub(crate) fn fault(&self) -> &'t str
        ensures { result.now ≡ fault_of (told self.now) }
    {
        let sight = self.sight();
        let from = place_in(sight.text, sight.start);
        &sight.text[from..end_in(sight.text, sight.start, sight.end)]
    }
}

// The text before the fault that begins there.
fn before_in(text: &str, start: usize) -> &str
    ensures { result.now ≡ before_in text.now start }
{
    &text[..place_in(text, start)]
}

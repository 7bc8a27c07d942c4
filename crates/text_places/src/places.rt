// Where in a file a line stands, as far as fields go.

/// What the lines before leave for the next one.
#[derive(Clone, Copy, PartialEq, Eq, Debug)]
pub enum Place {
    /// No line of the field: it stands in another section, or behind the header.
    Outside,
    /// Lines of fields.
    Fields,
    /// Items `- TEXT` of a field, or lines of fields again.
    Items,
    /// Within the brackets of a list.
    InList,
}

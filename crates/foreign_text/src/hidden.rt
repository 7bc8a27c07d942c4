// Characters that are not shown as they are.

ghost use Rattle.std.specs.Prelude.{◌≡◌};
ghost use Rattle.foreign_text.specs.Hidden.{is_hidden};

use ucd_category::GeneralCategory;

/// Whether the character is not shown as it is, by its category in Unicode 18: a control character, a mark of format (a
/// direction, a width of zero, a tag), a separator of lines or paragraphs, or one that Unicode has not assigned.
pub fn is_hidden(letter: char) -> bool
    ensures { result ≡ is_hidden letter }
{
    matches!(
        GeneralCategory::for_char(letter),
        GeneralCategory::Control
            | GeneralCategory::Format
            | GeneralCategory::LineSeparator
            | GeneralCategory::ParagraphSeparator
            | GeneralCategory::Unassigned
    )
}

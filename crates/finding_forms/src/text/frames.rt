// The text of a finding round the number of its line.

ghost use Rattle.std.specs.Prelude.{◌≡◌, ◌++◌, IfOk, IfSome, OnErr, OnOk, is_some, length, take};
ghost use Rattle.finding_forms.specs.Finding.{told};
ghost use Rattle.finding_forms.specs.Frames.{framed, has_frame, IsFrame};

use crate::findings::Finding;
use crate::forms::Format;
use crate::text::carets::human_frame;
use crate::text::line_forms::short_frame;
use itoa::Buffer;
use std::alloc::{AllocError, Global};

/// The text of a finding but for the number of its line, which alone differs between the findings of one expression in
/// one file: who keeps a frame writes them without making the text anew.
#[derive(Drop)]
pub struct Frame {
    pub(crate) before: String,
    pub(crate) behind: String,
}

impl Frame {
    /// Appends the finding as it is told of that line.
    ///
    /// # Errors
    ///
    /// Memory was refused, and the text is as it was.
    pub fn put(&self, text: &mut Vec<u8>, line: u64) -> Result<(), AllocError>
        ensures ok { OnOk result (text.new.items ≡ text.old.items ++ framed self.now line) }
        ensures err { OnErr result (text.new.items ≡ text.old.items) }
    {
        let len = text.len();
        let put = self.put_parts(text, line);
        if put.is_err() {
            text.truncate(len);
        }
        put
    }

    // Where memory is refused, the text may have some of the parts.
    fn put_parts(&self, text: &mut Vec<u8>, line: u64) -> Result<(), AllocError>
        ensures ok { OnOk result (text.new.items ≡ text.old.items ++ framed self.now line) }
        ensures err { OnErr result
            (take (length text.old.items) text.new.items ≡ text.old.items) }
    {
        let mut number = Buffer::new();
        text.extend_from_slice(self.before.as_bytes())?;
        text.extend_from_slice(number.format(line).as_bytes())?;
        text.extend_from_slice(self.behind.as_bytes())
    }
}

/// The finding's text round the number of its line, in the human and the short form. The others have no frame: JSON and
/// SARIF write the number as a token, SARIF more than once, and an error of a workflow comes seldom.
///
/// # Errors
///
/// Memory was refused.
pub fn frame_of(
    alloc: Global,
    format: Format,
    finding: &Finding<'_>,
) -> Result<Option<Frame>, AllocError>
    ensures text { IfOk result (λ found. IfSome found (IsFrame format (told finding.now))) }
    ensures is { IfOk result (λ found. is_some found ≡ has_frame format) }
{
    match format {
        Format::Human(style) => Ok(Some(human_frame(alloc, style, finding)?)),
        Format::Short => Ok(Some(short_frame(alloc, finding)?)),
        Format::Json | Format::Github | Format::Sarif => Ok(None),
    }
}

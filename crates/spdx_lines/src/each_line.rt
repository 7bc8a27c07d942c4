// Answers to lines one by one.

ghost use Rattle.std.specs.Prelude.{◌≡◌, [], ◌++◌, IfOk, OnOk};
ghost use Rattle.spdx_minimize.specs.AcceptedModel.{licensees_of};
ghost use Rattle.spdx_lines.specs.Found.{rule_of};
ghost use Rattle.spdx_lines.specs.Remembered.{AreAnswers};

use crate::answer::begin_answer;
use crate::lines::LineMode;
use crate::remembered::Remembered;
use crate::text::put_choice;
use line_engine::verdicts::Verdicts;
use spdx::{AcceptedLicensees, Catalogue, Licensee};
use std::alloc::{AllocError, Global};

/// Answers each line by itself. A line that came lately is answered as it was then, and so are its
/// requirements, as to which licensees satisfy them.
#[derive(Drop)]
pub(crate) struct EachLine<'r, 'c> {
    catalogue: &'c Catalogue,
    mode: LineMode,
    accepted: AcceptedLicensees<'r, 'c>,
    remembered: Remembered,
    ghost known: { AreAnswers (rule_of catalogue.now mode (licensees_of accepted))
        remembered.slots.items },
}

impl<'r, 'c> EachLine<'r, 'c> {
    pub(crate) fn new(
        alloc: Global,
        catalogue: &'c Catalogue,
        mode: LineMode,
        accepted: &'r [Licensee<'c>],
    ) -> EachLine<'r, 'c>
        ensures catalogue { result.catalogue.now ≡ catalogue.now }
        ensures mode { result.mode ≡ mode }
        ensures accepted { licensees_of result.accepted ≡ accepted.now }
    {
        let accepted = AcceptedLicensees::new(alloc, accepted);
        let remembered = Remembered::new(alloc);
        EachLine {
            catalogue,
            mode,
            accepted,
            remembered,
        }
    }
}

// Appends the answer to a line, and says whether the line is refused.
fn put_answer<'c>(
    alloc: Global,
    catalogue: &'c Catalogue,
    mode: LineMode,
    accepted: &mut AcceptedLicensees<'_, 'c>,
    line: &[u8],
    text: &mut Vec<u8>,
) -> Result<bool, AllocError>
    ensures text { OnOk result (text.new.items
        ≡ text.old.items ++
        (rule_of catalogue.now mode (licensees_of accepted.old)).text [] line.now) }
    ensures refuses { IfOk result (λ refused.
        refused ≡ (rule_of catalogue.now mode (licensees_of accepted.old)).refuses line.now) }
    ensures licensees { licensees_of accepted.new ≡ licensees_of accepted.old }
{
    match begin_answer(alloc, catalogue, mode, line, text)? {
        None => Ok(true),
        Some(expression) => {
            text.push(b'\t')?;
            put_choice(text, expression.minimized_among(alloc, accepted))?;
            text.push(b'\n')?;
            Ok(false)
        }
    }
}

impl Verdicts for EachLine<'_, '_> {
    ghost rule = { λ each.
        rule_of each.catalogue.now each.mode (licensees_of each.accepted) };

    ghost HasAnswered = { λ _ _. Unit {0} };

    fn answer(
        &mut self,
        alloc: Global,
        line: &[u8],
        text: &mut Vec<u8>,
    ) -> Result<bool, AllocError> {
        if let Some(slot) = self.remembered.find(line) {
            text.extend_from_slice(slot.answer())?;
            return Ok(slot.is_refused());
        }
        let start = text.len();
        let is_refused = put_answer(
            alloc,
            self.catalogue,
            self.mode,
            &mut self.accepted,
            line,
            text,
        )?;
        self.remembered
            .keep(alloc, line, &text[start..], is_refused);
        Ok(is_refused)
    }

    fn close(&mut self, _alloc: Global, _text: &mut Vec<u8>) -> Result<(), AllocError> {
        Ok(())
    }
}

// Answers to lines of which one choice is for all.

ghost use Rattle.std.specs.Prelude.{◌≡◌, []};
ghost use Rattle.spdx_lines.specs.Answer.{AreKept};
ghost use Rattle.spdx_lines.specs.Trees.{trees_in};
ghost use Rattle.spdx_lines.specs.Found.{accepted_trees, rule_of_all};

use crate::answer::begin_answer;
use crate::kept::Kept;
use crate::lines::LineMode;
use crate::text::put_choice;
use line_engine::verdicts::Verdicts;
use spdx::{Catalogue, Licensee, minimized_for_all};
use std::alloc::{AllocError, Global};

/// Answers each line without a choice, and at the end gives one for all accepted lines.
#[derive(Drop)]
pub(crate) struct AllLines<'r, 'c> {
    catalogue: &'c Catalogue,
    mode: LineMode,
    accepted: &'r [Licensee<'c>],
    kept: Kept<'c>,
}

impl<'r, 'c> AllLines<'r, 'c> {
    pub(crate) fn new(
        alloc: Global,
        catalogue: &'c Catalogue,
        mode: LineMode,
        accepted: &'r [Licensee<'c>],
    ) -> AllLines<'r, 'c>
        ensures catalogue { result.catalogue.now ≡ catalogue.now }
        ensures mode { result.mode ≡ mode }
        ensures accepted { result.accepted.now ≡ accepted.now }
        ensures kept { trees_in result.kept ≡ [] }
    {
        AllLines {
            catalogue,
            mode,
            accepted,
            kept: Kept::new(alloc),
        }
    }
}

impl Verdicts for AllLines<'_, '_> {
    ghost rule = { λ all. rule_of_all all.catalogue.now all.mode all.accepted.now };

    ghost HasAnswered = { λ all lines.
        AreKept all.catalogue.now (trees_in all.kept)
        (accepted_trees all.catalogue.now all.mode lines) };

    fn answer(
        &mut self,
        alloc: Global,
        line: &[u8],
        text: &mut Vec<u8>,
    ) -> Result<bool, AllocError> {
        match begin_answer(alloc, self.catalogue, self.mode, line, text)? {
            None => Ok(true),
            Some(expression) => {
                text.push(b'\n')?;
                self.kept.keep(alloc, expression)?;
                Ok(false)
            }
        }
    }

    fn close(&mut self, alloc: Global, text: &mut Vec<u8>) -> Result<(), AllocError> {
        let kept = self.kept.all(alloc)?;
        text.extend_from_slice(b"all\t")?;
        put_choice(text, minimized_for_all(alloc, &kept, self.accepted))?;
        text.push(b'\n')?;
        Ok(())
    }
}

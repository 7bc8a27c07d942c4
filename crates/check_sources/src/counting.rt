// What is found in a file, written and counted.

ghost use Rattle.check_sources.specs.Counted.{IsCounted};

use crate::findings::Findings;
use crate::sums::Sums;

/// Counts what was found in a file, and gives what is written of it. A file without an expression counts for none, and nothing
/// is written of it.
pub fn counted(sums: &mut Sums, found: Findings) -> Vec<u8>
    ensures { IsCounted sums.old sums.new found.summary found.text.items result.items }
{
    let Findings { mut text, summary } = found;
    if summary.lines > 0 {
        sums.totals.add(summary.lines, summary.refused);
    } else {
        text.clear();
    }
    text
}

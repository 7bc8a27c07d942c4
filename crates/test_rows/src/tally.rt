// How many rows hold.

ghost use Rattle.std.specs.Prelude.{◌≡◌, ◌≢◌, ◌++◌, ◌+◌, ◌^◌, ◌-◌, ◌==◌, IfOk, OnOk, codes, min, string_bytes};
ghost use Rattle.std.specs.Fmt.{decimal};

use std::alloc::AllocError;

/// How many rows hold, and how many don't. Neither number goes beyond the greatest that there is.
#[derive(Clone, Copy)]
pub struct Tally {
    pub held: u64,
    pub others: u64,
}

impl Tally {
    /// Of no rows.
    pub fn new() -> Tally
        ensures held { result.held ≡ 0 }
        ensures others { result.others ≡ 0 }
    {
        Tally { held: 0, others: 0 }
    }

    /// Counts a row that wants the one text and is answered the other. It holds if both texts are the same; one that doesn't
    /// is appended to what is shown, with its answer.
    ///
    /// # Errors
    ///
    /// Memory was refused; the row is counted.
    pub fn count(
        &mut self,
        shown: &mut String,
        row: &str,
        wanted: &str,
        answered: &str,
    ) -> Result<(), AllocError>
        ensures held { answered.now ≡ wanted.now →
            (self.new.held ≡ min (self.old.held + 1) (2 ^ 64 - 1))
            × (self.new.others ≡ self.old.others) }
        ensures others { answered.now ≢ wanted.now →
            (self.new.others ≡ min (self.old.others + 1) (2 ^ 64 - 1))
            × (self.new.held ≡ self.old.held) }
        ensures silent { answered.now ≡ wanted.now → string_bytes shown.new ≡ string_bytes shown.old }
        ensures told { answered.now ≢ wanted.now → OnOk result (string_bytes shown.new
            ≡ string_bytes shown.old ++ (row.now ++ (codes "\n    answered: "
            ++ (answered.now ++ codes "\n")))) }
    {
        if answered == wanted {
            self.held = self.held.saturating_add(1);
            return Ok(());
        }
        self.others = self.others.saturating_add(1);
        put_failure(shown, row, answered)
    }

    /// Appends the line that says both numbers, and gives whether all rows hold.
    ///
    /// # Errors
    ///
    /// Memory was refused.
    pub fn end(&self, shown: &mut String) -> Result<bool, AllocError>
        ensures ok { IfOk result (λ is_good. is_good ≡ (self.now.others == 0)) }
        ensures line { OnOk result (string_bytes shown.new ≡ string_bytes shown.old
            ++ (decimal self.now.held ++ (codes " rows hold, "
            ++ (decimal self.now.others ++ codes " don't\n")))) }
    {
        let (held, others) = (self.held, self.others);
        write!(shown, "{held} rows hold, {others} don't\n")?;
        Ok(others == 0)
    }
}

// Appends a row that doesn't hold.
fn put_failure(shown: &mut String, row: &str, answered: &str) -> Result<(), AllocError>
    ensures { OnOk result (string_bytes shown.new ≡ string_bytes shown.old
        ++ (row.now ++ (codes "\n    answered: " ++ (answered.now ++ codes "\n")))) }
{
    write!(shown, "{row}\n    answered: {answered}\n")
}

// What this project says besides SPDX's files.

ghost use Rattle.std.specs.Prelude.{◌≡◌, [], Ok, Err, IfOk, IfErr, option_map, find, bytes_eq, string_bytes};
ghost use Rattle.std.specs.Option.{option_copied};
ghost use Rattle.serde_json.specs.View.{view};
ghost use Rattle.spdx_requirement.specs.Failures.{IfRefused};
ghost use Rattle.spdx_list.specs.Files.{ExtraRows, ReplacementRow, extras_of, extras_in};
ghost use Rattle.spdx_list.specs.Shown.{shown_extras};
ghost use Rattle.spdx_list.specs.declared.extras.Replacement.{Replacement};

use crate::error::{File, ListFault, Table};
use crate::json::value_of;
use crate::tables::item::table_at;
use serde_json::Value;
use spdx_requirement::failure::Failure;
use spdx_requirement::row::ImpreciseName;
use std::alloc::Global;

/// What to write in place of a name for which no other single name stands.
#[derive(Drop)]
pub struct Replacement {
    /// The deprecated name, as `GPL-2.0-with-classpath-exception`.
    pub name: String,
    /// What says the same, as `GPL-2.0-only WITH Classpath-exception-2.0`.
    pub write: String,
}

/// What SPDX's files don't say of their licences.
#[derive(Drop)]
pub struct Extras {
    /// The names of the copyleft licences. Those that no list has say nothing.
    pub copyleft: Vec<String>,
    /// Other spellings of licences' names.
    pub imprecise: Vec<ImpreciseName>,
    /// What to write in place of names.
    pub instead: Vec<Replacement>,
}

fn row_named<'x>(rows: &'x [Replacement], name: &str) -> Option<&'x Replacement>
    ensures { option_copied result
        ≡ find (λ (r : Replacement). bytes_eq (string_bytes r.name) name.now) rows.now }
{
    rows.iter().find(|row| row.name.as_str() == name)
}

impl Extras {
    /// No extras. Takes no memory.
    pub fn new(alloc: Global) -> Extras
        ensures { shown_extras result ≡ record { copyleft = []; imprecise = []; instead = [] } }
    {
        Extras {
            copyleft: Vec::new(alloc),
            imprecise: Vec::new(alloc),
            instead: Vec::new(alloc),
        }
    }

    /// Reads extras from JSON: an object with the keys `copyleft` (texts), `imprecise` (objects with
    /// the texts `prefix` and `name`) and `instead` (objects with the texts `name` and `write`).
    /// Other keys are ignored, and numbers may be floats; of a key that stands twice the last value
    /// counts.
    ///
    /// # Errors
    ///
    /// The first `ListFault` that applies, or that memory was refused.
    #[tactic(auto, unfolding(crate::specs::Files::extras_in))]
    pub fn from_json(alloc: Global, bytes: &[u8]) -> Result<Extras, Failure<ListFault>>
        ensures ok { IfOk result (λ x. extras_in bytes.now ≡ Ok (shown_extras x)) }
        ensures err { IfErr result (IfRefused (λ f. extras_in bytes.now ≡ Err f)) }
    {
        let value = value_of(alloc, File::Extras, bytes)?;
        from_value(alloc, &value)
    }

    /// What to write in place of the name, by the first row of just that name.
    pub fn replacement(&self, name: &str) -> Option<&str>
        ensures { option_copied result ≡ option_map (λ (r : ReplacementRow). r.write)
            (find (λ (r : ReplacementRow). bytes_eq r.name name.now)
            (shown_extras self.now).instead) }
    {
        let row = row_named(&self.instead, name)?;
        Some(row.write.as_str())
    }
}

fn from_value(alloc: Global, value: &Value) -> Result<Extras, Failure<ListFault>>
    ensures ok { IfOk result (λ x. extras_of (view value.now) ≡ Ok (shown_extras x)) }
    ensures err { IfErr result (IfRefused (λ f. extras_of (view value.now) ≡ Err f)) }
{
    let copyleft = table_at(alloc, value, Table::Copyleft, "copyleft")?;
    let imprecise = table_at(alloc, value, Table::Imprecise, "imprecise")?;
    let instead = table_at(alloc, value, Table::Instead, "instead")?;
    Ok(Extras {
        copyleft,
        imprecise,
        instead,
    })
}

// A checked catalogue.

ghost use Rattle.std.specs.Prelude.{◌≡◌, Ok, Err, IsTrue, IfOk, IfErr, string_bytes, map};
ghost use Rattle.std.specs.Result.{result_err};
ghost use Rattle.spdx_requirement.specs.Rows.{row_of, exception_of, imprecise_of, HasTextPrefixes};
ghost use Rattle.spdx_catalogue.specs.RowRules.{first_fault, is_well_formed};
ghost use Rattle.spdx_catalogue.specs.Reading as reading;
ghost use Rattle.spdx_catalogue.specs.Reading.{catalogue_in};
ghost use Rattle.spdx_requirement.specs.Failures.{IfRefused};

use crate::checks::first_fault;
use crate::error::{CatalogueError, ReadFault};
use crate::index::{Index, index_of};
use spdx_requirement::failure::Failure;
use spdx_requirement::row::{Exception, ImpreciseName, License};
use spdx_tables::{TableFault, Tables};
use std::alloc::Global;
use std::marker::Model;

/// Licences, exceptions and imprecise names that break no rule of `CatalogueError`.
///
/// The ids that its look-ups answer borrow their row from it.
#[derive(Drop)]
pub struct Catalogue {
    pub(crate) version: String,
    pub(crate) licenses: Vec<License>,
    pub(crate) exceptions: Vec<Exception>,
    pub(crate) imprecise: Vec<ImpreciseName>,
    pub(crate) license_index: Option<Index>,
    pub(crate) exception_index: Option<Index>,
    pub(crate) prefix_index: Option<Index>,
}

impl Model for Catalogue {
    ghost use Rattle.spdx_requirement.specs.Rows.{Rows};

    ghost Value = { Rows };

    ghost use Rattle.spdx_catalogue.specs.CatalogueModel.{rows_shown, IsWellFormed};

    ghost view = { rows_shown };

    ghost invariant = { IsWellFormed };
}

impl Catalogue {
    /// The catalogue of these rows. Of each row it notes twelve bytes, by which the look-ups find
    /// it; where memory for them is refused, a look-up goes over the rows.
    ///
    /// # Errors
    ///
    /// The first rule that a row breaks, in the order that `CatalogueError` states.
    pub fn new(
        version: String,
        licenses: Vec<License>,
        exceptions: Vec<Exception>,
        imprecise: Vec<ImpreciseName>,
    ) -> Result<Catalogue, CatalogueError>
        ensures fault { result_err result
            ≡ first_fault (record {
              version = string_bytes version;
              licenses = map row_of licenses.items;
              exceptions = map exception_of exceptions.items;
              imprecise = map imprecise_of imprecise.items;
            }) }
        ensures rows { IfOk result (λ c. c
            ≡ record {
              version = string_bytes version;
              licenses = map row_of licenses.items;
              exceptions = map exception_of exceptions.items;
              imprecise = map imprecise_of imprecise.items;
            }) }
    {
        let alloc = *licenses.allocator();
        let license_index = index_of(alloc, &licenses);
        match first_fault(
            version.as_str(),
            &licenses,
            &license_index,
            &exceptions,
            &imprecise,
        ) {
            Some(fault) => Err(fault),
            None => {
                let exception_index = index_of(alloc, &exceptions);
                let prefix_index = index_of(alloc, &imprecise);
                Ok(Catalogue {
                    version,
                    licenses,
                    exceptions,
                    imprecise,
                    license_index,
                    exception_index,
                    prefix_index,
                })
            }
        }
    }

    /// Reads a catalogue from JSON: an object with the keys `version` (a string), `licenses`
    /// (objects with the strings `name` and `full_name`, and `flags`, a whole number to 255),
    /// `exceptions` (objects with `name` and `flags`) and `imprecise` (objects with the strings
    /// `prefix` and `name`). Other keys are ignored; of a key that stands twice the last value
    /// counts; a row's index is its position.
    ///
    /// # Errors
    ///
    /// The first `ReadFault` that applies, or that memory was refused.
    pub fn from_json(alloc: Global, bytes: &[u8]) -> Result<Catalogue, Failure<ReadFault>>
        ensures ok { IfOk result (λ c. catalogue_in bytes.now ≡ Ok c) }
        ensures err { IfErr result (IfRefused (λ f. catalogue_in bytes.now ≡ Err f)) }
    {
        let tables = match Tables::from_json(alloc, bytes) {
            Ok(tables) => tables,
            Err(Failure::Refused(fault)) => return Err(Failure::Refused(read_fault(fault))),
            Err(Failure::Memory(error)) => return Err(Failure::Memory(error)),
        };
        match Catalogue::new(
            tables.version,
            tables.licenses,
            tables.exceptions,
            tables.imprecise,
        ) {
            Ok(catalogue) => Ok(catalogue),
            Err(fault) => Err(Failure::Refused(ReadFault::Catalogue(fault))),
        }
    }

    /// The version of the licence list that the catalogue was made of.
    pub fn license_version(&self) -> &str
        ensures { result.now ≡ self.now.version }
    {
        self.version.as_str()
    }

    /// The licences, in the order of their names.
    pub fn licenses(&self) -> &[License]
        ensures { map row_of result.now ≡ self.now.licenses }
    {
        self.licenses.as_slice()
    }

    /// The exceptions, in the order of their names.
    pub fn exceptions(&self) -> &[Exception]
        ensures { map exception_of result.now ≡ self.now.exceptions }
    {
        self.exceptions.as_slice()
    }

    /// The imprecise names, in their order.
    pub fn imprecise_names(&self) -> &[ImpreciseName]
        ensures { map imprecise_of result.now ≡ self.now.imprecise }
    {
        self.imprecise.as_slice()
    }

    /// States that the rows of every catalogue break no rule. Does nothing when it runs.
    pub fn is_well_formed(&self)
        ensures { IsTrue (is_well_formed self.now) }
    {
        let _ = &self.version;
    }

    /// States that the prefix of every imprecise name is UTF-8. Does nothing when it runs.
    pub fn has_text_prefixes(&self)
        ensures { HasTextPrefixes self.now }
    {
        let _ = &self.imprecise;
    }
}

// Bytes that hold no tables hold no catalogue.
fn read_fault(fault: TableFault) -> ReadFault
    ensures { result ≡ reading.read_fault fault }
{
    match fault {
        TableFault::NotJson => ReadFault::NotJson,
        TableFault::Float => ReadFault::Float,
        TableFault::Shape(field) => ReadFault::Shape(field),
    }
}

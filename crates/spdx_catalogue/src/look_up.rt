// The look-ups, none of which takes memory or copies a name.

ghost use Rattle.std.specs.Prelude.{◌≡◌, ◌<◌, ◌++◌, IsTrue, IfSome, IsCharBoundary, option_map, map, find, length, string_bytes};
ghost use Rattle.std.specs.Option.{option_copied};
ghost use Rattle.spdx_requirement.specs.Rows.{row_of, exception_of, imprecise_of};
ghost use Rattle.spdx_requirement.specs.Ids.{id_row, exception_row};
ghost use Rattle.spdx_catalogue.specs.Names.{without_plus, begins_caseless};
ghost use Rattle.spdx_catalogue.specs.LookUps.{listed, listed_exception, listed_caseless, listed_exception_caseless, imprecise_license, gnu_listed};

use crate::catalogue::Catalogue;
use crate::halving::joined;
use crate::index::{Sought, first, license_named};
use crate::names::without_plus;
use spdx_requirement::endings::{ending, has_suffix};
use spdx_requirement::id::{ExceptionId, LicenseId};
use spdx_requirement::row::{Exception, ImpreciseName, License};

impl Catalogue {
    fn license_named(&self, name: &[u8]) -> Option<&License>
        ensures { option_map row_of (option_copied result) ≡ listed self.now.licenses name.now }
    {
        license_named(&self.licenses, &self.license_index, name)
    }

    fn license_joined(&self, front: &[u8], ending: &[u8]) -> Option<&License>
        ensures { option_map row_of (option_copied result)
            ≡ listed self.now.licenses (front.now ++ ending.now) }
    {
        joined(&self.licenses, front, ending)
    }

    fn exception_named(&self, name: &[u8]) -> Option<&Exception>
        ensures { option_map exception_of (option_copied result)
            ≡ listed_exception self.now.exceptions name.now }
    {
        first(&self.exceptions, &self.exception_index, Sought::Named(name))
    }

    fn license_caseless(&self, name: &str) -> Option<&License>
        ensures { option_map row_of (option_copied result)
            ≡ listed_caseless self.now.licenses name.now }
    {
        first(&self.licenses, &self.license_index, Sought::Alike(name))
    }

    fn exception_caseless(&self, name: &str) -> Option<&Exception>
        ensures { option_map exception_of (option_copied result)
            ≡ listed_exception_caseless self.now.exceptions name.now }
    {
        first(&self.exceptions, &self.exception_index, Sought::Alike(name))
    }

    fn imprecise_name(&self, text: &str) -> Option<&ImpreciseName>
        ensures value { option_map imprecise_of (option_copied result)
            ≡ find (λ m. begins_caseless m.prefix text.now) self.now.imprecise }
        ensures taken { IfSome result (λ m. 0 < length (string_bytes m.now.prefix)) }
    {
        first(&self.imprecise, &self.prefix_index, Sought::Front(text))
    }

    /// The licence of that name, every `+` at the name's end taken off.
    pub fn license_id(&self, name: &str) -> Option<LicenseId<'_>>
        ensures { option_map id_row result ≡ listed self.now.licenses (without_plus name.now) }
    {
        self.license_named(without_plus(name.as_bytes()))
            .map(|row| LicenseId::new(row))
    }

    /// The exception of that name, of which nothing is taken off.
    pub fn exception_id(&self, name: &str) -> Option<ExceptionId<'_>>
        ensures { option_map exception_row result ≡ listed_exception self.now.exceptions name.now }
    {
        self.exception_named(name.as_bytes())
            .map(|row| ExceptionId::new(row))
    }

    /// The GNU licence of a base name: `base` itself if it ends in `-only` or `-or-later`, as by
    /// `license_id`; else `base` followed by `-or-later` where `or_later`, by `-only` otherwise.
    pub fn gnu_license_id(&self, base: &str, or_later: bool) -> Option<LicenseId<'_>>
        ensures { option_map id_row result ≡ gnu_listed self.now.licenses base.now or_later }
    {
        let name = base.as_bytes();
        let row = if has_suffix(name) {
            self.license_named(without_plus(name))
        } else {
            self.license_joined(name, ending(or_later))
        };
        row.map(|row| LicenseId::new(row))
    }

    /// The licence that the first imprecise name means with which the text begins, the case of
    /// ASCII letters aside, and how many bytes of the text that name takes. Only the imprecise names
    /// with the same first three bytes are compared; all of them, where one is shorter.
    pub fn imprecise_license_id(&self, text: &str) -> Option<(LicenseId<'_>, usize)>
        ensures value { option_map (λ f. (id_row f.0, f.1)) result
            ≡ imprecise_license self.now text.now }
        ensures cut { IfSome result (λ f. IsCharBoundary text.now f.1) }
        ensures taken { IfSome result (λ f. 0 < f.1) }
    {
        let name = self.imprecise_name(text)?;
        let row = self.license_named(name.name.as_bytes())?;
        Some((LicenseId::new(row), name.prefix.len()))
    }

    /// The first licence whose name it is, the case of ASCII letters aside; nothing is taken off.
    pub fn license_id_caseless(&self, name: &str) -> Option<LicenseId<'_>>
        ensures { option_map id_row result ≡ listed_caseless self.now.licenses name.now }
    {
        self.license_caseless(name).map(|row| LicenseId::new(row))
    }

    /// The first exception whose name it is, the case of ASCII letters aside; nothing is taken
    /// off.
    pub fn exception_id_caseless(&self, name: &str) -> Option<ExceptionId<'_>>
        ensures { option_map exception_row result
            ≡ listed_exception_caseless self.now.exceptions name.now }
    {
        self.exception_caseless(name)
            .map(|row| ExceptionId::new(row))
    }
}

// Licensees, one on each line.

ghost use Rattle.std.specs.Prelude.{◌≡◌, ◌∷◌, ◌++◌, IfOk, IfErr, IfSome, IsNone, length};
ghost use Rattle.line_engine.specs.Lines.{lines_of, HasNoNewline};
ghost use Rattle.spdx_licensee.specs.LicenseeText.{Names};
ghost use Rattle.spdx_requirement.specs.Items.{requirement_of};
ghost use Rattle.spdx_calls.specs.Faults.{IsFaultOfLine, IsLicenseesFault};
ghost use Rattle.spdx_calls.specs.Licensees.{AreNamed, accepts};

use crate::fault::{CallFault, refused_at};
use memchr::memchr;
use spdx_catalogue::{Catalogue, Failure, LicenseReq};
use spdx_licensee::Licensee;
use std::alloc::Global;

// The bytes before the first newline, and those behind it.
fn split_line(bytes: &[u8]) -> Option<(&[u8], &[u8])>
    ensures some { IfSome result (λ parts.
        (bytes.now ≡ parts.0.now ++ 10 ∷ parts.1.now) × HasNoNewline parts.0.now) }
    ensures none { IsNone result → HasNoNewline bytes.now }
{
    let end = memchr(b'\n', bytes)?;
    Some((&bytes[..end], &bytes[end + 1..]))
}

// The licensee that a line names; it has this number.
fn read_licensee<'c>(
    alloc: Global,
    catalogue: &'c Catalogue,
    line: &[u8],
    number: usize,
) -> Result<Licensee<'c>, CallFault>
    ensures ok { IfOk result (λ licensee. Names catalogue.now line.now licensee) }
    ensures err { IfErr result (IsFaultOfLine catalogue.now line.now number) }
{
    match str::from_utf8(line) {
        Ok(text) => read_name(alloc, catalogue, text, number),
        Err(_) => Err(CallFault::LicenseeNotText(number)),
    }
}

// The licensee that a text names; it has this number.
fn read_name<'c>(
    alloc: Global,
    catalogue: &'c Catalogue,
    text: &str,
    number: usize,
) -> Result<Licensee<'c>, CallFault>
    ensures ok { IfOk result (λ licensee. Names catalogue.now text.now licensee) }
    ensures err { IfErr result (IsFaultOfLine catalogue.now text.now number) }
{
    match Licensee::parse(alloc, catalogue, text) {
        Ok(licensee) => Ok(licensee),
        Err(Failure::Refused(error)) => Err(CallFault::Licensee(number, refused_at(&error))),
        Err(Failure::Memory(_)) => Err(CallFault::Memory),
    }
}

// The licensees that the lines name.
pub(crate) fn read_licensees<'c>(
    alloc: Global,
    catalogue: &'c Catalogue,
    names: &[u8],
) -> Result<Vec<Licensee<'c>>, CallFault>
    ensures ok { IfOk result (λ licensees.
        AreNamed catalogue.now (lines_of names.now) licensees.items) }
    ensures err { IfErr result (IsLicenseesFault catalogue.now (lines_of names.now)) }
{
    let mut licensees = Vec::new(alloc);
    let mut rest = names;
    while let Some((line, behind)) = split_line(rest) {
        let licensee = read_licensee(alloc, catalogue, line, licensees.len())?;
        licensees.push(licensee)?;
        rest = behind;
    }
    if rest.is_empty() {
        return Ok(licensees);
    }
    let last = read_licensee(alloc, catalogue, rest, licensees.len())?;
    licensees.push(last)?;
    Ok(licensees)
}

// Whether some licensee satisfies the requirement.
pub(crate) fn is_accepted(accepted: &[Licensee<'_>], req: &LicenseReq<'_>) -> bool
    ensures { result ≡ accepts accepted.now (requirement_of req.now) }
{
    accepted.iter().any(|licensee| licensee.satisfies(req))
}

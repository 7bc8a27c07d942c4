// Each caller once, over a catalogue of three licences.

use crate::attribution::named_licenses;
use crate::explainer::refused_places;
use crate::gate::may_use;
use crate::linter::better_text;
use spdx::{Catalogue, CatalogueError, Error, Expression, Licensee, MinimizeError, ReadFault};
use std::alloc::{AllocError, Global};
use std::test::Fail;

const ROWS: &[u8] = b"{\"version\":\"a\",\"licenses\":[\
    {\"name\":\"Apache-2.0\",\"full_name\":\"Apache License 2.0\",\"flags\":3},\
    {\"name\":\"MIT\",\"full_name\":\"MIT License\",\"flags\":3},\
    {\"name\":\"Zlib\",\"full_name\":\"zlib License\",\"flags\":3}],\
    \"exceptions\":[],\"imprecise\":[]}";

fn accepted<'c>(alloc: Global, catalogue: &'c Catalogue) -> Result<Vec<Licensee<'c>>, Fail> {
    let mut accepted = Vec::new(alloc);
    for name in ["MIT", "Zlib"] {
        accepted.push(Licensee::parse(alloc, catalogue, name)?)?;
    }
    Ok(accepted)
}

#[test]
fn a_gate(rt: HostRuntime) -> Result<(), Fail> {
    let alloc = rt.alloc();
    let catalogue = Catalogue::from_json(alloc, ROWS)?;
    let accepted = accepted(alloc, &catalogue)?;
    assert!(rt; may_use(alloc, &catalogue, &accepted, "MIT OR Apache-2.0")?);
    assert!(rt; !may_use(alloc, &catalogue, &accepted, "MIT AND Apache-2.0")?);
    Ok(())
}

#[test]
fn a_linter(rt: HostRuntime) -> Result<(), Fail> {
    let alloc = rt.alloc();
    let catalogue = Catalogue::from_json(alloc, ROWS)?;
    let better = better_text(alloc, &catalogue, "mit/Zlib")?;
    assert!(rt; matches!(&better, Some(text) if text.as_str() == "MIT OR Zlib"));
    assert!(rt; better_text(alloc, &catalogue, "MIT OR Zlib")?.is_none());
    match better_text(alloc, &catalogue, "MIT License") {
        Err(error) => {
            let said = format!(in alloc; "{error}")?;
            assert_eq!(rt; said.as_str(), "MIT License\n    ^^^^^^^ unknown term");
        }
        Ok(_) => assert!(rt; false),
    }
    Ok(())
}

#[test]
fn a_page(rt: HostRuntime) -> Result<(), Fail> {
    let alloc = rt.alloc();
    let catalogue = Catalogue::from_json(alloc, ROWS)?;
    let accepted = accepted(alloc, &catalogue)?;
    let named = named_licenses(alloc, &catalogue, &accepted, "Zlib OR MIT")?;
    assert_eq!(rt; named.len(), 1);
    let first = format!(in alloc; "{}", named[0])?;
    assert_eq!(rt; first.as_str(), "MIT");
    match named_licenses(alloc, &catalogue, &accepted, "Apache-2.0") {
        Err(error) => assert_eq!(rt; error, Error::Minimize(MinimizeError::RequirementsUnmet)),
        Ok(_) => assert!(rt; false),
    }
    Ok(())
}

#[test]
fn an_explainer(rt: HostRuntime) -> Result<(), Fail> {
    let alloc = rt.alloc();
    let catalogue = Catalogue::from_json(alloc, ROWS)?;
    let accepted = accepted(alloc, &catalogue)?;
    let both = Expression::parse(alloc, &catalogue, "MIT AND Apache-2.0")?;
    let places = refused_places(alloc, &accepted, &both)?;
    assert_eq!(rt; places.len(), 1);
    assert_eq!(rt; places[0], 8..18);
    let either = Expression::parse(alloc, &catalogue, "MIT OR Apache-2.0")?;
    assert!(rt; refused_places(alloc, &accepted, &either)?.is_empty());
    Ok(())
}

#[test]
fn errors_print_what_they_hold(rt: HostRuntime) -> Result<(), Fail> {
    let rows = [
        (Error::from(ReadFault::NotJson), "not JSON"),
        (
            Error::from(CatalogueError::EmptyPrefix(2)),
            "imprecise row 2: empty prefix",
        ),
        (
            Error::from(MinimizeError::TooManyRequirements(1025)),
            "the license expression required 1025 licensees which exceeds the limit of 1024",
        ),
        (Error::from(AllocError), "out of memory"),
    ];
    for (error, text) in &rows {
        let said = format!(in rt.alloc(); "{error}")?;
        assert_eq!(rt; said.as_str(), *text);
    }
    Ok(())
}

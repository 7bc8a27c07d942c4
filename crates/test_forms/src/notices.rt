// A page in each form: names that would be markup or that would be obeyed, names that are wide or long, a package twice with
// two choices, and texts with fences, ends of lines of Windows and a blank line at the front. In JSON two texts have packages
// below them, one of which stands under no requirement. The last page of HTML has no texts.

mod texts;

use crate::notices::texts::text_of;
use license_notice::{Package, Release, Requirement, notice_of, packages_in};
use notice_forms::{Format, LicenseText, Page, put_page};
use std::alloc::{AllocError, Global};

/// Appends the page of the packages in each form.
pub(crate) fn put_pages(alloc: Global, page: &mut Vec<u8>) -> Result<(), AllocError> {
    let wants = [
        String::from_str(alloc, "Apache-2.0")?,
        String::from_str(alloc, "LLVM-exception")?,
        String::from_str(alloc, "ISC")?,
        String::from_str(alloc, "MIT")?,
        String::from_str(alloc, "Unicode-3.0")?,
        String::from_str(alloc, "LicenseRef-\"x\"<b>")?,
    ];
    put_all(alloc, page, &wants)
}

// Those from the one place up to the other.
fn part(wants: &[String], from: usize, to: usize) -> &[String] {
    match wants.get(from..to) {
        Some(part) => part,
        None => wants,
    }
}

// Appends the pages of packages that want these texts.
fn put_all(alloc: Global, page: &mut Vec<u8>, wants: &[String]) -> Result<(), AllocError> {
    let choices = [
        Requirement {
            name: "Apache-2.0",
            texts: part(wants, 0, 1),
        },
        Requirement {
            name: "ISC",
            texts: part(wants, 2, 3),
        },
        Requirement {
            name: "MIT",
            texts: part(wants, 3, 4),
        },
        Requirement {
            name: "Unicode-3.0",
            texts: part(wants, 4, 5),
        },
        Requirement {
            name: "Apache-2.0 WITH LLVM-exception",
            texts: part(wants, 0, 2),
        },
        Requirement {
            name: "LicenseRef-\"x\"<b>",
            texts: part(wants, 5, 6),
        },
    ];
    let packages = [
        Package {
            name: "serde",
            version: "1.0.228",
            choice: &choices[..1],
        },
        Package {
            name: "llvm-sys",
            version: "191.0.0",
            choice: &choices[4..5],
        },
        Package {
            name: "unicode-ident",
            version: "1.0.22",
            choice: &choices[3..4],
        },
        Package {
            name: "windows-sys",
            version: "0.9.0",
            choice: &choices[2..3],
        },
        Package {
            name: "windows-sys",
            version: "0.61.2",
            choice: &choices[2..3],
        },
        Package {
            name: "ring",
            version: "0.17.14",
            choice: &choices[..2],
        },
        Package {
            name: "ring",
            version: "0.17.14",
            choice: &choices[1..3],
        },
        Package {
            name: "<script>alert(1)</script>",
            version: "\"1\"",
            choice: &choices[2..3],
        },
        Package {
            name: "a\n## b `c` ``d``",
            version: "1\x1b[31m\u{202e}",
            choice: &choices[2..3],
        },
        Package {
            name: "漢字-パッケージ",
            version: "1.0.0-α.1+build.7",
            choice: &choices[2..3],
        },
        Package {
            name: "",
            version: "0",
            choice: &choices[5..],
        },
        Package {
            name: "left-pad",
            version: "",
            choice: &choices[5..],
        },
    ];
    for format in [Format::Text, Format::Markdown, Format::Html] {
        put_shown(alloc, page, format, &packages, &[])?;
    }
    put_shown(alloc, page, Format::Json, &packages, &HOLDERS)?;
    put_without_texts(alloc, page, &packages)
}

// Whose texts of ISC and of MIT those are in the document of JSON.
const HOLDERS: [Release<'static>; 3] = [
    Release {
        name: "elsewhere",
        version: "",
    },
    Release {
        name: "left-pad",
        version: "",
    },
    Release {
        name: "ring",
        version: "0.17.14",
    },
];

// The packages below a text.
fn holders_of<'h>(name: &str, holders: &'h [Release<'static>]) -> &'h [Release<'static>] {
    match (name, holders) {
        ("ISC", _) => holders,
        ("MIT", [_, _, last @ ..]) => last,
        _ => &[],
    }
}

fn put_without_texts(
    alloc: Global,
    page: &mut Vec<u8>,
    packages: &[Package<'_, '_>],
) -> Result<(), AllocError> {
    let notice = notice_of(alloc, packages)?;
    let turned = packages_in(alloc, notice.groups.as_slice())?;
    let shown = Page {
        title: "Without texts",
        groups: notice.groups.as_slice(),
        packages: turned.as_slice(),
        texts: &[],
    };
    match put_page(alloc, page, Format::Html, &shown) {
        Ok(()) => Ok(()),
        Err(_) => Err(AllocError),
    }
}

fn put_shown(
    alloc: Global,
    page: &mut Vec<u8>,
    format: Format,
    packages: &[Package<'_, '_>],
    holders: &[Release<'static>],
) -> Result<(), AllocError> {
    let notice = notice_of(alloc, packages)?;
    let turned = packages_in(alloc, notice.groups.as_slice())?;
    let mut texts = Vec::new(alloc);
    for name in notice.texts.as_slice() {
        texts.push(LicenseText {
            name,
            packages: holders_of(name, holders),
            bytes: text_of(name).unwrap_or("").as_bytes(),
        })?;
    }
    let shown = Page {
        title: "Third-party licences",
        groups: notice.groups.as_slice(),
        packages: turned.as_slice(),
        texts: texts.as_slice(),
    };
    match put_page(alloc, page, format, &shown) {
        Ok(()) => Ok(()),
        Err(_) => Err(AllocError),
    }
}

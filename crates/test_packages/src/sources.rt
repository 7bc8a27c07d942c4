// The packages of files in each form.
//
// Files stand each behind a line `== FORM` or `== FORM FOLDER`, or `== at EACH NAME LICENSE` for JSON at pointers, in which `-`
// is the empty pointer and VERSION may stand last. With `== shape` the form is that which the shape of the file tells. Behind
// `== shared FORM` each line is a file, and the references are shown that two have. A character U+FFFD stands for the byte FF.

use package_files::shared_references;
use package_sources::{
    Form, License, Package, Pointers, SourceError, Spot, guessed_form, packages, packages_at,
};
use std::alloc::{AllocError, Global};

/// Appends what is read of each file.
pub(crate) fn put_files(alloc: Global, shown: &mut String, text: &str) -> Result<(), AllocError> {
    let files = files_of(alloc, text)?;
    for file in &files {
        put_file(alloc, shown, file)?;
    }
    Ok(())
}

// The words behind a file's `==`, and its bytes.
#[derive(Drop)]
struct File {
    words: Vec<String>,
    bytes: Vec<u8>,
}

// The files of the text.
fn files_of(alloc: Global, text: &str) -> Result<Vec<File>, AllocError> {
    let mut files: Vec<File> = Vec::new(alloc);
    for line in text.split('\n') {
        if let Some(head) = line.strip_prefix("== ") {
            files.push(new_file(alloc, head)?)?;
        } else if let Some(file) = files.last_mut() {
            put_line(&mut file.bytes, line)?;
        }
    }
    Ok(files)
}

fn new_file(alloc: Global, head: &str) -> Result<File, AllocError> {
    let mut words = Vec::new(alloc);
    for word in head.split(' ') {
        let word = if word == "-" { "" } else { word };
        words.push(String::from_str(alloc, word)?)?;
    }
    Ok(File {
        words,
        bytes: Vec::new(alloc),
    })
}

fn put_line(bytes: &mut Vec<u8>, line: &str) -> Result<(), AllocError> {
    for letter in line.chars() {
        if letter == '\u{fffd}' {
            bytes.push(0xff)?;
        } else {
            let mut buffer = [0u8; 4];
            bytes.extend_from_slice(letter.encode_utf8(&mut buffer).as_bytes())?;
        }
    }
    Ok(bytes.push(b'\n')?)
}

fn form_of_word(word: &str) -> Form {
    match word {
        "license-checker" => Form::LicenseChecker,
        "pnpm" => Form::Pnpm,
        "spdx-3" => Form::SpdxThree,
        "metadata" => Form::Metadata,
        "tsv" => Form::Tsv { header: false },
        "tsv-header" => Form::Tsv { header: true },
        "csv" => Form::Csv { header: false },
        "csv-header" => Form::Csv { header: true },
        "verdicts" => Form::Verdicts,
        "cargo" => Form::Cargo,
        "npm" => Form::Npm,
        "composer" => Form::Composer,
        "pip" => Form::Pip,
        "cyclonedx" => Form::CycloneDx,
        "spdx" => Form::Spdx,
        _ => Form::Lines,
    }
}

fn read(alloc: Global, file: &File) -> Result<Vec<Package>, SourceError> {
    let bytes = file.bytes.as_slice();
    match file.words.as_slice() {
        [word] if word.as_str() == "shape" => packages(
            alloc,
            guessed_form(alloc, bytes)?,
            "",
            bytes,
        ),
        [_, each, name, license] => at_pointers(alloc, [each, name, license], None, bytes),
        [_, each, name, license, version] => {
            at_pointers(alloc, [each, name, license], Some(version.as_str()), bytes)
        }
        [word, folder] => packages(alloc, form_of_word(word.as_str()), folder.as_str(), bytes),
        [word, ..] => packages(alloc, form_of_word(word.as_str()), "", bytes),
        [] => packages(alloc, Form::Lines, "", bytes),
    }
}

fn at_pointers(
    alloc: Global,
    pointers: [&String; 3],
    version: Option<&str>,
    bytes: &[u8],
) -> Result<Vec<Package>, SourceError> {
    let [each, name, license] = pointers;
    let pointers = Pointers {
        each: each.as_str(),
        name: name.as_str(),
        version,
        license: license.as_str(),
    };
    packages_at(alloc, &pointers, bytes)
}

// Appends the form that the shape of a file tells, if it is asked for.
fn put_shape(alloc: Global, shown: &mut String, file: &File) -> Result<(), AllocError> {
    if let [word] = file.words.as_slice()
        && word.as_str() == "shape"
        && let Ok(form) = guessed_form(alloc, file.bytes.as_slice())
    {
        let line = format!(in alloc; "as {form:?}\n")?;
        shown.push_str(line.as_str())?;
    }
    Ok(())
}

// Appends the form of a file, and its packages, each with its license in brackets and its place, or why it has none.
fn put_file(alloc: Global, shown: &mut String, file: &File) -> Result<(), AllocError> {
    shown.push_str("==")?;
    for word in &file.words {
        shown.push(' ')?;
        shown.push_str(if word.is_empty() { "-" } else { word.as_str() })?;
    }
    shown.push('\n')?;
    put_shape(alloc, shown, file)?;
    match put_read(alloc, shown, file) {
        Ok(()) => Ok(()),
        Err(error) => {
            let line = format!(in alloc; "refused: {error}\n")?;
            shown.push_str(line.as_str())
        }
    }
}

fn put_read(alloc: Global, shown: &mut String, file: &File) -> Result<(), SourceError> {
    if let [word, form] = file.words.as_slice()
        && word.as_str() == "shared"
    {
        return put_shared(
            alloc,
            shown,
            form_of_word(form.as_str()),
            file.bytes.as_slice(),
        );
    }
    for package in &read(alloc, file)? {
        put_package(alloc, shown, package)?;
    }
    Ok(())
}

// Appends the references that two documents have, each of which is a file of this form on a line of its own.
fn put_shared(
    alloc: Global,
    shown: &mut String,
    form: Form,
    bytes: &[u8],
) -> Result<(), SourceError> {
    let mut files = Vec::new(alloc);
    for line in bytes.split(|byte| *byte == b'\n') {
        if !line.is_empty() {
            files.push(packages(alloc, form, "", line)?)?;
        }
    }
    let mut documents = Vec::new(alloc);
    for packages in &files {
        documents.push(packages.as_slice())?;
    }
    let shared = shared_references(alloc, &documents)?;
    for reference in shared {
        shown.push_str(reference)?;
        shown.push('\n')?;
    }
    Ok(())
}

fn put_package(alloc: Global, shown: &mut String, package: &Package) -> Result<(), AllocError> {
    shown.push_str(package.name.as_str())?;
    if let Some(version) = &package.version {
        shown.push(' ')?;
        shown.push_str(version.as_str())?;
    }
    match &package.license {
        License::Stated(text) => {
            shown.push_str(" [")?;
            shown.push_str(text.as_str())?;
            shown.push(']')?;
        }
        License::Unstated => shown.push_str(" unstated")?,
    }
    put_rest(alloc, shown, package)
}

// Appends each file that the license is said to stand in, and the folder of the package.
fn put_place(shown: &mut String, package: &Package) -> Result<(), AllocError> {
    for file in &package.license_files {
        shown.push_str(" in ")?;
        shown.push_str(file.as_str())?;
    }
    if let Some(folder) = &package.folder {
        shown.push_str(" below ")?;
        shown.push_str(folder.as_str())?;
    }
    Ok(())
}

fn put_rest(alloc: Global, shown: &mut String, package: &Package) -> Result<(), AllocError> {
    put_place(shown, package)?;
    if package.evidence != 0 {
        let count = package.evidence;
        shown.push_str(format!(in alloc; " evidence {count}")?.as_str())?;
    }
    if package.is_own {
        shown.push_str(" own")?;
    }
    let place = match &package.spot {
        Spot::Line(number) => format!(in alloc; " on line {number}\n")?,
        Spot::Record(number) => format!(in alloc; " in record {number}\n")?,
        Spot::Pointer(at) if at.is_empty() => String::from_str(alloc, " at the top\n")?,
        Spot::Pointer(at) => format!(in alloc; " at {at}\n")?,
    };
    shown.push_str(place.as_str())
}

// What comes of the words of a command line, over a shelf of values: what both outputs have, and the status.
//
// The first rows are the shelf's files, as `shelf` reads them. A row `WORD WORD .. => ANSWER`, where a word in single quotes may have
// blanks, has the status; what is written, in quotes; behind a semicolon each file that takes other bytes, and these; and in
// brackets each line of standard error, that of totals last. `read back` stands in the place of a list that is made, and `no request`
// says that the words are refused. In a word `\e` is the byte that begins a terminal's commands.

use crate::desk::Desk;
use crate::parts::fixes::put_quoted;
use crate::parts::mends::{Places, put_places};
use crate::shelf::{REPLACEMENTS, inside};
use check_program::Inside;
use line_engine::stream::Output;
use shelves::{Held, HeldFile};
use spdx_catalogue::Catalogue;
use spdx_program::{Screen, Teller, serve};
use spdx_words::{Request, read};
use std::alloc::{AllocError, Global};

// Neither colours, nor how far a walk is.
const PLAIN: Screen = Screen {
    colours: false,
    progress: false,
};

pub(crate) fn answer(alloc: Global, shelf: &Held, given: &str) -> Result<String, AllocError> {
    let given = given.replace(alloc, "\\e", "\u{1b}")?;
    let words = words_in(alloc, given.as_str())?;
    match read(alloc, "0", words.as_slice()) {
        Ok(request) => told_of(alloc, shelf, &request),
        Err(_) => String::from_str(alloc, "no request"),
    }
}

// The words of a row, behind the program's name.
fn words_in(alloc: Global, given: &str) -> Result<Vec<String>, AllocError> {
    let mut words = Vec::new(alloc);
    words.push(String::from_str(alloc, "spdx")?)?;
    for (number, part) in given.split('\'').enumerate() {
        if number % 2 == 1 {
            words.push(String::from_str(alloc, part)?)?;
        } else {
            push_words(alloc, &mut words, part)?;
        }
    }
    Ok(words)
}

fn push_words(alloc: Global, words: &mut Vec<String>, part: &str) -> Result<(), AllocError> {
    for word in part.split_ascii_whitespace() {
        words.push(String::from_str(alloc, word)?)?;
    }
    Ok(())
}

fn told_of(alloc: Global, shelf: &Held, request: &Request<'_>) -> Result<String, AllocError> {
    let desk = Desk::new(alloc, shelf);
    let mut places = Places::new(&desk);
    let mut written = Output::new(Vec::new(alloc));
    let mut teller = Teller {
        faults: Output::new(Vec::new(alloc)),
        screen: PLAIN,
    };
    let inside = Inside {
        list: inside(),
        replacements: REPLACEMENTS.as_bytes(),
        version: "0",
    };
    let status = serve(
        alloc,
        &desk,
        inside,
        request,
        &mut places,
        &mut written,
        &mut teller,
    );
    let Teller { faults, .. } = teller;
    let ended = Ended {
        status,
        written: written.into_inner(),
        put: desk.into_put(),
        faults: faults.into_inner(),
    };
    ended.told(alloc, request)
}

// What came of a command: what it wrote, which bytes files were to take, and what standard error has.
#[derive(Drop)]
struct Ended {
    status: u8,
    written: Vec<u8>,
    put: Vec<HeldFile>,
    faults: Vec<u8>,
}

impl Ended {
    fn told(&self, alloc: Global, request: &Request<'_>) -> Result<String, AllocError> {
        let status = self.status;
        let mut said = format!(in alloc; "{status} ")?;
        put_written(alloc, &mut said, request, &self.written)?;
        put_places(&mut said, &self.put)?;
        put_lines(alloc, &mut said, &self.faults)?;
        Ok(said)
    }
}

// Each line in brackets behind a blank.
fn put_lines(alloc: Global, said: &mut String, text: &[u8]) -> Result<(), AllocError> {
    for line in str::from_utf8(text).unwrap_or("no text").lines() {
        said.push_str(format!(in alloc; " [{line}]")?.as_str())?;
    }
    Ok(())
}

fn put_written(
    alloc: Global,
    said: &mut String,
    request: &Request<'_>,
    text: &[u8],
) -> Result<(), AllocError> {
    if matches!(request, Request::Make(_)) && Catalogue::from_json(alloc, text).is_ok() {
        said.push_str("read back")
    } else {
        put_quoted(said, text)
    }
}

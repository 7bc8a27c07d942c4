// Findings in each form.
//
// A row is `FILE|LINE|COLUMN|EXPRESSION|START|END|REASON|HELP`, in which `\t`, `\n`, `\r`, `\e`, `\d` and `\s` stand for a tab,
// a newline, a carriage return, ESC, U+202E, which turns the direction of text, and a backslash. HELP is `-` for none, `=TEXT`
// for a mended text, `RULE?NAME?NAME` for names, and `!WORDS` for a note. Behind it may stand `|LINE|COLUMN|TEXT|START|END`:
// where the fault is seen, in which text. Each finding is written in each form but SARIF, in which they follow as one log; at the
// end stand some totals.

use finding_forms::{
    Finding, Format, Help, Place, Sight, Style, put_beginning, put_ending, put_finding, put_totals,
};
use std::alloc::{AllocError, Global};

/// Appends the findings of the rows, and the totals.
pub(crate) fn put_rows(alloc: Global, shown: &mut Vec<u8>, text: &str) -> Result<(), AllocError> {
    let rows = rows_of(alloc, text)?;
    for row in &rows {
        put_lines(alloc, shown, row)?;
    }
    put_log(alloc, shown, rows.as_slice())?;
    put_sums(alloc, shown)
}

// The fields of a row, in its order, and the names that may be meant.
#[derive(Drop)]
struct Row {
    fields: Vec<String>,
    names: Vec<String>,
}

// The rows of the text, but for empty lines and those that begin with `#`.
fn rows_of(alloc: Global, text: &str) -> Result<Vec<Row>, AllocError> {
    let mut rows = Vec::new(alloc);
    for line in text.lines() {
        if line.is_empty() || line.starts_with('#') {
            continue;
        }
        let mut fields = Vec::new(alloc);
        for field in line.split('|') {
            fields.push(written_out(alloc, field)?)?;
        }
        let mut names = Vec::new(alloc);
        for name in line.split('?').skip(1) {
            names.push(written_out(alloc, name)?)?;
        }
        rows.push(Row { fields, names })?;
    }
    Ok(rows)
}

// The text that a field stands for.
fn written_out(alloc: Global, field: &str) -> Result<String, AllocError> {
    let mut text = String::new(alloc);
    let mut pieces = field.split('\\');
    text.push_str(pieces.next().unwrap_or(""))?;
    for piece in pieces {
        let mut letters = piece.chars();
        let letter = match letters.next() {
            Some('t') => '\t',
            Some('n') => '\n',
            Some('r') => '\r',
            Some('e') => '\x1b',
            Some('d') => '\u{202e}',
            Some(_) | None => '\\',
        };
        text.push(letter)?;
        text.push_str(letters.as_str())?;
    }
    Ok(text)
}

impl Row {
    fn field(&self, at: usize) -> &str {
        self.fields.get(at).map_or("", |field| field.as_str())
    }

    fn number(&self, at: usize) -> usize {
        self.field(at).parse::<usize>().unwrap_or(0)
    }
}

// Appends the finding of the row in each form but SARIF.
fn put_lines(alloc: Global, shown: &mut Vec<u8>, row: &Row) -> Result<(), AllocError> {
    let names = names_of(alloc, row)?;
    let finding = finding_of(row, names.as_slice());
    let forms = [
        Format::Human(Style::Plain),
        Format::Human(Style::Coloured),
        Format::Short,
        Format::Json,
        Format::Github,
    ];
    for format in forms {
        put_finding(alloc, shown, format, true, &finding)?;
    }
    shown.push(b'\n')?;
    Ok(())
}

// Appends the findings of the rows as one log.
fn put_log(alloc: Global, shown: &mut Vec<u8>, rows: &[Row]) -> Result<(), AllocError> {
    put_beginning(alloc, shown, Format::Sarif, "0.1 \"rows\"")?;
    for (at, row) in rows.iter().enumerate() {
        let names = names_of(alloc, row)?;
        let finding = finding_of(row, names.as_slice());
        put_finding(alloc, shown, Format::Sarif, at == 0, &finding)?;
    }
    put_ending(shown, Format::Sarif)
}

// Appends some lines of totals.
fn put_sums(alloc: Global, shown: &mut Vec<u8>) -> Result<(), AllocError> {
    for (expressions, files, refused) in [(7, 1, 2), (1, 2, 0), (0, 0, 0), (1, 1, 1)] {
        put_totals(alloc, shown, expressions, files, refused)?;
    }
    put_totals(alloc, shown, u64::MAX, u64::MAX, u64::MAX)
}

fn names_of(alloc: Global, row: &Row) -> Result<Vec<&str>, AllocError> {
    row.names.iter().map(|name| name.as_str()).collect(alloc)
}

// The finding that the row says.
fn finding_of<'t>(row: &'t Row, names: &'t [&'t str]) -> Finding<'t> {
    Finding {
        place: Place {
            file: row.field(0),
            line: row.field(1).parse::<u64>().unwrap_or(0),
            column: row.field(2).parse::<u64>().unwrap_or(0),
        },
        expression: row.field(3),
        start: row.number(4),
        end: row.number(5),
        reason: row.field(6),
        help: help_of(row, names),
        sight: sight_of(row),
    }
}

fn help_of<'t>(row: &'t Row, names: &'t [&'t str]) -> Help<'t> {
    let told = row.field(7);
    if let Some(mended) = told.strip_prefix('=') {
        return Help::Write(mended);
    }
    if let Some(words) = told.strip_prefix('!') {
        return Help::Note(words);
    }
    match told.split_once('?') {
        Some((rule, _)) => Help::Names { names, rule },
        None => Help::Nothing,
    }
}

// Where the fault is seen, if the row says it.
fn sight_of(row: &Row) -> Option<Sight<'_>> {
    if row.fields.len() < 13 {
        return None;
    }
    Some(Sight {
        line: row.field(8).parse::<u64>().unwrap_or(0),
        column: row.field(9).parse::<u64>().unwrap_or(0),
        text: row.field(10),
        start: row.number(11),
        end: row.number(12),
    })
}

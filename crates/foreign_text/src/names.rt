// Names of files in the header of a unified diff.

ghost use Rattle.std.specs.Prelude.{◌≡◌, ℕ, ◌++◌, List, OnOk, Some, flat_map};
ghost use Rattle.std.specs.List.{list_all, list_any};
ghost use Rattle.foreign_text.specs.Names.{header_name, shown_name, tab_for, is_blank, is_plain, letter_for, octal, quoted_byte, quoted, read_header_name, HeaderReadsBack};

use std::alloc::AllocError;

/// Appends a name as git writes it behind `--- ` and `+++ `, and the end of its line. A name of printed ASCII with no
/// quote and no backslash stands as it is; another stands in double quotes, with the escapes of C: a letter or three
/// octal digits for each byte that is not printed. A tab follows a name with a blank, so that no reader takes what stands
/// behind the blank for a time.
///
/// # Errors
///
/// Memory was refused, and of the name a beginning may have been appended.
pub fn put_header_name(text: &mut Vec<u8>, name: &str) -> Result<(), AllocError>
    ensures ok { OnOk result (text.new.items ≡ text.old.items ++ header_name name.now) }
    ensures reads_back { HeaderReadsBack name.now }
{
    put_shown(text, name.as_bytes())?;
    put_tab(text, name.as_bytes())?;
    text.extend_from_slice(b"\n")
}

fn put_shown(text: &mut Vec<u8>, bytes: &[u8]) -> Result<(), AllocError>
    ensures { OnOk result (text.new.items ≡ text.old.items ++ shown_name bytes.now) }
{
    if are_plain(bytes) {
        text.extend_from_slice(bytes)
    } else {
        put_quoted(text, bytes)
    }
}

fn put_tab(text: &mut Vec<u8>, bytes: &[u8]) -> Result<(), AllocError>
    ensures { OnOk result (text.new.items ≡ text.old.items ++ tab_for bytes.now) }
{
    if has_blank(bytes) {
        text.push(b'\t')?;
    }
    Ok(())
}

fn put_quoted(text: &mut Vec<u8>, bytes: &[u8]) -> Result<(), AllocError>
    ensures { OnOk result (text.new.items ≡ text.old.items ++ quoted bytes.now) }
{
    text.push(b'"')?;
    put_quoted_bytes(text, bytes)?;
    text.push(b'"')?;
    Ok(())
}

fn put_quoted_bytes(text: &mut Vec<u8>, bytes: &[u8]) -> Result<(), AllocError>
    ensures { OnOk result (
        text.new.items ≡ text.old.items ++ flat_map quoted_byte bytes.now) }
{
    for byte in bytes {
        put_quoted_byte(text, *byte)?;
    }
    Ok(())
}

fn put_quoted_byte(text: &mut Vec<u8>, byte: u8) -> Result<(), AllocError>
    ensures { OnOk result (text.new.items ≡ text.old.items ++ quoted_byte byte) }
{
    if is_plain(&byte) {
        text.push(byte)?;
        return Ok(());
    }
    text.push(b'\\')?;
    match letter_for(byte) {
        0 => put_octal(text, byte),
        letter => text.extend_from_slice(&[letter]),
    }
}

fn put_octal(text: &mut Vec<u8>, byte: u8) -> Result<(), AllocError>
    ensures { OnOk result (text.new.items ≡ text.old.items ++ octal byte) }
{
    text.push(b'0' + byte / 64)?;
    text.push(b'0' + byte / 8 % 8)?;
    text.push(b'0' + byte % 8)?;
    Ok(())
}

// The letter or sign that stands behind a backslash for the byte; 0 where three digits do.
fn letter_for(byte: u8) -> u8
    ensures { result ≡ letter_for byte }
{
    match byte {
        7 => b'a',
        8 => b'b',
        9 => b't',
        10 => b'n',
        11 => b'v',
        12 => b'f',
        13 => b'r',
        34 => b'"',
        92 => b'\\',
        _ => 0,
    }
}

fn are_plain(bytes: &[u8]) -> bool
    ensures { result ≡ list_all is_plain bytes.now }
{
    bytes.iter().all(is_plain)
}

fn has_blank(bytes: &[u8]) -> bool
    ensures { result ≡ list_any is_blank bytes.now }
{
    bytes.iter().any(is_blank)
}

fn is_plain(byte: &u8) -> bool
    ensures { result ≡ is_plain byte.now }
{
    matches!(*byte, b' '..=b'~') && *byte != b'"' && *byte != b'\\'
}

fn is_blank(byte: &u8) -> bool
    ensures { result ≡ is_blank byte.now }
{
    *byte == b' '
}

// What a text in the form of `spdx list make` holds next, taken from its tokens.

ghost use Rattle.std.specs.Prelude.{◌≡◌, ◌∷◌, ◌++◌, [], OnOk, IfOk, IfSome, decimal};
ghost use Rattle.std.specs.Option.{option_copied};
ghost use Rattle.spdx_tables.specs.Written.{last_tokens};
ghost use Rattle.json.specs.Token.{begin_object, end_object, begin_array, key as key_token, string, number};

use itoa::Buffer;
use json::{Reader, Token};
use spdx_requirement::failure::Failure;

/// The text has another form, and may be a list all the same.
#[derive(Drop)]
pub(crate) struct OtherForm;

#[inline(always)]
pub(crate) fn take_begin_object(reader: &mut Reader<'_>) -> Result<(), Failure<OtherForm>>
    ensures { OnOk result (reader.old ≡ begin_object ∷ reader.new) }
{
    match reader.next() {
        Some(Token::BeginObject) => Ok(()),
        _ => Err(Failure::Refused(OtherForm)),
    }
}

#[inline(always)]
pub(crate) fn take_end_object(reader: &mut Reader<'_>) -> Result<(), Failure<OtherForm>>
    ensures { OnOk result (reader.old ≡ end_object ∷ reader.new) }
{
    match reader.next() {
        Some(Token::EndObject) => Ok(()),
        _ => Err(Failure::Refused(OtherForm)),
    }
}

/// The date of the version, if it is written, and the brace behind it.
pub(crate) fn take_date<'a>(reader: &mut Reader<'a>) -> Result<Option<&'a str>, Failure<OtherForm>>
    ensures { IfOk result (λ date.
        reader.old ≡ last_tokens (option_copied date) ++ reader.new) }
{
    match reader.next() {
        Some(Token::EndObject) => Ok(None),
        Some(Token::Key(found)) if found == "version_date" => Ok(Some(take_last(reader)?)),
        _ => Err(Failure::Refused(OtherForm)),
    }
}

// A text, and the brace behind it.
fn take_last<'a>(reader: &mut Reader<'a>) -> Result<&'a str, Failure<OtherForm>>
    ensures { IfOk result (λ text.
        reader.old ≡ string text.now ∷ end_object ∷ reader.new) }
{
    match reader.next() {
        Some(Token::String(text)) => {
            take_end_object(reader)?;
            Ok(text)
        }
        _ => Err(Failure::Refused(OtherForm)),
    }
}

#[inline(always)]
fn take_key(reader: &mut Reader<'_>, key: &str) -> Result<(), Failure<OtherForm>>
    ensures { OnOk result (reader.old ≡ key_token key.now ∷ reader.new) }
{
    match reader.next() {
        Some(Token::Key(found)) if found == key => Ok(()),
        _ => Err(Failure::Refused(OtherForm)),
    }
}

/// The key, and the bracket that opens its array.
pub(crate) fn take_begin_array(reader: &mut Reader<'_>, key: &str) -> Result<(), Failure<OtherForm>>
    ensures { OnOk result (reader.old ≡ key_token key.now ∷ begin_array ∷ reader.new) }
{
    take_key(reader, key)?;
    match reader.next() {
        Some(Token::BeginArray) => Ok(()),
        _ => Err(Failure::Refused(OtherForm)),
    }
}

/// The key, and the text at it.
pub(crate) fn take_text<'a>(
    reader: &mut Reader<'a>,
    key: &str,
) -> Result<&'a str, Failure<OtherForm>>
    ensures { IfOk result (λ text.
        reader.old ≡ key_token key.now ∷ string text.now ∷ reader.new) }
{
    take_key(reader, key)?;
    match reader.next() {
        Some(Token::String(text)) => Ok(text),
        _ => Err(Failure::Refused(OtherForm)),
    }
}

// The number that is written so: in decimal, with nothing more.
fn byte_written(digits: &str) -> Option<u8>
    ensures { IfSome result (λ n. digits.now ≡ decimal n) }
{
    let byte = digits.parse::<u8>().ok()?;
    let mut buffer = Buffer::new();
    if buffer.format(byte) == digits {
        Some(byte)
    } else {
        None
    }
}

/// The key, and the whole number to 255 at it.
pub(crate) fn take_byte(reader: &mut Reader<'_>, key: &str) -> Result<u8, Failure<OtherForm>>
    ensures { IfOk result (λ n.
        reader.old ≡ key_token key.now ∷ number (decimal n) ∷ reader.new) }
{
    take_key(reader, key)?;
    let Some(Token::Number(digits)) = reader.next() else {
        return Err(Failure::Refused(OtherForm));
    };
    match byte_written(digits) {
        Some(byte) => Ok(byte),
        None => Err(Failure::Refused(OtherForm)),
    }
}

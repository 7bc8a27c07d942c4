// Short forms for the long texts of rows.

ghost use Rattle.std.specs.Prelude.{◌≡◌, ◌<◌, ◌++◌, ◌==◌, IfOk, OnOk, flat_map, map, option_map, string_bytes};
ghost use Rattle.std.specs.List.{slice_split};
ghost use Rattle.test_rows.specs.Short as spec;

use std::alloc::{AllocError, Global};

/// The text with each `{N*UNIT}` as UNIT, N times, and each `{N#NAME#BETWEEN}` as NAME0, NAME1 and so on, N of them, with
/// BETWEEN between. Other braces stay. N is a [`number`].
///
/// # Errors
///
/// Memory was refused.
#[tactic(auto, using(crate::proofs::Plain::plain_stays))]
pub fn written_out(alloc: Global, text: &str) -> Result<String, AllocError>
    ensures ok { IfOk result (λ whole. string_bytes whole ≡ spec.written_out text.now) }
    ensures plain { IfOk result (λ whole. spec.IsPlain text.now → string_bytes whole ≡ text.now) }
{
    let parts = parts_of(alloc, text)?;
    parts_out(alloc, parts.as_slice())
}

// The first part, and what stands for each of the others, which stood behind a `{`.
fn parts_out(alloc: Global, parts: &[&str]) -> Result<String, AllocError>
    ensures { IfOk result (λ whole.
        string_bytes whole ≡ spec.parts_out (map (λ x. x.now) parts.now)) }
{
    match parts {
        [first, pieces @ ..] => {
            let mut whole = String::from_str(alloc, first)?;
            put_pieces(&mut whole, pieces)?;
            Ok(whole)
        }
        [] => Ok(String::new(alloc)),
    }
}

fn parts_of(alloc: Global, text: &str) -> Result<Vec<&str>, AllocError>
    ensures { IfOk result (λ v. map (λ x. x.now) v.items ≡ slice_split (λ b. b == 123) text.now) }
{
    text.split('{').collect(alloc)
}

// Appends what stands for each of the texts behind a `{`.
fn put_pieces(whole: &mut String, pieces: &[&str]) -> Result<(), AllocError>
    ensures { OnOk result (string_bytes whole.new
        ≡ string_bytes whole.old ++ flat_map spec.piece_out (map (λ x. x.now) pieces.now)) }
{
    for piece in pieces {
        put_piece(whole, piece)?;
    }
    Ok(())
}

fn put_piece(whole: &mut String, piece: &str) -> Result<(), AllocError>
    ensures { OnOk result (string_bytes whole.new
        ≡ string_bytes whole.old ++ spec.piece_out piece.now) }
{
    match parted(piece, '}') {
        Some((short, rest)) => {
            put_short(whole, short)?;
            whole.push_str(rest)
        }
        None => {
            whole.push_str("{")?;
            whole.push_str(piece)
        }
    }
}

// What stands before the first such mark, and what stands behind it.
fn parted(text: &str, mark: char) -> Option<(&str, &str)>
    requires { mark < 128 }
    ensures { option_map (λ x. (x.0.now, x.1.now)) result ≡ spec.parted mark text.now }
{
    text.split_once(mark)
}

fn put_short(whole: &mut String, short: &str) -> Result<(), AllocError>
    ensures { OnOk result (string_bytes whole.new
        ≡ string_bytes whole.old ++ spec.short_out short.now) }
{
    match parted(short, '*') {
        Some((count, unit)) => put_units(whole, number(count), unit),
        None => put_names_or_short(whole, short),
    }
}

fn put_names_or_short(whole: &mut String, short: &str) -> Result<(), AllocError>
    ensures { OnOk result (string_bytes whole.new
        ≡ string_bytes whole.old ++ spec.short_with_names short.now (spec.parted 35 short.now)) }
{
    let Some((count, rest)) = parted(short, '#') else {
        whole.push_str("{")?;
        whole.push_str(short)?;
        return whole.push_str("}");
    };
    match parted(rest, '#') {
        Some((name, between)) => put_names(whole, number(count), name, between),
        None => put_names(whole, number(count), rest, ""),
    }
}

/// The number below 2 to the 32 that the text writes; 0 where it writes none.
pub fn number(text: &str) -> u32
    ensures value { result ≡ spec.number text.now }
{
    match text.parse::<u32>() {
        Ok(number) => number,
        Err(_) => 0,
    }
}

fn put_units(whole: &mut String, count: u32, unit: &str) -> Result<(), AllocError>
    ensures { OnOk result (string_bytes whole.new
        ≡ string_bytes whole.old ++ spec.units count unit.now) }
{
    for _ in 0..count {
        whole.push_str(unit)?;
    }
    Ok(())
}

fn put_names(whole: &mut String, count: u32, name: &str, between: &str) -> Result<(), AllocError>
    ensures { OnOk result (string_bytes whole.new
        ≡ string_bytes whole.old ++ spec.names count name.now between.now) }
{
    for i in 0..count {
        put_name(whole, i, name, between)?;
    }
    Ok(())
}

fn put_name(whole: &mut String, i: u32, name: &str, between: &str) -> Result<(), AllocError>
    ensures { OnOk result (string_bytes whole.new
        ≡ string_bytes whole.old ++ spec.next_name name.now between.now i) }
{
    if i > 0 {
        whole.push_str(between)?;
    }
    write!(whole, "{name}{i}")
}

// The bytes at the front of a text.

ghost use Rattle.std.specs.Prelude.{◌≡◌, ◌+◌, ◌&&◌, length, drop, nat_lt, IfSome};
ghost use Rattle.std.specs.Option.{option_copied};
ghost use Rattle.std.specs.List.{prefix_len};
ghost use Rattle.spdx_catalogue.specs.Names.{is_name_byte};
ghost use Rattle.spdx_lexer.specs.Text as spec;
ghost use Rattle.spdx_lexer.specs.Text.{IsRunLeft};

use spdx_catalogue::names::is_name_byte;

// Each byte of a run stands at its own place, and a comma at every other place.
static RUN_BYTES: [u8; 256] = *b"\
    ,,,,,,,,,,,,,,,,,,,,,,,,,,,,,,,,\
    ,,,,,,,,,,,,,-.,0123456789:,,,,,\
    ,ABCDEFGHIJKLMNOPQRSTUVWXYZ,,,,,\
    ,abcdefghijklmnopqrstuvwxyz,,,,,\
    ,,,,,,,,,,,,,,,,,,,,,,,,,,,,,,,,\
    ,,,,,,,,,,,,,,,,,,,,,,,,,,,,,,,,\
    ,,,,,,,,,,,,,,,,,,,,,,,,,,,,,,,,\
    ,,,,,,,,,,,,,,,,,,,,,,,,,,,,,,,,";

fn is_run_byte(b: u8) -> bool
    ensures { result ≡ spec.is_run_byte b }
{
    RUN_BYTES[b as usize] != b','
}

#[tactic(auto, using(crate::proofs::Front::fronts))]
fn name_len(text: &str) -> usize
    ensures { result ≡ prefix_len is_name_byte text.now }
{
    text.bytes().take_while(|b| is_name_byte(*b)).count()
}

// Four bytes at a time, which takes fewer steps than one.
fn run_len(text: &str) -> usize
    ensures { result ≡ prefix_len spec.is_run_byte text.now }
{
    let bytes = text.as_bytes();
    let mut at = 0;
    while bytes.len() - at >= 4 {
        if !is_run_byte(bytes[at]) {
            return at;
        }
        if !is_run_byte(bytes[at + 1]) {
            return at + 1;
        }
        if !is_run_byte(bytes[at + 2]) {
            return at + 2;
        }
        if !is_run_byte(bytes[at + 3]) {
            return at + 3;
        }
        at += 4;
    }
    let rest = &bytes[at..];
    at + short_run_len(rest)
}

#[tactic(auto, using(crate::proofs::Front::fronts))]
fn short_run_len(bytes: &[u8]) -> usize
    ensures { result ≡ prefix_len spec.is_run_byte bytes.now }
{
    bytes.iter().take_while(|b| is_run_byte(**b)).count()
}

// The longest front of a name's bytes, and what follows.
#[tactic(auto, using(crate::proofs::Front::fronts))]
pub(crate) fn split_name(text: &str) -> (&str, &str)
    ensures name { result.0.now ≡ spec.name_at text.now }
    ensures rest { result.1.now ≡ drop (length (spec.name_at text.now)) text.now }
    ensures len { length result.0.now + length result.1.now ≡ length text.now }
{
    text.split_at(name_len(text))
}

// The longest front of a run's bytes. Its length is `known`, unless that is 0: so what an earlier
// token left of a run is not read again.
pub(crate) fn run_at(text: &str, known: usize) -> &str
    requires { IsRunLeft known text.now }
    ensures { result.now ≡ spec.run_at text.now }
{
    if known == 0 {
        return &text[..run_len(text)];
    }
    &text[..known]
}

// What follows the prefix.
pub(crate) fn strip<'t>(prefix: &str, text: &'t str) -> Option<&'t str>
    ensures value { option_copied result ≡ spec.strip prefix.now text.now }
    ensures len { IfSome result (λ rest. length prefix.now + length rest.now ≡ length text.now) }
{
    text.strip_prefix(prefix)
}

// Whether it is an ASCII character that is no white space.
fn is_seen(b: u8) -> bool
    ensures { result ≡ (nat_lt 32 b && nat_lt b 128) }
{
    b' ' < b && b < 128
}

// The text without the white space that it begins with. Most texts begin with none or with one blank.
pub(crate) fn skip_white(text: &str) -> &str
    ensures { result.now ≡ drop (spec.white text.now) text.now }
{
    match text.as_bytes() {
        [] => text,
        [first, ..] if is_seen(*first) => text,
        [b' ', second, ..] if is_seen(*second) => &text[1..],
        _ => skip_any_white(text),
    }
}

#[inline(never)]
#[tactic(auto, using(crate::proofs::White::trims))]
fn skip_any_white(text: &str) -> &str
    ensures { result.now ≡ drop (spec.white text.now) text.now }
{
    text.trim_start()
}

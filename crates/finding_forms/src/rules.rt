// Names of rules.

ghost use Rattle.std.specs.Prelude.{◌≡◌, ◌++◌, OnOk, IfOk, string_bytes};
ghost use Rattle.finding_forms.specs.Rule.{rule_char, rule_name};

use std::alloc::{AllocError, Global};

/// The name of the rule that a reason says: its blanks are hyphens.
pub(crate) fn rule_name(alloc: Global, reason: &str) -> Result<String, AllocError>
    ensures { IfOk result (λ name. string_bytes name ≡ rule_name reason.now) }
{
    let mut name = String::new(alloc);
    for letter in reason.chars() {
        put_char(&mut name, letter)?;
    }
    Ok(name)
}

fn put_char(name: &mut String, letter: char) -> Result<(), AllocError>
    ensures { OnOk result (string_bytes name.new ≡ string_bytes name.old ++ rule_char letter) }
{
    match letter {
        ' ' => name.push('-'),
        other => name.push(other),
    }
}

// What is said of how two expressions compare.

ghost use Rattle.std.specs.Prelude.{◌≡◌, ◌++◌, IfOk, OnOk, codes, flat_map, map, string_bytes};
ghost use Rattle.spdx_meaning.specs.Comparing.{told_names};
ghost use Rattle.meaning_program.specs.Sayings as spec;

use spdx_meaning::{Comparison, Relation};
use std::alloc::{AllocError, Global};

// The relation, and the fewest with which each holds and the other one doesn't.
#[tactic(auto, unfolding(crate::specs::Sayings::told_text))]
pub(crate) fn told_text(
    alloc: Global,
    is_same_text: bool,
    is_alike: bool,
    comparison: &Comparison,
) -> Result<Vec<u8>, AllocError>
    ensures { IfOk result (λ text.
        text.items ≡ spec.told_text is_same_text is_alike comparison.now) }
{
    let mut text = Vec::new(alloc);
    let line = relation_line(is_same_text, is_alike, comparison.relation);
    text.extend_from_slice(line.as_bytes())?;
    put_alone(
        &mut text,
        &comparison.first_alone,
        "the first holds, and not the second",
    )?;
    put_alone(
        &mut text,
        &comparison.second_alone,
        "the second holds, and not the first",
    )?;
    Ok(text)
}

// The line that tells the relation.
fn relation_line(is_same_text: bool, is_alike: bool, relation: Relation) -> &'static str
    ensures { result.now ≡ spec.relation_line is_same_text is_alike relation }
{
    match relation {
        Relation::Same if is_same_text => "the same text\n",
        Relation::Same if is_alike => "the same tree\n",
        Relation::Same => "the same meaning\n",
        Relation::More => "the first asks for more\n",
        Relation::Less => "the second asks for more\n",
        Relation::Neither => "each asks for what the other doesn't\n",
    }
}

// Appends what holds where these alone are accepted, where there are such.
fn put_alone(text: &mut Vec<u8>, names: &Option<Vec<String>>, holds: &str) -> Result<(), AllocError>
    ensures { OnOk result (text.new.items
        ≡ text.old.items ++ spec.alone_line holds.now (told_names names.now)) }
{
    let Some(names) = names else {
        return Ok(());
    };
    put_names(text, names)?;
    text.extend_from_slice(b" alone, ")?;
    text.extend_from_slice(holds.as_bytes())?;
    text.extend_from_slice(b"\n")
}

fn put_names(text: &mut Vec<u8>, names: &[String]) -> Result<(), AllocError>
    ensures { OnOk result (text.new.items
        ≡ text.old.items ++ spec.joined_names (map string_bytes names.now)) }
{
    let Some((first, others)) = names.split_first() else {
        return Ok(());
    };
    text.extend_from_slice(b"  with ")?;
    text.extend_from_slice(first.as_bytes())?;
    put_others(text, others)
}

fn put_others(text: &mut Vec<u8>, names: &[String]) -> Result<(), AllocError>
    ensures { OnOk result (text.new.items ≡ text.old.items
        ++ flat_map (λ n. codes " and " ++ n) (map string_bytes names.now)) }
{
    for name in names {
        text.extend_from_slice(b" and ")?;
        text.extend_from_slice(name.as_bytes())?;
    }
    Ok(())
}

// Laws of what manifests declare.

ghost use Rattle.std.specs.Prelude.{ℕ, List};
ghost use Rattle.serde_json.specs.Data.{Data};
ghost use Rattle.toml.specs.Data.{Members};
ghost use Rattle.manifests.specs.Json.{license_paths};
ghost use Rattle.manifests.specs.Sites.{IsUnplacedJson, Mends, paths_of_toml};
ghost use Rattle.manifests.specs.Steps.{IsToldOnce};
ghost use Rattle.manifests.specs.Written.{IsUnmarked, MayBecome};
ghost use Rattle.manifests.specs.declared.form.Form.{Form};

/// No way to a declared text is told twice: so two sites of a manifest, which have two numbers, are two of its members or items,
/// whatever texts these hold. Does nothing.
pub fn ways_are_told_once()
    ensures json { (document : Data) → IsToldOnce (license_paths document) }
    ensures toml { (form : Form) (document : Members) →
        IsToldOnce (paths_of_toml form document) }
{}

/// A declared text of a manifest of JSON is always found and replaced, where it is no mark as `#7` and the new text needs no
/// escape: no scan and no reader disagree there. So no expression is without a place where none is a mark. Does nothing.
pub fn json_texts_are_mended()
    ensures mended { (form : Form) (bytes : List ℕ) (number : ℕ) (new : List ℕ) →
        MayBecome form bytes number new → (mended : List ℕ) × Mends form bytes number new mended }
    ensures placed { (form : Form) (bytes : List ℕ) →
        IsUnmarked form bytes → IsUnplacedJson form bytes → ⊥ }
{}

//! What follows from the definitions of clashes.

ghost use Rattle.std.specs.Prelude.{◌≡◌, ◌↔◌, List, None};
ghost use Rattle.sheet_data.specs.declared.sheets.LeafSheet.{LeafSheet};
ghost use Rattle.sheet_forms.specs.Formed.{AreAgreed};
ghost use Rattle.patch_assembly.specs.Clashes.{clash_in};

/// That there is a clash exactly where sheets don't agree: a name is twice in those of the core, or there are too many
/// planes in these, or too many faces in all.
pub fn clash_laws()
    ensures { (inner outer : List LeafSheet) → (clash_in inner outer ≡ None) ↔ AreAgreed inner outer }
{}

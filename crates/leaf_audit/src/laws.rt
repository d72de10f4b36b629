//! What follows from the definition of the audit of a store.

ghost use Rattle.std.specs.Prelude.{◌≡◌, ◌↔◌, ℕ, List, map, Ok};
ghost use Rattle.mesh_data.specs.Manifold.{Audits};
ghost use Rattle.mesh_data.specs.declared.edits.Entry.{Entry};
ghost use Rattle.mesh_data.specs.declared.shapes.Audit.{Audit};
ghost use Rattle.mesh_sheets.specs.Export.{all_leaves};
ghost use Rattle.mesh_sheets.specs.Sheets.{sheet};
ghost use Rattle.oemm_blobs.specs.Content.{Content};
ghost use Rattle.oemm_shelf.specs.Shelves.{IsOver};
ghost use Rattle.stored_mesh.specs.Stored.{Base, mesh_of};
ghost use Rattle.leaf_audit.specs.Audits.{AuditsSheets, agreed_sheets};

/// Over a sound store, with its index and with each version by its journal, the present sheets are those of the stored mesh,
/// and nothing keeps them from being audited. Their audit is that of the stored mesh.
pub fn sound_laws()
    ensures sheets { (b : Base) (journal : List Entry) (m : Content) (versions : List ℕ) → IsOver b.index versions m b journal
        → agreed_sheets b.index versions m ≡ Ok (map (sheet b.index.cells (mesh_of b journal)) (all_leaves b.index.cells)) }
    ensures audit { (b : Base) (journal : List Entry) (m : Content) (versions : List ℕ) (a : Audit)
        → IsOver b.index versions m b journal
        → (AuditsSheets (Ok a) (agreed_sheets b.index versions m) ↔ Audits (mesh_of b journal) a) }
{}

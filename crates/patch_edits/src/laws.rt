//! What follows from the definitions of edits on patches.

ghost use Rattle.std.specs.Prelude.{◌≡◌, ◌++◌, ℕ, ℤ, Bool, List, length, not, true};
ghost use Rattle.std.specs.List.{list_any};
ghost use Rattle.oemm_octree.specs.declared.cells.Cell.{Cell};
ghost use Rattle.oemm_octree.specs.declared.points.Point.{Point};
ghost use Rattle.oemm_octree.specs.Leaves.{AreBelow, AreTiles};
ghost use Rattle.oemm_octree.specs.Octree.{area_of, is_inside};
ghost use Rattle.mesh_data.specs.declared.edits.Edit.{Edit};
ghost use Rattle.mesh_data.specs.declared.edits.Step.{Step};
ghost use Rattle.mesh_data.specs.Edits.{after, is_free, is_held, verdict};
ghost use Rattle.mesh_data.specs.Keeps.{Keeps};
ghost use Rattle.mesh_data.specs.Mesh.{Mesh};
ghost use Rattle.mesh_data.specs.Triangles.{has_corner, star};
ghost use Rattle.mesh_data.specs.Work.{work};
ghost use Rattle.work_topology.specs.Ordered.{IsOrderedManifold};
ghost use Rattle.sheet_data.specs.declared.patches.Patch.{Patch};
ghost use Rattle.mesh_sheets.specs.Assembled.{has_name};
ghost use Rattle.mesh_sheets.specs.Clean.{IsClean};
ghost use Rattle.mesh_sheets.specs.Sheets.{patch};
ghost use Rattle.sheet_forms.specs.Formed.{IsPatchFor};
ghost use Rattle.patch_edits.specs.PatchMesh.{mesh_of};
ghost use Rattle.patch_edits.specs.Edits.{after_on, collapsed_on_by, simplified_on, verdict_on};
ghost use Rattle.patch_edits.specs.LeastSteps.{AreLeastStepsOn};
ghost use Rattle.patch_edits.specs.Work.{work_on};

/// On the patch of a clean mesh an edit answers what it answers on the mesh, and leaves the patch of the edited mesh.
pub fn edit_laws()
    ensures reply { (cells : List Cell) (core : List ℕ) (m : Mesh) (e : Edit) → AreTiles cells
        → AreBelow (length cells) core → IsClean m
        → verdict_on (is_inside (area_of cells core)) (patch cells m core) e
        ≡ verdict (is_inside (area_of cells core)) m e }
    ensures patch { (cells : List Cell) (core : List ℕ) (m : Mesh) (e : Edit) → AreTiles cells
        → AreBelow (length cells) core → IsClean m
        → (let reply = verdict (is_inside (area_of cells core)) m e in
        after_on (patch cells m core) e reply ≡ patch cells (after m e reply) core) }
{}

/// And so do edits in a row. Those in a row may be done in parts.
pub fn work_laws()
    ensures replies { (cells : List Cell) (core : List ℕ) (m : Mesh) (edits : List Edit) → AreTiles cells
        → AreBelow (length cells) core → IsClean m
        → (work_on (is_inside (area_of cells core)) (patch cells m core) edits).replies
        ≡ (work (is_inside (area_of cells core)) m edits).replies }
    ensures patch { (cells : List Cell) (core : List ℕ) (m : Mesh) (edits : List Edit) → AreTiles cells
        → AreBelow (length cells) core → IsClean m
        → (work_on (is_inside (area_of cells core)) (patch cells m core) edits).patch
        ≡ patch cells (work (is_inside (area_of cells core)) m edits).mesh core }
    ensures reply_parts { (inside : Point → Bool) (p : Patch) (edits more : List Edit)
        → (work_on inside p (edits ++ more)).replies
        ≡ (work_on inside p edits).replies ++ (work_on inside (work_on inside p edits).patch more).replies }
    ensures patch_parts { (inside : Point → Bool) (p : Patch) (edits more : List Edit)
        → (work_on inside p (edits ++ more)).patch ≡ (work_on inside (work_on inside p edits).patch more).patch }
{}

/// Least steps on a patch, however they are found, are those of its simplification, and make of the patch what it
/// makes. There are such steps on every patch, so they are unique.
pub fn least_step_laws()
    ensures are { (inside : Point → Bool) (p : Patch) (most : ℤ) (target : ℕ)
        → AreLeastStepsOn inside p most target (simplified_on inside p most target).steps }
    ensures steps { (inside : Point → Bool) (p : Patch) (most : ℤ) (target : ℕ) (steps : List Step)
        → AreLeastStepsOn inside p most target steps → (simplified_on inside p most target).steps ≡ steps }
    ensures patch { (inside : Point → Bool) (p : Patch) (most : ℤ) (target : ℕ) (steps : List Step)
        → AreLeastStepsOn inside p most target steps
        → (simplified_on inside p most target).patch ≡ collapsed_on_by p steps }
{}

/// Edits leave a patch well formed that is well formed for its core, whatever mesh it stands for, and where none does.
pub fn formed_laws()
    ensures { (cells : List Cell) (core : List ℕ) (p : Patch) (edits : List Edit) → AreTiles cells
        → AreBelow (length cells) core → IsPatchFor cells core p
        → IsPatchFor cells core (work_on (is_inside (area_of cells core)) p edits).patch }
{}

/// An edit whose answer is found on the patch alone keeps the whole mesh a manifold, its Euler characteristic and its
/// border.
pub fn keep_laws()
    ensures { (cells : List Cell) (core : List ℕ) (m : Mesh) (e : Edit) → AreTiles cells
        → AreBelow (length cells) core → IsOrderedManifold m
        → Keeps m (after m e (verdict_on (is_inside (area_of cells core)) (patch cells m core) e)) }
{}

/// On a well-formed patch a name is held exactly where a vertex has it, and a held name is free exactly where no mixed
/// triangle has it. The triangles at a free name are whole ones, in their order. So edits have to look at the mixed
/// triangles alone for what is free, and never change it.
pub fn free_laws()
    ensures held { (cells : List Cell) (core : List ℕ) (p : Patch) (v : ℕ) → AreTiles cells
        → AreBelow (length cells) core → IsPatchFor cells core p
        → is_held (is_inside (area_of cells core)) (mesh_of p) v ≡ has_name p.vertices v }
    ensures free { (cells : List Cell) (core : List ℕ) (p : Patch) (v : ℕ) → AreTiles cells
        → AreBelow (length cells) core → IsPatchFor cells core p
        → is_held (is_inside (area_of cells core)) (mesh_of p) v ≡ true
        → is_free (is_inside (area_of cells core)) (mesh_of p) v ≡ not (list_any (λ x. has_corner v x.tri) p.mixed) }
    ensures star { (cells : List Cell) (core : List ℕ) (p : Patch) (v : ℕ) → AreTiles cells
        → AreBelow (length cells) core → IsPatchFor cells core p
        → is_free (is_inside (area_of cells core)) (mesh_of p) v ≡ true → star v (mesh_of p).tris ≡ star v p.whole }
{}

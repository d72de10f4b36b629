//! What follows from the definition of an audit of faces.

ghost use Rattle.std.specs.Prelude.{◌≡◌, ◌↔◌, ℕ, List, All};
ghost use Rattle.std.specs.FinMap as finite;
ghost use Rattle.std.specs.List.Sorted.{IsPermutation};
ghost use Rattle.mesh_data.specs.Manifold.{Audits, IsTriangleOf};
ghost use Rattle.mesh_data.specs.Mesh.{Mesh};
ghost use Rattle.mesh_data.specs.Triangles.{IsProper};
ghost use Rattle.mesh_data.specs.declared.geometry.Tri.{Tri};
ghost use Rattle.mesh_data.specs.declared.shapes.Audit.{Audit};
ghost use Rattle.face_audit.specs.Audit.{AuditsFaces};

/// The order of the faces says nothing.
pub fn order_laws()
    ensures { (count : ℕ) (faces others : List Tri) (a : Audit) → IsPermutation faces others → AuditsFaces count faces a
        → AuditsFaces count others a }
{}

/// The audit of a mesh is that of the number of its vertices and of its triangles, in any order.
#[tactic(auto, using(crate::proofs::SameAudit::audit_of_mesh))]
pub fn mesh_laws()
    ensures { (m : Mesh) (faces : List Tri) (a : Audit) → All (IsTriangleOf m.vertices) m.tris
        → IsPermutation faces m.tris → (AuditsFaces (finite.len m.vertices) faces a ↔ Audits m a) }
{}

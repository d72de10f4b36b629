//! What follows from the definitions of start meshes and of audits.

ghost use Rattle.std.specs.Prelude.{◌≡◌, List, IsPermutation};
ghost use Rattle.oemm_octree.specs.declared.points.Point.{Point};
ghost use Rattle.mesh_data.specs.declared.geometry.Tri.{Tri};
ghost use Rattle.mesh_data.specs.declared.shapes.Shape.{Shape};
ghost use Rattle.mesh_data.specs.declared.shapes.Audit.TheVariants.{Bad};
ghost use Rattle.mesh_data.specs.Manifold.{IsManifold, Audits};
ghost use Rattle.mesh_data.specs.Mesh.{Mesh, start};

/// The order of a file's faces says nothing: it has no part in the start mesh.
#[tactic(auto, using(crate::proofs::StartOrder::start_in_any_order))]
pub fn start_laws()
    ensures { (points : List Point) (faces others : List Tri) → IsPermutation faces others
        → start (record { points = points; faces = faces }) ≡ start (record { points = points; faces = others }) }
{}

/// An audit has one answer: a manifold has no fault, and another mesh has one first fault.
#[tactic(auto, using(crate::proofs::Audits::no_shape, crate::proofs::Audits::one_shape))]
pub fn audit_laws()
    ensures good { (m : Mesh) (shape : Shape) → IsManifold m → Audits m (Bad shape) → ⊥ }
    ensures one { (m : Mesh) (shape other : Shape) → Audits m (Bad shape) → Audits m (Bad other) → shape ≡ other }
{}

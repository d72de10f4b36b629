//! What follows from the definitions of simplification and of the Euler characteristic.

ghost use Rattle.std.specs.Prelude.{◌≡◌, ◌*◌, ℕ, ℤ, Bool, List, length, pos, ◌-ℤ◌, ◌+ℤ◌};
ghost use Rattle.std.specs.FinMap as finite;
ghost use Rattle.oemm_octree.specs.declared.points.Point.{Point};
ghost use Rattle.mesh_data.specs.declared.edits.Step.{Step};
ghost use Rattle.mesh_data.specs.Edits.{AreLeastSteps, collapsed_by, simplified};
ghost use Rattle.mesh_data.specs.Manifold.{IsManifold};
ghost use Rattle.mesh_data.specs.Mesh.{Mesh, euler, euler2, border};

/// On a manifold twice the Euler characteristic is twice the vertices, less the triangles and the border edges.
/// On every mesh it is twice what `euler` says.
#[tactic(auto, using(crate::proofs::EulerLaws::euler2_of_manifold, crate::proofs::EulerLaws::euler2_is_twice))]
pub fn euler_laws()
    ensures manifold { (m : Mesh) → IsManifold m
        → euler2 m ≡ (pos (2 * finite.len m.vertices) -ℤ pos (length m.tris)) -ℤ pos (length (border m)) }
    ensures twice { (m : Mesh) → euler2 m ≡ euler m +ℤ euler m }
{}

/// What a simplification does: each of its steps is a collapse that is done at its moment, none that is done then is
/// less by cost and names, and the steps end only where the target is reached or no collapse is done. The steps, one
/// after another, make its mesh. No other steps are so.
#[tactic(auto, using(crate::proofs::Simplification::least_of_all, crate::proofs::Simplification::made_of_all, crate::proofs::Simplification::one_least_way))]
pub fn simplify_laws()
    ensures least { (inside : Point → Bool) (m : Mesh) (most : ℤ) (target : ℕ)
        → AreLeastSteps inside m most target (simplified inside m most target).steps }
    ensures made { (inside : Point → Bool) (m : Mesh) (most : ℤ) (target : ℕ)
        → collapsed_by m (simplified inside m most target).steps ≡ (simplified inside m most target).mesh }
    ensures alone { (inside : Point → Bool) (m : Mesh) (most : ℤ) (target : ℕ) (steps others : List Step)
        → AreLeastSteps inside m most target steps → AreLeastSteps inside m most target others → steps ≡ others }
{}

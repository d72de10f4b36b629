//! What follows from the definitions of planes and of their sums.

ghost use Rattle.std.specs.Prelude.{◌≡◌, [], ◌∷◌, ◌++◌, List, length, pos, ◌≤ℤ◌, IsPermutation};
ghost use Rattle.oemm_octree.specs.declared.points.Point.{Point};
ghost use Rattle.mesh_data.specs.declared.planes.Plane.{Plane};
ghost use Rattle.mesh_data.specs.Planes.{plane_of, squares, Sums, products, added, sums_of, sums_value};

/// The sums of a list of planes: their value at a point is the sum of the squared values of the planes, and so
/// it is never negative; they count the planes; the sums of two lists add up, so one plane more adds its products;
/// the order of the planes says nothing, nor does the order in which sums are added.
pub fn sums_laws()
    ensures squared { (ls : List Plane) (p : Point) → sums_value (sums_of ls) p ≡ squares ls p }
    ensures not_negative { (ls : List Plane) (p : Point) → pos 0 ≤ℤ (sums_value (sums_of ls) p) }
    ensures counted { (ls : List Plane) → (sums_of ls).planes ≡ length ls }
    ensures joined { (ls ms : List Plane) → sums_of (ls ++ ms) ≡ added (sums_of ls) (sums_of ms) }
    ensures pushed { (ls : List Plane) (l : Plane) → sums_of (ls ++ l ∷ []) ≡ added (products l) (sums_of ls) }
    ensures in_any_order { (ls ms : List Plane) → IsPermutation ls ms → sums_of ls ≡ sums_of ms }
    ensures either_way { (s t : Sums) → added s t ≡ added t s }
    ensures grouped { (s t u : Sums) → added (added s t) u ≡ added s (added t u) }
{}

/// The plane of a triangle is the same from each of its corners.
#[tactic(auto, using(crate::proofs::PlanesCorners::plane_from_next))]
pub fn plane_from_each_corner()
    ensures { (a b c : Point) → plane_of a b c ≡ plane_of b c a }
{}

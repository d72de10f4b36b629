//! What stands behind a header.

ghost use Rattle.std.specs.Prelude.{◌≡◌, ℕ, ◌+◌, ◌*◌, ◌<◌, ◌≤◌, false, List, ◌∷◌, ◌++◌, length, Some, None, Ok, Err, pos, drop};
ghost use Rattle.mesh_items.specs.declared.items.Item.{Item};
ghost use Rattle.mesh_items.specs.declared.items.Item.TheVariants.{Counts};
ghost use Rattle.ply_header.specs.declared.layout.ByteOrder.{ByteOrder};
ghost use Rattle.ply_header.specs.declared.layout.Axis.{Axis};
ghost use Rattle.ply_header.specs.declared.layout.ScalarType.{ScalarType};
ghost use Rattle.ply_header.specs.declared.layout.Property.{Property};
ghost use Rattle.ply_header.specs.declared.layout.Role.TheVariants.{Vertices};
ghost use Rattle.ply_header.specs.declared.layout.Layout.{Layout};
ghost use Rattle.ply_header.specs.Layout.{size_of};
ghost use Rattle.ply_header.specs.Header.{is_along, is_corners};
ghost use Rattle.ply_reader.specs.Body.{Rest, item_in, passed, records_passed, forward, number_of, properties_in, triangle_at};
ghost use Rattle.ply_reader.specs.Feed.{fixed_from};
ghost use Rattle.ply_reader.specs.Mesh.{laid, Stand};
ghost use Rattle.std.specs.List.{list_any};
ghost use Rattle.mesh_data.specs.declared.geometry.Tri.{Tri};
ghost use Rattle.ply_header.specs.declared.layout.Property.TheVariants.{Coordinate, Corners};
ghost use Rattle.ply_reader.specs.declared.values.Values.{Values};
ghost use Rattle.ply_reader.specs.declared.values.Record.{Record};
ghost use Rattle.ply_laws.specs.Records.{HaveWidth, coordinate_along};

use mesh_items::MeshFault;
use oemm_limits::{MOST_MESH_BYTES, What};

/// Vertices and faces that stand one behind another are read in this order behind their counts, up to the last face or
/// to the first fault, and records of a known size are passed over at once.
pub fn ply_body_laws()
    ensures whole { (l : Layout) (items : List Item) (r s : Rest) → Stand l 0 items r s →
        length items ≡ l.vertex.count + l.face.count →
        laid l r ≡ record { items = Counts l.vertex.count l.face.count ∷ items; fault = None } }
    ensures stopped { (l : Layout) (items : List Item) (r s : Rest) (fault : MeshFault) → Stand l 0 items r s →
        length items < l.vertex.count + l.face.count → item_in l (length items) s ≡ Err fault →
        laid l r ≡ record { items = Counts l.vertex.count l.face.count ∷ items; fault = Some fault } }
    ensures fixed { (order : ByteOrder) (properties : List Property) (size n : ℕ) (r : Rest) →
        fixed_from 0 properties ≡ Some size → r.at ≤ MOST_MESH_BYTES →
        records_passed order properties n r ≡ passed (n * size) r }
{}

/// Where the numbers of a record stand: where each property in front is one number, a coordinate is the number behind
/// their bytes, and a list of indices has its count there, which is three, and behind that the three indices. What is
/// left of a record of such properties alone stands behind their bytes.
pub fn ply_record_laws()
    ensures coordinate { (rec : Record) (axis : Axis) (number : ScalarType) (front back : List Property)
        (v w : Values) (r s : Rest) (n : ℕ) →
        HaveWidth front n → list_any (is_along axis) back ≡ false →
        properties_in rec (front ++ Coordinate axis number ∷ back) v r ≡ Ok (w, s) →
        coordinate_along axis w.point ≡ number_of rec.order number (drop n r.bytes) }
    ensures corners { (rec : Record) (count item : ScalarType) (front back : List Property) (v w : Values)
        (r s : Rest) (n : ℕ) →
        HaveWidth front n → list_any is_corners back ≡ false →
        properties_in rec (front ++ Corners count item ∷ back) v r ≡ Ok (w, s) →
        (number_of rec.order count (drop n r.bytes) ≡ pos 3)
        × ((t : Tri) × (w.face ≡ Some t) × (triangle_at rec item (drop (n + size_of count) r.bytes) ≡ Ok t)) }
    ensures left { (rec : Record) (ps : List Property) (v w : Values) (r s : Rest) (n : ℕ) →
        HaveWidth ps n → properties_in rec ps v r ≡ Ok (w, s) → s ≡ forward n r }
{}

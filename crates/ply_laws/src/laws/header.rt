//! What the lines of a header declare, and what is wrong with them.

ghost use Rattle.std.specs.Prelude.{◌≡◌, ◌≢◌, ℕ, ◌^◌, ◌<◌, ◌≤◌, true, false, List, [], ◌∷◌, ◌++◌, codes, Some, None, Ok, Err};
ghost use Rattle.oemm_lines.specs.Numbers.{unsigned_of};
ghost use Rattle.oemm_lines.specs.Stream.{texts_of};
ghost use Rattle.ply_header.specs.declared.layout.ByteOrder.{ByteOrder};
ghost use Rattle.ply_header.specs.declared.layout.ByteOrder.TheVariants.{Little, Big};
ghost use Rattle.ply_header.specs.declared.layout.Axis.{Axis};
ghost use Rattle.ply_header.specs.declared.layout.Axis.TheVariants.{X, Y, Z};
ghost use Rattle.ply_header.specs.declared.layout.ScalarType.{ScalarType};
ghost use Rattle.ply_header.specs.declared.layout.PropertyType.{PropertyType};
ghost use Rattle.ply_header.specs.declared.layout.Role.TheVariants.{Vertices, Faces};
ghost use Rattle.ply_header.specs.declared.layout.Element.{Element};
ghost use Rattle.ply_header.specs.declared.layout.Header.{Header};
ghost use Rattle.ply_header.specs.Layout.{axis_named, is_float, names_corners};
ghost use Rattle.ply_header.specs.Header.{closed, ends, header_after, is_remark, layout_of, layout_with, nothing_declared, role_named};
ghost use Rattle.ply_header.specs.Limits.{HasFew};
ghost use Rattle.ply_reader.specs.Body.{Rest};
ghost use Rattle.ply_reader.specs.Mesh.{from_header};
ghost use Rattle.ply_laws.specs.Lines.{Lead};
ghost use Rattle.ply_laws.specs.Elements.{element_line, format_line, property_line, Declares, HasCoordinate, HasCorners, HasFace, HasPlace, HasVertex, IsLast, MayCome, WriteType};
ghost use Rattle.ply_header.specs.declared.layout.PropertyType.TheVariants as value;

use mesh_items::{ElementKind, MeshFault, MeshWhy};
use oemm_limits::{MOST_ITEMS, What};
use oemm_lines::Line;

/// A line without words, a comment and an `obj_info` line declare nothing. A line of an element, of a property or of
/// the format doesn't end the header, nor does any that begins otherwise than with `end_header`, and none does before
/// the format is known. Behind the line that ends the header no line is looked at, nor whether there is one.
pub fn ply_header_laws()
    ensures blank { (h : Header) (at : ℕ) → header_after h at [] ≡ Ok h }
    ensures remark { (h : Header) (at : ℕ) (word : List ℕ) (words : List (List ℕ)) → is_remark word ≡ true →
        header_after h at (word ∷ words) ≡ Ok h }
    ensures element { (h : Header) (words : List (List ℕ)) → ends h (element_line words) ≡ false }
    ensures property { (h : Header) (words : List (List ℕ)) → ends h (property_line words) ≡ false }
    ensures format { (h : Header) (name : List ℕ) → ends h (format_line name) ≡ false }
    ensures other { (h : Header) (word : List ℕ) (words : List (List ℕ)) → word ≢ codes "end_header" →
        ends h (word ∷ words) ≡ false }
    ensures unknown { (h : Header) (words : List (List ℕ)) → h.order ≡ None → ends h words ≡ false }
    ensures end { (h : Header) (line : Line) (lines others : List Line) (fault other : MeshFault) (r : Rest) →
        ends h (texts_of line) ≡ true → from_header fault (line ∷ lines) h r ≡ from_header other (line ∷ others) h r }
{}

/// What is wrong with a line of a header. The first line with words that isn't a remark must be that of the format,
/// which is binary of either order. Behind it the vertices, the faces, a coordinate of the vertices and the indices of
/// the faces are each wrong a second time, and so are faces in front of the vertices. The line that ends the header is
/// wrong where no vertices were declared, or no faces.
pub fn ply_declaration_laws()
    ensures before_format { (h : Header) (at : ℕ) (word : List ℕ) (words : List (List ℕ)) → h.order ≡ None →
        is_remark word ≡ false → ((name : List ℕ) → word ∷ words ≡ format_line name → ⊥) →
        header_after h at (word ∷ words) ≡ Err (MeshFault.Text at MeshWhy.HeadLine) }
    ensures little { (h : Header) (at : ℕ) → h.order ≡ None →
        header_after h at (format_line (codes "binary_little_endian")) ≡ Ok (record h { order = Some Little }) }
    ensures big { (h : Header) (at : ℕ) → h.order ≡ None →
        header_after h at (format_line (codes "binary_big_endian")) ≡ Ok (record h { order = Some Big }) }
    ensures ascii { (h : Header) (at : ℕ) → h.order ≡ None →
        header_after h at (format_line (codes "ascii")) ≡ Err (MeshFault.Text at MeshWhy.Ascii) }
    ensures other_format { (h : Header) (at : ℕ) (name : List ℕ) → h.order ≡ None →
        name ≢ codes "binary_little_endian" →
        name ≢ codes "binary_big_endian" → name ≢ codes "ascii" →
        header_after h at (format_line name) ≡ Err (MeshFault.Text at MeshWhy.HeadLine) }
    ensures second_vertex { (h : Header) (order : ByteOrder) (at : ℕ) (words : List (List ℕ)) → h.order ≡ Some order →
        HasVertex h → header_after h at (element_line (codes "vertex" ∷ words))
        ≡ Err (MeshFault.Text at MeshWhy.Twice) }
    ensures second_face { (h : Header) (order : ByteOrder) (at : ℕ) (words : List (List ℕ)) → h.order ≡ Some order →
        HasFace h → header_after h at (element_line (codes "face" ∷ words)) ≡ Err (MeshFault.Text at MeshWhy.Twice) }
    ensures face_first { (lines : List Line) (h : Header) (order : ByteOrder) (at : ℕ) (words : List (List ℕ)) →
        Lead nothing_declared lines h → h.order ≡ Some order → (HasVertex h → ⊥) →
        header_after h at (element_line (codes "face" ∷ words)) ≡ Err (MeshFault.Text at MeshWhy.FaceFirst) }
    ensures second_coordinate { (h : Header) (order : ByteOrder) (at : ℕ) (e : Element) (axis : Axis)
        (kind : PropertyType)
        (type : List (List ℕ)) (name : List ℕ) (words : List (List ℕ)) → h.order ≡ Some order → IsLast h Vertices e →
        HasCoordinate axis e → WriteType type kind → axis_named name ≡ Some axis →
        header_after h at (property_line (type ++ name ∷ words)) ≡ Err (MeshFault.Text at MeshWhy.Twice) }
    ensures second_corners { (h : Header) (order : ByteOrder) (at : ℕ) (e : Element) (kind : PropertyType)
        (type : List (List ℕ)) (name : List ℕ) (words : List (List ℕ)) → h.order ≡ Some order → IsLast h Faces e →
        HasCorners e → WriteType type kind → names_corners name ≡ true →
        header_after h at (property_line (type ++ name ∷ words)) ≡ Err (MeshFault.Text at MeshWhy.Twice) }
    ensures no_vertex { (h : Header) (at : ℕ) (words : List (List ℕ)) → ends h words ≡ true → (HasVertex h → ⊥) →
        layout_of h at words ≡ Err (MeshFault.Text at (MeshWhy.NoElement ElementKind.Vertex)) }
    ensures no_face { (h : Header) (at : ℕ) (words : List (List ℕ)) → ends h words ≡ true → HasVertex h →
        (HasFace h → ⊥) →
        layout_of h at words ≡ Err (MeshFault.Text at (MeshWhy.NoElement ElementKind.Face)) }
{}

/// What a line declares that isn't one of a property, once the format is known. An element has a name that may come
/// next and a count of digits alone, which has limits, and nothing behind it. A line that begins otherwise is wrong.
pub fn ply_element_laws()
    ensures other { (h : Header) (order : ByteOrder) (at : ℕ) (word : List ℕ) (words : List (List ℕ)) →
        h.order ≡ Some order → is_remark word ≡ false → word ≢ codes "element" → word ≢ codes "property" →
        header_after h at (word ∷ words) ≡ Err (MeshFault.Text at MeshWhy.HeadLine) }
    ensures no_name { (h : Header) (order : ByteOrder) (at : ℕ) → h.order ≡ Some order →
        header_after h at (element_line []) ≡ Err (MeshFault.Text at MeshWhy.HeadLine) }
    ensures no_count { (h : Header) (order : ByteOrder) (at : ℕ) (name : List ℕ) → h.order ≡ Some order →
        MayCome (role_named name) h →
        header_after h at (element_line (name ∷ [])) ≡ Err (MeshFault.Text at MeshWhy.HeadLine) }
    ensures no_digits { (h : Header) (order : ByteOrder) (at : ℕ) (name count : List ℕ) (words : List (List ℕ)) →
        h.order ≡ Some order → MayCome (role_named name) h → unsigned_of count ≡ None →
        header_after h at (element_line (name ∷ count ∷ words)) ≡ Err (MeshFault.Text at MeshWhy.HeadLine) }
    ensures too_great { (h : Header) (order : ByteOrder) (at n : ℕ) (name count : List ℕ) (words : List (List ℕ)) →
        h.order ≡ Some order → MayCome (role_named name) h → unsigned_of count ≡ Some n → 2 ^ 64 ≤ n →
        header_after h at (element_line (name ∷ count ∷ words)) ≡ Err (MeshFault.Text at MeshWhy.Number) }
    ensures many_vertices { (h : Header) (order : ByteOrder) (at n : ℕ) (count : List ℕ) (words : List (List ℕ)) →
        h.order ≡ Some order → (HasVertex h → ⊥) → unsigned_of count ≡ Some n → n < 2 ^ 64 → MOST_ITEMS < n →
        header_after h at (element_line (codes "vertex" ∷ count ∷ words)) ≡ Err (MeshFault.TooMany What.Vertices n) }
    ensures many_faces { (h : Header) (order : ByteOrder) (at n : ℕ) (count : List ℕ) (words : List (List ℕ)) →
        h.order ≡ Some order → HasVertex h → (HasFace h → ⊥) → unsigned_of count ≡ Some n → n < 2 ^ 64 →
        MOST_ITEMS < n →
        header_after h at (element_line (codes "face" ∷ count ∷ words)) ≡ Err (MeshFault.TooMany What.Faces n) }
    ensures trailing { (h : Header) (order : ByteOrder) (at n : ℕ) (name count word : List ℕ) (words : List (List ℕ)) →
        h.order ≡ Some order → MayCome (role_named name) h → unsigned_of count ≡ Some n → n < 2 ^ 64 →
        HasFew (role_named name) n →
        header_after h at (element_line (name ∷ count ∷ word ∷ words)) ≡ Err (MeshFault.Text at MeshWhy.HeadLine) }
    ensures element { (h : Header) (order : ByteOrder) (at n : ℕ) (name count : List ℕ) → h.order ≡ Some order →
        MayCome (role_named name) h → unsigned_of count ≡ Some n → n < 2 ^ 64 → HasFew (role_named name) n →
        header_after h at (element_line (name ∷ count ∷ [])) ≡
        Ok (record (closed h) { last = Some (record { role = role_named name; count = n; properties = [] }) }) }
{}

/// What is wrong with a property. It belongs to the element that was declared last, and without one it is wrong. A
/// coordinate is no floating-point number and no list, and the indices of a face are a list of whole numbers.
pub fn ply_property_laws()
    ensures stray { (h : Header) (order : ByteOrder) (at : ℕ) (words : List (List ℕ)) → h.order ≡ Some order →
        h.last ≡ None → header_after h at (property_line words) ≡ Err (MeshFault.Text at MeshWhy.HeadLine) }
    ensures float_coordinate { (h : Header) (order : ByteOrder) (at : ℕ) (e : Element) (axis : Axis)
        (number : ScalarType)
        (type : List (List ℕ)) (name : List ℕ) (words : List (List ℕ)) → h.order ≡ Some order → IsLast h Vertices e →
        (HasCoordinate axis e → ⊥) → WriteType type (value.Scalar number) → is_float number ≡ true →
        axis_named name ≡ Some axis →
        header_after h at (property_line (type ++ name ∷ words)) ≡ Err (MeshFault.Text at MeshWhy.FloatCoordinate) }
    ensures list_coordinate { (h : Header) (order : ByteOrder) (at : ℕ) (e : Element) (axis : Axis)
        (count item : ScalarType)
        (type : List (List ℕ)) (name : List ℕ) (words : List (List ℕ)) → h.order ≡ Some order → IsLast h Vertices e →
        (HasCoordinate axis e → ⊥) → WriteType type (value.List count item) → axis_named name ≡ Some axis →
        header_after h at (property_line (type ++ name ∷ words)) ≡ Err (MeshFault.Text at MeshWhy.Kind) }
    ensures scalar_corners { (h : Header) (order : ByteOrder) (at : ℕ) (e : Element) (number : ScalarType)
        (type : List (List ℕ)) (name : List ℕ) (words : List (List ℕ)) → h.order ≡ Some order → IsLast h Faces e →
        (HasCorners e → ⊥) → WriteType type (value.Scalar number) → names_corners name ≡ true →
        header_after h at (property_line (type ++ name ∷ words)) ≡ Err (MeshFault.Text at MeshWhy.Kind) }
    ensures float_corners { (h : Header) (order : ByteOrder) (at : ℕ) (e : Element) (count item : ScalarType)
        (type : List (List ℕ)) (name : List ℕ) (words : List (List ℕ)) → h.order ≡ Some order → IsLast h Faces e →
        (HasCorners e → ⊥) → WriteType type (value.List count item) → is_float item ≡ true → names_corners name ≡ true →
        header_after h at (property_line (type ++ name ∷ words)) ≡ Err (MeshFault.Text at MeshWhy.Kind) }
{}

/// What the line that ends a header says of one that declares vertices and faces: it is wrong where a vertex lacks a
/// coordinate, or a face its indices, and where a further word stands on it, and else all that was declared is laid
/// out.
pub fn ply_layout_laws()
    ensures no_x { (h : Header) (at : ℕ) (words : List (List ℕ)) (vertex face : Element) → ends h words ≡ true →
        Declares h vertex face → (HasCoordinate X vertex → ⊥) →
        layout_of h at words ≡ Err (MeshFault.Text at (MeshWhy.NoProperty 0)) }
    ensures no_y { (h : Header) (at : ℕ) (words : List (List ℕ)) (vertex face : Element) → ends h words ≡ true →
        Declares h vertex face → HasCoordinate X vertex → (HasCoordinate Y vertex → ⊥) →
        layout_of h at words ≡ Err (MeshFault.Text at (MeshWhy.NoProperty 1)) }
    ensures no_z { (h : Header) (at : ℕ) (words : List (List ℕ)) (vertex face : Element) → ends h words ≡ true →
        Declares h vertex face → HasCoordinate X vertex → HasCoordinate Y vertex → (HasCoordinate Z vertex → ⊥) →
        layout_of h at words ≡ Err (MeshFault.Text at (MeshWhy.NoProperty 2)) }
    ensures no_corners { (h : Header) (at : ℕ) (words : List (List ℕ)) (vertex face : Element) → ends h words ≡ true →
        Declares h vertex face → HasPlace vertex → (HasCorners face → ⊥) →
        layout_of h at words ≡ Err (MeshFault.Text at (MeshWhy.NoProperty 3)) }
    ensures trailing { (h : Header) (at : ℕ) (end word : List ℕ) (words : List (List ℕ)) (vertex face : Element) →
        ends h (end ∷ word ∷ words) ≡ true → Declares h vertex face → HasPlace vertex → HasCorners face →
        layout_of h at (end ∷ word ∷ words) ≡ Err (MeshFault.Text at MeshWhy.HeadLine) }
    ensures whole { (h : Header) (order : ByteOrder) (at : ℕ) (end : List ℕ) (vertex face : Element) →
        ends h (end ∷ []) ≡ true → h.order ≡ Some order → Declares h vertex face → HasPlace vertex → HasCorners face →
        layout_of h at (end ∷ []) ≡ Ok (layout_with (closed h) order vertex face) }
{}

//! What a whole file is read as.

ghost use Rattle.std.specs.Prelude.{◌≡◌, ℕ, true, false, List, [], ◌∷◌, None, Ok, Err};
ghost use Rattle.mesh_items.specs.declared.items.Item.{Item};
ghost use Rattle.mesh_items.specs.declared.items.Item.TheVariants.{Counts};
ghost use Rattle.mesh_items.specs.Reading.{fault_alone};
ghost use Rattle.oemm_lines.specs.Stream.{texts_of};
ghost use Rattle.ply_header.specs.declared.layout.Header.{Header};
ghost use Rattle.ply_header.specs.declared.layout.Layout.{Layout};
ghost use Rattle.ply_header.specs.Header.{ends, header_after, layout_of};
ghost use Rattle.ply_reader.specs.Mesh.{behind_line, is_first, laid, ply_reading};
ghost use Rattle.ply_laws.specs.Lines.{left_behind, ply_end, ply_lines, Leads, WritesPly};

use mesh_items::{MeshFault, MeshWhy};
use oemm_limits::What;
use oemm_lines::Line;

/// What a whole file says, by its lines. A file without lines has the fault of its end, and a first line that isn't the
/// one word `ply` is wrong. Behind it lines declare one thing after another: the first that declares something wrong
/// has its fault, and where no line ends the header that of the end stands. The line that ends it has a fault where
/// something is missing or a further word stands on it, and else the counts, the vertices and the faces follow, which
/// are read of what is left behind this line.
pub fn ply_file_laws()
    ensures empty { (bytes : List ℕ) → ply_lines bytes ≡ [] → ply_reading bytes ≡ fault_alone (ply_end bytes) }
    ensures head { (bytes : List ℕ) (rest : List Line) (l : Line) → ply_lines bytes ≡ l ∷ rest →
        is_first (texts_of l) ≡ false → ply_reading bytes ≡ fault_alone (MeshFault.Text l.at MeshWhy.Head) }
    ensures line { (bytes : List ℕ) (first : Line) (lines rest : List Line) (h : Header) (l : Line)
        (fault : MeshFault) →
        Leads bytes first lines (l ∷ rest) h → ends h (texts_of l) ≡ false →
        header_after h l.at (texts_of l) ≡ Err fault → ply_reading bytes ≡ fault_alone fault }
    ensures no_end { (bytes : List ℕ) (first : Line) (lines : List Line) (h : Header) →
        Leads bytes first lines [] h → ply_reading bytes ≡ fault_alone (ply_end bytes) }
    ensures refused { (bytes : List ℕ) (first : Line) (lines rest : List Line) (h : Header) (l : Line)
        (fault : MeshFault) →
        Leads bytes first lines (l ∷ rest) h → ends h (texts_of l) ≡ true →
        layout_of h l.at (texts_of l) ≡ Err fault → ply_reading bytes ≡ fault_alone fault }
    ensures laid { (bytes : List ℕ) (first : Line) (lines rest : List Line) (h : Header) (l : Line) (layout : Layout) →
        Leads bytes first lines (l ∷ rest) h → ends h (texts_of l) ≡ true → layout_of h l.at (texts_of l) ≡ Ok layout →
        ply_reading bytes ≡
        laid layout (behind_line l (left_behind bytes first lines)) }
{}

/// A file without a fault has a header that declares a layout, and behind it all vertices and faces of this layout. It
/// is read as the two counts and these vertices and faces, and no other file is read without a fault.
pub fn ply_whole_laws()
    ensures read { (bytes : List ℕ) (layout : Layout) (items : List Item) → WritesPly bytes layout items →
        ply_reading bytes ≡ record { items = Counts layout.vertex.count layout.face.count ∷ items; fault = None } }
    ensures written { (bytes : List ℕ) → (ply_reading bytes).fault ≡ None →
        (layout : Layout) × (items : List Item) × WritesPly bytes layout items }
{}

//! What follows from the definitions of spellings in a store.

ghost use Rattle.std.specs.Prelude.{◌≡◌, ◌<◌, ◌≤◌, ℕ, All, List, Result, Some, length};
ghost use Rattle.oemm_limits.specs.declared.TheConstants.{MOST_ITEMS, MOST_LEAVES};
ghost use Rattle.oemm_octree.specs.declared.cells.Cell.{Cell};
ghost use Rattle.oemm_octree.specs.Leaves.{AreBelow, AreTiles};
ghost use Rattle.mesh_data.specs.Mesh.{Mesh, start};
ghost use Rattle.sheet_data.specs.declared.index.IndexSheet.{IndexSheet};
ghost use Rattle.sheet_data.specs.declared.index.NumberedEntry.{NumberedEntry};
ghost use Rattle.sheet_data.specs.declared.patches.Patch.{Patch};
ghost use Rattle.sheet_data.specs.declared.sheets.LeafSheet.{LeafSheet};
ghost use Rattle.byte_grammar.specs.Calls.{Decodes};
ghost use Rattle.byte_grammar.specs.Reader.{IsBytes};
ghost use Rattle.byte_grammar.specs.declared.fault.CodecFault.{CodecFault};
ghost use Rattle.leaf_codec.specs.Entries.{IsEntrySpelling, entry};
ghost use Rattle.leaf_codec.specs.Index.{IsIndexSpelling, KeepsIndexRules, index};
ghost use Rattle.leaf_codec.specs.Sheets.{IsSheetSpelling, KeepsSheetRules};
ghost use Rattle.leaf_codec.specs.Sheets as sheets;
ghost use Rattle.mesh_sheets.specs.Sheets.{sheet};
ghost use Rattle.mesh_sheets.specs.Written.{sheets_of};
ghost use Rattle.sheet_forms.specs.Formed.{IsPatchFor, IsSheetOf};
ghost use Rattle.sheet_forms.specs.Storable.{IsStorable};
ghost use Rattle.stored_mesh.specs.Stored.{Base};
ghost use Rattle.store_spelling.specs.Bases.{IsBase};
ghost use Rattle.store_spelling.specs.Spelled.{Tells, store_spelling};

use leaf_codec::Blob;
use sheet_data::{IndexSheet, LeafSheet, NumberedEntry};

/// What decoding answers is what the bytes spell, and where it tells a fault they spell nothing.
pub fn reading_laws()
    ensures indexes { (bytes : List ℕ) (answer : Result IndexSheet CodecFault) → Decodes index bytes answer
        → Tells store_spelling.index bytes answer }
    ensures sheets { (bytes : List ℕ) (answer : Result LeafSheet CodecFault) → Decodes sheets.sheet bytes answer
        → Tells store_spelling.sheet bytes answer }
    ensures entries { (bytes : List ℕ) (answer : Result NumberedEntry CodecFault) → Decodes entry bytes answer
        → Tells store_spelling.entry bytes answer }
{}

/// What is encoded, in whichever format, is spelled so.
pub fn writing_laws()
    ensures indexes { (format : ℕ) (bytes : List ℕ) (x : IndexSheet) → IsIndexSpelling format bytes x
        → store_spelling.index bytes ≡ Some x }
    ensures sheets { (format : ℕ) (bytes : List ℕ) (x : LeafSheet) → IsSheetSpelling format bytes x
        → store_spelling.sheet bytes ≡ Some x }
    ensures entries { (format : ℕ) (bytes : List ℕ) (x : NumberedEntry) → IsEntrySpelling format bytes x
        → store_spelling.entry bytes ≡ Some x }
{
    IndexSheet::codec_laws();
    LeafSheet::codec_laws();
    NumberedEntry::codec_laws();
}

/// What bytes spell has its spelling in them, in some format.
pub fn spelling_laws()
    ensures indexes { (bytes : List ℕ) (x : IndexSheet) → IsBytes bytes → store_spelling.index bytes ≡ Some x
        → (format : ℕ) × IsIndexSpelling format bytes x }
    ensures sheets { (bytes : List ℕ) (x : LeafSheet) → IsBytes bytes → store_spelling.sheet bytes ≡ Some x
        → (format : ℕ) × IsSheetSpelling format bytes x }
    ensures entries { (bytes : List ℕ) (x : NumberedEntry) → IsBytes bytes → store_spelling.entry bytes ≡ Some x
        → (format : ℕ) × IsEntrySpelling format bytes x }
{
    IndexSheet::codec_laws();
    LeafSheet::codec_laws();
    NumberedEntry::codec_laws();
}

/// A sheet that a leaf can have can be encoded, and so can each sheet of a mesh that can stand in sheets, each that a
/// well-formed patch makes, and the index and the first sheets of a base that a store can be built from.
pub fn rule_laws()
    ensures formed { (cells : List Cell) (names leaf : ℕ) (s : LeafSheet) → names ≤ MOST_ITEMS
        → length cells ≤ MOST_LEAVES → length s.faces ≤ MOST_ITEMS → IsSheetOf cells names leaf s → KeepsSheetRules s }
    ensures sheets { (cells : List Cell) (names : ℕ) (m : Mesh) (leaf : ℕ) → names ≤ MOST_ITEMS
        → length cells ≤ MOST_LEAVES → leaf < length cells → IsStorable cells names m
        → KeepsSheetRules (sheet cells m leaf) }
    ensures written { (cells : List Cell) (core : List ℕ) (p : Patch) → AreTiles cells → AreBelow (length cells) core
        → IsPatchFor cells core p → All KeepsSheetRules (sheets_of cells p) }
    ensures index { (b : Base) → IsBase b → KeepsIndexRules b.index }
    ensures first { (b : Base) (leaf : ℕ) → IsBase b → leaf < length b.index.cells
        → KeepsSheetRules (sheet b.index.cells (start b.soup) leaf) }
{}

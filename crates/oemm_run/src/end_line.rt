//! What is told of an end.

ghost use Rattle.std.specs.Prelude.{◌≡◌, ◌++◌, OnOk, IfOk};
ghost use Rattle.std.specs.String.{string_bytes};
ghost use Rattle.oemm_run.specs.End.{end_text, end_words, mesh_why_text, script_why_text, shape_text, what_text};

use crate::end::End;
use edit_script::ScriptWhy;
use mesh_data::Shape;
use mesh_items::{ElementKind, MeshWhy};
use oemm_limits::What;
use oemm_lists::Bytes;
use std::alloc::{AllocError, Global};

/// The line that tells how a command ended, and nothing for `Done`.
///
/// # Errors
/// Want of memory.
pub fn end_text(alloc: Global, end: &End) -> Result<Bytes, AllocError>
    ensures { IfOk result (λ text. text ≡ end_text end.now) }
{
    let mut text = String::new(alloc);
    put_line(&mut text, end)?;
    Ok(Bytes::from_vec(text.into_bytes()))
}

fn put_line(text: &mut String, end: &End) -> Result<(), AllocError>
    ensures { OnOk result (string_bytes text.new ≡ string_bytes text.old ++ end_text end.now) }
{
    if let End::Done = end {
        return Ok(());
    }
    text.push_str("oemm: ")?;
    put_words(text, end)?;
    text.push_str("\n")
}

fn put_words(text: &mut String, end: &End) -> Result<(), AllocError>
    ensures { OnOk result (string_bytes text.new ≡ string_bytes text.old ++ end_words end.now) }
{
    match end {
        End::Done => Ok(()),
        End::Usage => text.push_str("usage"),
        End::ReadMesh => text.push_str("mesh can't be read"),
        End::ReadScript => text.push_str("script can't be read"),
        End::MeshText { at, why } => put_mesh_fault(text, *at, why),
        End::MeshShape(shape) => put_shape(text, shape),
        End::ScriptText { line, why } => put_script_fault(text, *line, why),
        End::WriteOut => text.push_str("output can't be written"),
        End::WriteReport => text.push_str("report can't be written"),
        End::Limit { what, count } => put_limit(text, what, *count),
        End::Memory => text.push_str("no memory"),
    }
}

fn put_mesh_fault(text: &mut String, at: u64, why: &MeshWhy) -> Result<(), AllocError>
    ensures { OnOk result (string_bytes text.new ≡ string_bytes text.old ++ end_words (End.MeshText at why.now)) }
{
    write!(text, "mesh fault at byte {at}: ")?;
    put_mesh_why(text, why)
}

fn put_shape(text: &mut String, shape: &Shape) -> Result<(), AllocError>
    ensures { OnOk result (string_bytes text.new ≡ string_bytes text.old ++ shape_text shape.now) }
{
    match shape {
        Shape::Edge { a, b } => write!(text, "mesh isn't a manifold: edge {} {}", a.0, b.0),
        Shape::Vertex { v } => write!(text, "mesh isn't a manifold: vertex {}", v.0),
    }
}

fn put_script_fault(text: &mut String, line: u32, why: &ScriptWhy) -> Result<(), AllocError>
    ensures { OnOk result (string_bytes text.new ≡ string_bytes text.old ++ end_words (End.ScriptText line why.now)) }
{
    write!(text, "script fault in line {line}: ")?;
    put_script_why(text, why)
}

fn put_limit(text: &mut String, what: &What, count: u64) -> Result<(), AllocError>
    ensures { OnOk result (string_bytes text.new ≡ string_bytes text.old ++ end_words (End.Limit what.now count)) }
{
    text.push_str("limit ")?;
    text.push_str(what_name(what))?;
    write!(text, ": {count}")
}

fn put_mesh_why(text: &mut String, why: &MeshWhy) -> Result<(), AllocError>
    ensures { OnOk result (string_bytes text.new ≡ string_bytes text.old ++ mesh_why_text why.now) }
{
    match why {
        MeshWhy::Head => text.push_str("Head"),
        MeshWhy::Ascii => text.push_str("Ascii"),
        MeshWhy::HeadLine => text.push_str("HeadLine"),
        MeshWhy::FaceFirst => text.push_str("FaceFirst"),
        MeshWhy::Twice => text.push_str("Twice"),
        MeshWhy::FloatCoordinate => text.push_str("FloatCoordinate"),
        MeshWhy::Kind => text.push_str("Kind"),
        MeshWhy::NoElement { which } => put_no_element(text, which),
        MeshWhy::NoProperty { which } => write!(text, "NoProperty {which}"),
        MeshWhy::Words => text.push_str("Words"),
        MeshWhy::Number => text.push_str("Number"),
        MeshWhy::ListCount => text.push_str("ListCount"),
        MeshWhy::NotInteger { vertex } => write!(text, "NotInteger {vertex}"),
        MeshWhy::OutOfRange { vertex } => write!(text, "OutOfRange {vertex}"),
        MeshWhy::NotTriangle { face } => write!(text, "NotTriangle {face}"),
        MeshWhy::BadIndex { face } => write!(text, "BadIndex {face}"),
        MeshWhy::Repeated { face } => write!(text, "Repeated {face}"),
        MeshWhy::Cut => text.push_str("Cut"),
    }
}

fn put_no_element(text: &mut String, which: &ElementKind) -> Result<(), AllocError>
    ensures { OnOk result
        (string_bytes text.new ≡ string_bytes text.old ++ mesh_why_text (MeshWhy.NoElement which.now)) }
{
    text.push_str(match which {
        ElementKind::Vertex => "NoElement Vertex",
        ElementKind::Face => "NoElement Face",
    })
}

fn put_script_why(text: &mut String, why: &ScriptWhy) -> Result<(), AllocError>
    ensures { OnOk result (string_bytes text.new ≡ string_bytes text.old ++ script_why_text why.now) }
{
    text.push_str(match why {
        ScriptWhy::Word => "Word",
        ScriptWhy::Words => "Words",
        ScriptWhy::Number => "Number",
        ScriptWhy::Lane => "Lane",
        ScriptWhy::Box => "Box",
        ScriptWhy::NoTask => "NoTask",
    })
}

fn what_name(what: &What) -> &'static str
    ensures { result.now ≡ what_text what.now }
{
    match what {
        What::Vertices => "Vertices",
        What::Faces => "Faces",
        What::MeshBytes => "MeshBytes",
        What::ScriptBytes => "ScriptBytes",
        What::LineBytes => "LineBytes",
        What::Tasks => "Tasks",
        What::Edits => "Edits",
    }
}

//! A header, line after line.

ghost use Rattle.std.specs.Prelude.{IfOk};
ghost use Rattle.oemm_lines.specs.Stream.{IsPlaced};
ghost use Rattle.ply_header.specs.Limits.{IsLimited};

use super::{
    ByteOrder, Header, ScalarType, ends, header_after, layout_of, nothing_declared, size_of,
};
use mesh_items::{ElementKind, MeshFault, MeshWhy};
use oemm_io::MemSource;
use oemm_lines::{Line, Lines};
use std::alloc::{AllocError, Global};
use std::test::Fail;

/// The first line of a text.
fn line_of(alloc: Global, text: &[u8]) -> Result<Line, AllocError>
    ensures { IfOk result IsPlaced }
{
    let source = MemSource::new(text.to_vec(alloc)?, Vec::new(alloc), 7);
    let Ok(mut lines) = Lines::new(alloc, source, 1 << 33, false) else {
        return Err(AllocError);
    };
    match lines.next() {
        Ok(Some(line)) => Ok(line),
        _ => Err(AllocError),
    }
}

/// The header behind a line that has no fault.
fn behind(alloc: Global, header: Header, text: &[u8]) -> Result<Header, AllocError>
    requires { IsLimited header }
    ensures { IfOk result IsLimited }
{
    let line = line_of(alloc, text)?;
    match header_after(alloc, header, line.at, line.words_left()) {
        Ok(header) => Ok(header),
        Err(_) => Err(AllocError),
    }
}

#[test]
fn a_header_of_five_elements_and_properties(rt: HostRuntime) -> Result<(), Fail> {
    let header = nothing_declared(rt.alloc());
    let header = behind(rt.alloc(), header, b"format binary_big_endian 1.0\n")?;
    let header = behind(rt.alloc(), header, b"element vertex 7\n")?;
    let header = behind(rt.alloc(), header, b"property short x\n")?;
    let header = behind(rt.alloc(), header, b"property uchar y\n")?;
    let header = behind(rt.alloc(), header, b"property double gloss\n")?;
    let header = behind(rt.alloc(), header, b"property int32 z\n")?;
    let header = behind(rt.alloc(), header, b"element strip 5\n")?;
    let header = behind(rt.alloc(), header, b"element face 9\n")?;
    let header = behind(
        rt.alloc(),
        header,
        b"property list uchar int vertex_index\n",
    )?;
    let end = line_of(rt.alloc(), b"end_header\n")?;
    assert!(rt; ends(&header, end.words_left()));
    match layout_of(header, 160, end.words_left()) {
        Ok(layout) => {
            assert!(rt; matches!(layout.order, ByteOrder::Big));
            assert_eq!(rt; (layout.vertex.count, layout.face.count), (7, 9));
            assert_eq!(rt; layout.vertex.properties.len(), 4);
            assert_eq!(rt; (layout.before.len(), layout.between.len()), (0, 1));
        }
        Err(fault) => assert_eq!(rt; Some(fault), None),
    }
    Ok(())
}

#[test]
fn a_header_without_elements(rt: HostRuntime) -> Result<(), Fail> {
    let header = nothing_declared(rt.alloc());
    let end = line_of(rt.alloc(), b"end_header\n")?;
    assert!(rt; !ends(&header, end.words_left()));
    let header = behind(rt.alloc(), header, b"format binary_little_endian 1.0\n")?;
    assert!(rt; ends(&header, end.words_left()));
    let why = MeshWhy::NoElement {
        which: ElementKind::Vertex,
    };
    match layout_of(header, 36, end.words_left()) {
        Ok(_) => assert!(rt; false),
        Err(fault) => assert_eq!(rt; fault, MeshFault::Text { at: 36, why }),
    }
    assert_eq!(rt; size_of(ScalarType::F64), 8);
    Ok(())
}

use super::*;
use mesh_data::{Edits, Entry, Lane, Name, Quad, Replies, Task, Tri, Tris};
use oemm_lists::Copied;
use oemm_octree::{Cell, Cells, LeafNo, LeafSet, Point, Points};
use std::alloc::Global;
use std::test::Fail;

const AT: Point = Point { x: 1, y: -2, z: 3 };

const TRI: Tri = Tri {
    a: Name(7),
    b: Name(8),
    c: Name(9),
};

fn vertex() -> SheetVertex {
    SheetVertex {
        name: Name(7),
        point: AT,
        quad: Quad {
            planes: 1,
            aa: 4,
            ab: 0,
            ac: 0,
            ad: -6,
            bb: 0,
            bc: 0,
            bd: 0,
            cc: 0,
            cd: 0,
            dd: 9,
        },
    }
}

#[test]
fn vertices_are_copied(rt: HostRuntime) -> Result<(), Fail> {
    let mut vertices = SheetVertices::new(rt.alloc());
    vertices.add(vertex())?;
    let copy = vertices.copy(rt.alloc())?;
    let seen = copy.slice().first().map(|v| (v.name, v.point, v.quad.dd));
    assert_eq!(rt; seen, Some((Name(7), AT, 9)));
    Ok(())
}

/// A sheet of one vertex and one face.
fn sheet(alloc: Global) -> Result<LeafSheet, Fail> {
    let mut vertices = SheetVertices::new(alloc);
    vertices.add(vertex())?;
    let mut faces = Tris::new(alloc);
    faces.add(TRI)?;
    Ok(LeafSheet {
        leaf: LeafNo(4),
        vertices,
        faces,
        near: LeafSet::new(alloc),
    })
}

#[test]
fn sheets_are_copied(rt: HostRuntime) -> Result<(), Fail> {
    let mut sheets = Sheets::new(rt.alloc());
    sheets.add(sheet(rt.alloc())?)?;
    let copy = sheets.copy(rt.alloc())?;
    let seen = copy.slice().first().map(|s| (s.leaf, s.vertices.len()));
    assert_eq!(rt; seen, Some((LeafNo(4), 1)));
    Ok(())
}

#[test]
fn patches_are_copied(rt: HostRuntime) -> Result<(), Fail> {
    let alloc = rt.alloc();
    let held = sheet(alloc)?;
    let mut mixed = Mixeds::new(alloc);
    mixed.add(Mixed {
        leaf: LeafNo(5),
        tri: TRI,
    })?;
    let mut near = NearLists::new(alloc);
    near.add(NearList {
        leaf: LeafNo(4),
        outside: LeafSet::new(alloc),
    })?;
    let patch = Patch {
        vertices: held.vertices,
        whole: held.faces,
        mixed,
        near,
    };
    let copy = patch.copy(alloc)?;
    assert_eq!(rt; copy.whole.slice(), [TRI].as_slice());
    assert_eq!(rt; copy.mixed.slice().first().map(|m| m.leaf), Some(LeafNo(5)));
    assert_eq!(rt; copy.near.slice().first().map(|n| n.leaf), Some(LeafNo(4)));
    Ok(())
}

#[test]
fn indexes_are_copied(rt: HostRuntime) -> Result<(), Fail> {
    let root = Cell {
        depth: 0,
        x: 0,
        y: 0,
        z: 0,
    };
    let index = IndexSheet {
        cap: 4096,
        core: 64,
        vertices: 6,
        faces: 8,
        euler: 2,
        border: 0,
        cells: Cells::from_vec(vec![in rt.alloc(); root]?),
    };
    let copy = index.copy(rt.alloc())?;
    assert_eq!(rt; (copy.cap, copy.core, copy.euler), (4096, 64, 2));
    assert_eq!(rt; copy.cells.slice(), [root].as_slice());
    Ok(())
}

#[test]
fn entries_are_copied_with_their_numbers(rt: HostRuntime) -> Result<(), Fail> {
    let alloc = rt.alloc();
    let entry = Entry {
        task: Task {
            lane: Lane(2),
            number: 3,
            low: AT,
            high: AT,
            edits: Edits::new(alloc),
        },
        wide: true,
        replies: Replies::new(alloc),
        core: LeafSet::new(alloc),
    };
    let copy = NumberedEntry { number: 9, entry }.copy(alloc)?;
    assert_eq!(rt; (copy.number, copy.entry.task.number), (9, 3));
    Ok(())
}

#[test]
fn pages_and_runs_are_copied(rt: HostRuntime) -> Result<(), Fail> {
    let page = PageSheet {
        page: 1,
        points: Points::from_vec(vec![in rt.alloc(); AT]?),
    };
    assert_eq!(rt; page.copy(rt.alloc())?.points.slice(), [AT].as_slice());
    let face = RunFace {
        tri: TRI,
        a: AT,
        b: AT,
        c: AT,
    };
    let run = RunSheet {
        leaf: LeafNo(4),
        part: 2,
        records: RunFaces::from_vec(vec![in rt.alloc(); face]?),
    };
    let copy = run.copy(rt.alloc())?;
    assert_eq!(rt; (copy.leaf, copy.part), (LeafNo(4), 2));
    assert_eq!(rt; copy.records.slice(), [face].as_slice());
    Ok(())
}

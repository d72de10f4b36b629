use crate::{Sample, script_text};
use mesh_data::{Edit, Lane, List, Name, Point, Script, Task, Tri};
use mesh_items::{Item, Items};
use std::test::Fail;

/// A sample's vertices and faces.
#[derive(Clone, Copy)]
struct Row {
    side: u32,
    seed: u32,
    vertices: &'static [[i16; 3]],
    faces: &'static [[u32; 3]],
}

/// The least sample, of seed 0.
const LEAST: Row = Row {
    side: 2,
    seed: 0,
    vertices: &[
        [-32767, -32767, -16],
        [32767, -32767, 2],
        [-32767, 32767, 6],
        [32767, 32767, -9],
    ],
    faces: &[[0, 1, 2], [1, 3, 2]],
};

/// Three vertices along a side, and the seed 1, of which the generator's first numbers are known: their high parts are
/// 16838, 5758, 10113, 17515, 31051, 5627, 23010, 7419 and 16212.
const THREE: Row = Row {
    side: 3,
    seed: 1,
    vertices: &[
        [-32766, -32766, -8],
        [0, -32766, 0],
        [32766, -32766, -1],
        [-32766, 0, 9],
        [0, 0, 15],
        [32766, 0, 1],
        [-32766, 32766, -7],
        [0, 32766, 11],
        [32766, 32766, -7],
    ],
    faces: &[
        [0, 1, 3],
        [1, 4, 3],
        [1, 2, 4],
        [2, 5, 4],
        [3, 4, 6],
        [4, 7, 6],
        [4, 5, 7],
        [5, 8, 7],
    ],
};

fn vertex(at: &[i16; 3]) -> Item {
    let [x, y, z] = *at;
    Item::Vertex(Point { x, y, z })
}

fn face(names: &[u32; 3]) -> Item {
    let [a, b, c] = *names;
    Item::Face(Tri {
        a: Name(a),
        b: Name(b),
        c: Name(c),
    })
}

#[test]
fn samples(rt: HostRuntime) {
    for (v, f, row) in [(4, 2, LEAST), (9, 8, THREE)] {
        let mut sample = Sample::new(row.side, row.seed);
        let counts = Item::Counts { v, f };
        assert_eq!(rt; sample.next(), Ok(Some(counts)));
        for at in row.vertices {
            assert_eq!(rt; sample.next(), Ok(Some(vertex(at))));
        }
        for names in row.faces {
            assert_eq!(rt; sample.next(), Ok(Some(face(names))));
        }
        assert_eq!(rt; sample.next(), Ok(None));
        assert_eq!(rt; sample.next(), Ok(None));
    }
}

#[test]
fn greatest_sample(rt: HostRuntime) {
    let mut sample = Sample::new(2897, 2147483647);
    let counts = Item::Counts {
        v: 8392609,
        f: 16773632,
    };
    assert_eq!(rt; sample.next(), Ok(Some(counts)));
}

const LINES: &str = "task 0 -32768 -32768 -32768 32767 32767 32767
move 4294967295 -1 0 1
collapse 4 0 85070591730234615865843651857942052864
flip 1 2
simplify 100000 4
task 63 0 0 0 0 0 0
";

#[test]
fn texts(rt: HostRuntime) -> Result<(), Fail> {
    let alloc = rt.alloc();
    let to = Point { x: -1, y: 0, z: 1 };
    let edits = vec![in alloc;
        Edit::Move {
            v: Name(4294967295),
            to
        },
        Edit::Collapse {
            u: Name(4),
            v: Name(0),
            max: 1 << 126
        },
        Edit::Flip {
            a: Name(1),
            b: Name(2)
        },
        Edit::Simplify {
            max: 100000,
            target: 4
        },
    ]?;
    let first = Task {
        lane: Lane(0),
        number: 0,
        low: Point {
            x: -32768,
            y: -32768,
            z: -32768,
        },
        high: Point {
            x: 32767,
            y: 32767,
            z: 32767,
        },
        edits: List::from_vec(edits),
    };
    let middle = Point { x: 0, y: 0, z: 0 };
    let second = Task {
        lane: Lane(63),
        number: 0,
        low: middle,
        high: middle,
        edits: List::new(alloc),
    };
    let script = Script {
        tasks: List::from_vec(vec![in alloc; first, second]?),
    };
    let text = script_text(alloc, &script)?;
    assert!(rt; text.slice() == LINES.as_bytes());
    Ok(())
}

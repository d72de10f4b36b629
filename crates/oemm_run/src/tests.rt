use super::*;
use edit_script::ScriptWhy;
use mesh_data::{Name, Shape};
use mesh_items::{ElementKind, MeshWhy};
use oemm_io::{MemSink, MemSource};
use oemm_limits::What;
use oemm_words::CommandWords;
use std::alloc::{AllocError, Global};
use std::test::Fail;

const TETRAHEDRON: &str =
    "OFF\n4 4 0\n0 0 0\n4 0 0\n0 4 0\n0 0 4\n3 0 2 1\n3 0 1 3\n3 0 3 2\n3 1 2 3\n";

const MOVES: &str =
    "task 0 -32768 -32768 -32768 32767 32767 32767\nmove 0 -1 -1 -1\nmove 9 0 0 0\n";

const MOVED: &str =
    "OFF\n4 4 0\n-1 -1 -1\n4 0 0\n0 4 0\n0 0 4\n3 0 1 3\n3 0 2 1\n3 0 3 2\n3 1 2 3\n";

const REPORT: &str =
    "commit 0 lane 0 number 0 box -32768 -32768 -32768 32767 32767 32767\nmove 0 -1 -1 -1\n  done\nmove 9 0 0 0\n  unheld 9\nvertices 4 faces 4 euler 2 border 0\n";

/// Which call of each object fails, counted from 1; 0 is none.
#[derive(Clone, Copy)]
struct Failing {
    mesh: u64,
    script: u64,
    out: u64,
    report: u64,
}

const NONE: Failing = Failing {
    mesh: 0,
    script: 0,
    out: 0,
    report: 0,
};

#[derive(Drop)]
struct Outcome {
    end: End,
    out: Vec<u8>,
    report: Vec<u8>,
}

fn words_of(alloc: Global, words: &[&str]) -> Result<CommandWords, AllocError> {
    let mut all = CommandWords::new(alloc);
    for word in words {
        all.push(word)?;
    }
    Ok(all)
}

fn source_of(
    alloc: Global,
    text: &[u8],
    failing: u64,
    piece: usize,
) -> Result<MemSource, AllocError> {
    let bytes = text.to_vec(alloc)?;
    Ok(MemSource::new(bytes, vec![in alloc; failing]?, piece.max(1)))
}

fn sink_of(alloc: Global, failing: u64, piece: usize) -> Result<MemSink, AllocError> {
    MemSink::with_room(alloc, 4096, vec![in alloc; failing]?, piece.max(1))
}

fn run_on(
    alloc: Global,
    words: &[&str],
    mesh: &[u8],
    script: &str,
    piece: usize,
    failing: Failing,
) -> Result<Outcome, AllocError> {
    let words = words_of(alloc, words)?;
    let io = Io {
        mesh: source_of(alloc, mesh, failing.mesh, piece)?,
        script: source_of(alloc, script.as_bytes(), failing.script, piece)?,
        out: sink_of(alloc, failing.out, piece)?,
        report: sink_of(alloc, failing.report, piece)?,
    };
    let (io, end) = run(alloc, &words, io);
    let out = io.out.bytes().to_vec(alloc)?;
    let report = io.report.bytes().to_vec(alloc)?;
    Ok(Outcome { end, out, report })
}

const RUN: [&str; 4] = ["run", "m.off", "s.txt", "o.off"];

#[test]
fn empty_mesh_and_tetrahedron(rt: HostRuntime) -> Result<(), Fail> {
    for piece in [1, 7, 4096] {
        let empty = run_on(rt.alloc(), &RUN, b"OFF\n0 0 0\n", "", piece, NONE)?;
        assert_eq!(rt; empty.end, End::Done);
        assert_eq!(rt; empty.out.as_slice(), b"OFF\n0 0 0\n".as_slice());
        assert_eq!(rt;
            empty.report.as_slice(),
            b"vertices 0 faces 0 euler 0 border 0\n".as_slice()
        );
        let moved = run_on(rt.alloc(), &RUN, TETRAHEDRON.as_bytes(), MOVES, piece, NONE)?;
        assert_eq!(rt; moved.end, End::Done);
        assert_eq!(rt; moved.out.as_slice(), MOVED.as_bytes());
        assert_eq!(rt; moved.report.as_slice(), REPORT.as_bytes());
    }
    Ok(())
}

const TRIANGLE: &str = "OFF # a corner\n3 1\n\n0 0 0\n+4.0 0 0\n0 4. -0\n3 0 1 2 # a face\nno more";

const TRIANGLE_PLY: &[u8] =
    b"ply\nformat binary_little_endian 1.0\nelement vertex 3\nproperty short x\nproperty short y\nproperty short z\nelement face 1\nproperty list uchar int vertex_indices\nend_header\n\x00\x00\x00\x00\x00\x00\x04\x00\x00\x00\x00\x00\x00\x00\x04\x00\x00\x00\x03\x00\x00\x00\x00\x01\x00\x00\x00\x02\x00\x00\x00";

#[test]
fn a_triangle_is_written_in_ply(rt: HostRuntime) -> Result<(), Fail> {
    let words = ["run", "m.off", "s.txt", "o.ply"];
    for piece in [1, 7, 4096] {
        let done = run_on(
            rt.alloc(),
            &words,
            TRIANGLE.as_bytes(),
            "# no task\n",
            piece,
            NONE,
        )?;
        assert_eq!(rt; done.end, End::Done);
        assert_eq!(rt; done.out.as_slice(), TRIANGLE_PLY);
        assert_eq!(rt;
            done.report.as_slice(),
            b"vertices 3 faces 1 euler 1 border 3\n".as_slice()
        );
    }
    Ok(())
}

const HAND_MADE: &[u8] =
    b"ply\nformat binary_big_endian 1.0\ncomment made by hand\nelement vertex 3\nproperty short x\nproperty short y\nproperty short z\nproperty float nx\nelement face 1\nproperty list uchar int vertex_index\nend_header\n\x00\x00\x00\x00\x00\x00\x00\x00\x00\x00\x00\x04\x00\x00\x00\x00\x00\x00\x00\x00\x00\x00\x00\x04\x00\x00\x00\x00\x00\x00\x03\x00\x00\x00\x00\x00\x00\x00\x01\x00\x00\x00\x02";

#[test]
fn a_mesh_with_the_high_bytes_first(rt: HostRuntime) -> Result<(), Fail> {
    for piece in [1, 7, 4096] {
        let done = run_on(rt.alloc(), &RUN, HAND_MADE, "", piece, NONE)?;
        assert_eq!(rt; done.end, End::Done);
        assert_eq!(rt;
            done.out.as_slice(),
            b"OFF\n3 1 0\n0 0 0\n4 0 0\n0 4 0\n3 0 1 2\n".as_slice()
        );
    }
    Ok(())
}

#[test]
fn a_cut_binary_mesh(rt: HostRuntime) -> Result<(), Fail> {
    for len in [0usize, 4, 71, 202, 203, 243, 245] {
        let told = run_on(rt.alloc(), &RUN, &HAND_MADE[..len], "", 7, NONE)?;
        let at = len as u64;
        let end = End::MeshText {
            at,
            why: MeshWhy::Cut,
        };
        assert_eq!(rt; told.end, end, "{len}");
    }
    let two = run_on(rt.alloc(), &RUN, &HAND_MADE[..2], "", 7, NONE)?;
    let head = End::MeshText {
        at: 0,
        why: MeshWhy::Head,
    };
    assert_eq!(rt; two.end, head);
    Ok(())
}

#[test]
fn a_line_that_is_too_long(rt: HostRuntime) -> Result<(), Fail> {
    let line = vec![in rt.alloc(); b'#'; 65537]?;
    let end = End::Limit {
        what: What::LineBytes,
        count: 65537,
    };
    let mesh = run_on(rt.alloc(), &RUN, &line, "", 4096, NONE)?;
    assert_eq!(rt; mesh.end, end);
    let whole = run_on(rt.alloc(), &RUN, &line[1..], "", 4096, NONE)?;
    assert_eq!(rt;
        whole.end,
        End::MeshText {
            at: 65536,
            why: MeshWhy::Cut
        }
    );
    Ok(())
}

#[test]
fn a_second_take_that_fails(rt: HostRuntime) -> Result<(), Fail> {
    let failing = Failing { mesh: 2, ..NONE };
    let told = run_on(rt.alloc(), &RUN, TETRAHEDRON.as_bytes(), MOVES, 1, failing)?;
    assert_eq!(rt; told.end, End::ReadMesh);
    Ok(())
}

const OCTAHEDRON: &str =
    "OFF\n6 8 0\n4 0 0\n-4 0 0\n0 4 0\n0 -4 0\n0 0 4\n0 0 -4\n3 0 2 4\n3 2 1 4\n3 1 3 4\n3 3 0 4\n3 2 0 5\n3 1 2 5\n3 3 1 5\n3 0 3 5\n";

const PYRAMID: &str =
    "OFF\n5 6 0\n4 0 0\n-4 0 0\n0 4 0\n0 -4 0\n0 0 -4\n3 0 1 3\n3 0 2 1\n3 0 3 4\n3 0 4 2\n3 1 2 4\n3 1 4 3\n";

#[test]
fn the_octahedrons_cheapest_collapse(rt: HostRuntime) -> Result<(), Fail> {
    let script =
        "task 0 -32768 -32768 -32768 32767 32767 32767\ncollapse 4 0 32767\ncollapse 4 0 32768\n";
    let done = run_on(rt.alloc(), &RUN, OCTAHEDRON.as_bytes(), script, 99, NONE)?;
    assert_eq!(rt; done.end, End::Done);
    assert_eq!(rt; done.out.as_slice(), PYRAMID.as_bytes());
    let report =
        "commit 0 lane 0 number 0 box -32768 -32768 -32768 32767 32767 32767\ncollapse 4 0 32767\n  dear 32768\ncollapse 4 0 32768\n  done 32768\nvertices 5 faces 6 euler 2 border 0\n";
    assert_eq!(rt; done.report.as_slice(), report.as_bytes());
    Ok(())
}

#[test]
fn the_octahedron_thinned_to_six_faces(rt: HostRuntime) -> Result<(), Fail> {
    let script =
        "task 0 -32768 -32768 -32768 32767 32767 32767\nsimplify 32767 6\nsimplify 40000 6\n";
    let done = run_on(rt.alloc(), &RUN, OCTAHEDRON.as_bytes(), script, 99, NONE)?;
    assert_eq!(rt; done.end, End::Done);
    let report =
        "commit 0 lane 0 number 0 box -32768 -32768 -32768 32767 32767 32767\nsimplify 32767 6\n  simplified 8\nsimplify 40000 6\n  collapse 0 2 32768\n  simplified 6\nvertices 5 faces 6 euler 2 border 0\n";
    assert_eq!(rt; done.report.as_slice(), report.as_bytes());
    Ok(())
}

const SQUARE: &str =
    "OFF\n4 2 0\n-32767 -32767 -16\n32767 -32767 2\n-32767 32767 6\n32767 32767 -9\n3 0 1 2\n3 1 3 2\n";

#[test]
fn the_diagonal_of_a_square_is_flipped_once(rt: HostRuntime) -> Result<(), Fail> {
    let script =
        "task 0 -32768 -32768 -32768 32767 32767 32767\ncollapse 0 1 9\nflip 1 2\nflip 1 2\n";
    let done = run_on(rt.alloc(), &RUN, SQUARE.as_bytes(), script, 99, NONE)?;
    assert_eq!(rt; done.end, End::Done);
    let report =
        "commit 0 lane 0 number 0 box -32768 -32768 -32768 32767 32767 32767\ncollapse 0 1 9\n  border\nflip 1 2\n  done\nflip 1 2\n  apart\nvertices 4 faces 2 euler 1 border 4\n";
    assert_eq!(rt; done.report.as_slice(), report.as_bytes());
    Ok(())
}

#[test]
fn words_in_no_form(rt: HostRuntime) -> Result<(), Fail> {
    let told = run_on(rt.alloc(), &["run", "a", "b", "c.obj"], b"", "", 9, NONE)?;
    assert_eq!(rt; told.end, End::Usage);
    Ok(())
}

#[test]
fn faults_of_the_mesh(rt: HostRuntime) -> Result<(), Fail> {
    for (mesh, at, why) in [
        ("", 0, MeshWhy::Cut),
        ("pl", 0, MeshWhy::Head),
        ("plyx\n", 0, MeshWhy::Head),
        ("ply\n", 4, MeshWhy::Cut),
        ("ply\nformat ascii 1.0\n", 4, MeshWhy::Ascii),
        ("OFF\n1\n", 4, MeshWhy::Words),
        (
            "OFF\n2 0 0\n0 0 0\n1.5 0 0\n",
            16,
            MeshWhy::NotInteger { vertex: 1 },
        ),
        ("OFF\n1 x\n", 4, MeshWhy::Number),
        (
            "OFF\n1 0\n0 0 32768\n",
            8,
            MeshWhy::OutOfRange { vertex: 0 },
        ),
        (
            "OFF\n3 1\n0 0 0\n1 1 1\n2 2 2\n4 0 1 2\n",
            26,
            MeshWhy::NotTriangle { face: 0 },
        ),
        (
            "OFF\n3 1\n0 0 0\n1 1 1\n2 2 2\n3 0 1 3\n",
            26,
            MeshWhy::BadIndex { face: 0 },
        ),
        (
            "OFF\n3 1\n0 0 0\n1 1 1\n2 2 2\n3 0 1 1\n",
            26,
            MeshWhy::Repeated { face: 0 },
        ),
    ] {
        for piece in [1, 7, 4096] {
            let told = run_on(rt.alloc(), &RUN, mesh.as_bytes(), MOVES, piece, NONE)?;
            assert_eq!(rt; told.end, End::MeshText { at, why }, "{mesh}");
            assert!(rt; told.out.is_empty() && told.report.is_empty());
        }
    }
    for (mesh, what, count) in [
        ("OFF\n4097 0 0\n", What::Vertices, 4097),
        ("OFF\n16777217 0 0\n", What::Vertices, 16777217),
        ("OFF\n4096 16777217\n", What::Faces, 16777217),
    ] {
        for piece in [1, 7, 4096] {
            let told = run_on(rt.alloc(), &RUN, mesh.as_bytes(), "", piece, NONE)?;
            assert_eq!(rt; told.end, End::Limit { what, count }, "{mesh}");
        }
    }
    Ok(())
}

fn edge(a: u32, b: u32) -> Shape {
    Shape::Edge {
        a: Name(a),
        b: Name(b),
    }
}

/// The audit comes before the script is opened: its source would fail.
#[test]
fn meshes_that_are_no_manifold(rt: HostRuntime) -> Result<(), Fail> {
    let vertex = Shape::Vertex { v: Name(0) };
    let unread = Failing { script: 1, ..NONE };
    for (faces, shape) in [
        ("3 0 1 2\n3 0 1 3\n", edge(0, 1)),
        ("3 0 1 2\n3 0 1 2\n", edge(0, 1)),
        ("3 0 1 2\n3 0 3 4\n", vertex),
        ("3 0 1 2\n3 0 2 1\n", vertex),
    ] {
        let mesh = format!(in rt.alloc();
            "OFF\n5 2 0\n0 0 0\n4 0 0\n0 4 0\n0 0 4\n1 1 1\n{faces}"
        )?;
        for piece in [1, 4096] {
            let told = run_on(
                rt.alloc(),
                &RUN,
                mesh.as_str().as_bytes(),
                "",
                piece,
                unread,
            )?;
            assert_eq!(rt; told.end, End::MeshShape(shape), "{faces}");
            assert!(rt; told.out.is_empty() && told.report.is_empty());
        }
    }
    let lone = "OFF\n4 1 0\n0 0 0\n4 0 0\n0 4 0\n0 0 4\n3 0 1 2\n";
    let told = run_on(rt.alloc(), &RUN, lone.as_bytes(), "", 4096, NONE)?;
    assert_eq!(rt; told.end, End::Done);
    Ok(())
}

#[test]
fn faults_of_the_script(rt: HostRuntime) -> Result<(), Fail> {
    for (script, line, why) in [
        ("turn 0 1\n", 1, ScriptWhy::Word),
        ("\nmove 0 1\n", 2, ScriptWhy::Words),
        ("task 0 x 0 0 1 1 1\n", 1, ScriptWhy::Number),
        ("task 64 0 0 0 1 1 1\n", 1, ScriptWhy::Lane),
        ("task 0 5 0 0 4 0 0\n", 1, ScriptWhy::Box),
        ("move 0 1 1 1\n", 1, ScriptWhy::NoTask),
    ] {
        for piece in [1, 7, 4096] {
            let told = run_on(
                rt.alloc(),
                &RUN,
                TETRAHEDRON.as_bytes(),
                script,
                piece,
                NONE,
            )?;
            assert_eq!(rt; told.end, End::ScriptText { line, why }, "{script}");
            assert!(rt; told.out.is_empty() && told.report.is_empty());
        }
    }
    Ok(())
}

#[test]
fn cut_meshes(rt: HostRuntime) -> Result<(), Fail> {
    let text = TETRAHEDRON.as_bytes();
    for len in 0..text.len() - 1 {
        let told = run_on(rt.alloc(), &RUN, &text[..len], "", 4096, NONE)?;
        assert_ne!(rt; told.end, End::Done, "{len}");
        assert!(rt; told.out.is_empty() && told.report.is_empty());
    }
    Ok(())
}

#[test]
fn failing_calls(rt: HostRuntime) -> Result<(), Fail> {
    let text = TETRAHEDRON.as_bytes();
    for call in 1..4 {
        let mesh = run_on(
            rt.alloc(),
            &RUN,
            text,
            MOVES,
            40,
            Failing { mesh: call, ..NONE },
        )?;
        assert_eq!(rt; mesh.end, End::ReadMesh);
        let script = run_on(
            rt.alloc(),
            &RUN,
            text,
            MOVES,
            40,
            Failing {
                script: call,
                ..NONE
            },
        )?;
        assert_eq!(rt; script.end, End::ReadScript);
        assert!(rt; script.out.is_empty() && script.report.is_empty());
        let out = run_on(
            rt.alloc(),
            &RUN,
            text,
            MOVES,
            40,
            Failing { out: call, ..NONE },
        )?;
        assert_eq!(rt; out.end, End::WriteOut);
        assert!(rt; MOVED.as_bytes().starts_with(out.out.as_slice()) && out.report.is_empty());
        let report = run_on(
            rt.alloc(),
            &RUN,
            text,
            MOVES,
            40,
            Failing {
                report: call,
                ..NONE
            },
        )?;
        assert_eq!(rt; report.end, End::WriteReport);
        assert_eq!(rt; report.out.as_slice(), MOVED.as_bytes());
        assert!(rt; REPORT.as_bytes().starts_with(report.report.as_slice()));
    }
    Ok(())
}

#[test]
fn ends_are_told(rt: HostRuntime) -> Result<(), Fail> {
    for (end, code, text) in [
        (End::Done, 0, ""),
        (End::Usage, 1, "oemm: usage\n"),
        (End::ReadMesh, 2, "oemm: mesh can't be read\n"),
        (End::ReadScript, 2, "oemm: script can't be read\n"),
        (
            End::MeshText {
                at: 16,
                why: MeshWhy::OutOfRange { vertex: 1 },
            },
            3,
            "oemm: mesh fault at byte 16: OutOfRange 1\n",
        ),
        (
            End::MeshText {
                at: 40,
                why: MeshWhy::NoElement {
                    which: ElementKind::Vertex,
                },
            },
            3,
            "oemm: mesh fault at byte 40: NoElement Vertex\n",
        ),
        (
            End::MeshText {
                at: 60,
                why: MeshWhy::NoElement {
                    which: ElementKind::Face,
                },
            },
            3,
            "oemm: mesh fault at byte 60: NoElement Face\n",
        ),
        (
            End::MeshShape(edge(0, 1)),
            4,
            "oemm: mesh isn't a manifold: edge 0 1\n",
        ),
        (
            End::MeshShape(Shape::Vertex { v: Name(7) }),
            4,
            "oemm: mesh isn't a manifold: vertex 7\n",
        ),
        (
            End::ScriptText {
                line: 3,
                why: ScriptWhy::NoTask,
            },
            5,
            "oemm: script fault in line 3: NoTask\n",
        ),
        (End::WriteOut, 7, "oemm: output can't be written\n"),
        (End::WriteReport, 7, "oemm: report can't be written\n"),
        (
            End::Limit {
                what: What::Vertices,
                count: 4097,
            },
            8,
            "oemm: limit Vertices: 4097\n",
        ),
        (End::Memory, 9, "oemm: no memory\n"),
    ] {
        assert_eq!(rt; status(&end), code);
        assert_eq!(rt; end_text(rt.alloc(), &end)?.slice(), text.as_bytes());
    }
    Ok(())
}

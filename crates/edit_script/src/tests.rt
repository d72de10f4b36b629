ghost use Rattle.std.specs.Prelude.{◌≤◌};

use super::{ScriptFault, ScriptWhy, read_script};
use mesh_data::{Edit, Lane, Name, Script};
use oemm_io::MemSource;
use oemm_limits::What;
use oemm_octree::Point;
use std::alloc::{AllocError, Global};
use std::process::Abort;
use std::test::Fail;

/// Reads the text from a source that gives at most `piece` bytes at a take.
fn read_by(alloc: Global, text: &[u8], piece: usize) -> Result<Script, ScriptFault>
    requires { 1 ≤ piece }
{
    let source = MemSource::new(Vec::from_slice(alloc, text)?, Vec::new(alloc), piece);
    let (_, script) = read_script(alloc, source);
    script
}

fn read(alloc: Global, text: &[u8]) -> Result<Script, ScriptFault> {
    read_by(alloc, text, 1)
}

#[test]
fn tasks_are_numbered_by_lanes(rt: HostRuntime) -> Result<(), Fail> {
    let script = read(
        rt.alloc(),
        b"\n task 01 -1 -2 -3 4 5 6\r\nmove 7 -32768 -0 0032767\n \t\nmove 4294967295 1 2 3\n\
          task 63 0 0 0 0 0 0\ntask\t1 0 0 0 1 1 1\nmove 0 0 0 0",
    )?;
    let tasks = script.tasks.slice();
    assert_eq!(rt; tasks.len(), 3);
    let places = [(1, 0, 2), (63, 0, 0), (1, 1, 1)];
    for (task, (lane, number, edits)) in tasks.iter().zip(places) {
        assert_eq!(rt; task.lane, Lane(lane));
        assert_eq!(rt; (task.number, task.edits.len()), (number, edits));
    }
    let first = &tasks[0];
    assert_eq!(rt;
        first.low,
        Point {
            x: -1,
            y: -2,
            z: -3
        }
    );
    assert_eq!(rt; first.high, Point { x: 4, y: 5, z: 6 });
    let to = Point {
        x: -32768,
        y: 0,
        z: 32767,
    };
    let edit = Edit::Move { v: Name(7), to };
    assert_eq!(rt; first.edits.slice().first().copied(), Some(edit));
    Ok(())
}

#[test]
fn an_empty_script_has_no_task(rt: HostRuntime) -> Result<(), Fail> {
    for text in [
        b"".as_slice(),
        b"\n",
        b" \r\n\t\n",
        b"#",
        b"# task\n \t#\r\n",
    ] {
        assert_eq!(rt; read(rt.alloc(), text)?.tasks.len(), 0);
    }
    Ok(())
}

/// Wants the same answer of the text a byte at a take and all at once: the number of tasks, or the fault.
fn expect_read(rt: &impl Abort, alloc: Global, text: &[u8], expected: Result<usize, ScriptFault>) {
    let slow = read(alloc, text).map(|script| script.tasks.len());
    assert_eq!(rt; slow, expected);
    let fast = read_by(alloc, text, 65536).map(|script| script.tasks.len());
    assert_eq!(rt; fast, expected);
}

fn expect_fault(rt: &impl Abort, alloc: Global, text: &[u8], line: u32, why: ScriptWhy) {
    expect_read(rt, alloc, text, Err(ScriptFault::Syntax { line, why }));
}

const TASK_FAULTS: [(&str, u32, ScriptWhy); 19] = [
    ("thin 0 1", 1, ScriptWhy::Word),
    ("Task 0 0 0 0 0 0 0", 1, ScriptWhy::Word),
    ("ta#sk 0 0 0 0 0 0 0", 1, ScriptWhy::Word),
    ("# task\n\ntask", 3, ScriptWhy::Words),
    ("task", 1, ScriptWhy::Words),
    ("task 0 0 0 0 0 0 x", 1, ScriptWhy::Number),
    ("task x 0 0 0 0 0", 1, ScriptWhy::Words),
    ("task 0 0 0 0 0 0 0 0 # all", 1, ScriptWhy::Words),
    ("task 64 5 0 0 4 0", 1, ScriptWhy::Words),
    ("task 64 0 0 0 0 0 x", 1, ScriptWhy::Number),
    ("task +1 0 0 0 0 0 0", 1, ScriptWhy::Number),
    ("task 64 0 0 0 0 0 0", 1, ScriptWhy::Lane),
    ("task 0 -32769 0 0 0 0 0", 1, ScriptWhy::Number),
    ("task 0 0 0 0 0 0 32768", 1, ScriptWhy::Number),
    ("task 64 5 0 0 4 0 0", 1, ScriptWhy::Lane),
    (
        "task 1000000000000000000000000000000000000000 0 0 0 0 0 0",
        1,
        ScriptWhy::Lane,
    ),
    ("task 0 5 0 0 4 0 0", 1, ScriptWhy::Box),
    ("task 0 0 5 0 0 4 0", 1, ScriptWhy::Box),
    ("task 0 0 0 5 0 0 4", 1, ScriptWhy::Box),
];

const EDIT_FAULTS: [(&str, u32, ScriptWhy); 24] = [
    ("move 0 1", 1, ScriptWhy::Words),
    ("move 0 1 2 x", 1, ScriptWhy::Number),
    ("\n \nmove 0 1 2 3\nx", 3, ScriptWhy::NoTask),
    (
        "task 0 0 0 0 0 0 0\n\nmove 4294967296 0 0 0",
        3,
        ScriptWhy::Number,
    ),
    (
        "\r\ntask 0 0 0 0 0 0 0\nmove 0 0 0 0 0\n",
        3,
        ScriptWhy::Words,
    ),
    ("collapse", 1, ScriptWhy::Words),
    ("collapse 0 1", 1, ScriptWhy::Words),
    ("collapse 0 1 2 3", 1, ScriptWhy::Words),
    ("collapse 0 1 -5", 1, ScriptWhy::Number),
    (
        "collapse 0 1 85070591730234615865843651857942052865",
        1,
        ScriptWhy::Number,
    ),
    ("collapse 0 1 5", 1, ScriptWhy::NoTask),
    ("flip 3", 1, ScriptWhy::Words),
    ("flip 3 #4", 1, ScriptWhy::Words),
    ("flip 3#4 5", 1, ScriptWhy::Words),
    ("flip 3 4\r", 1, ScriptWhy::Number),
    ("flip 3 4\r\r\n", 1, ScriptWhy::Number),
    ("# flip\r\nflip 3 4\r\n", 2, ScriptWhy::NoTask),
    ("flip 3 4 5", 1, ScriptWhy::Words),
    ("flip 3 x", 1, ScriptWhy::Number),
    ("flip -3 4", 1, ScriptWhy::Number),
    ("flip 4294967296 0", 1, ScriptWhy::Number),
    ("simplify 5", 1, ScriptWhy::Words),
    ("simplify 5 6 7", 1, ScriptWhy::Words),
    ("simplify 5 16777217", 1, ScriptWhy::Number),
];

#[test]
fn the_first_fault_is_found(rt: HostRuntime) {
    for rows in [TASK_FAULTS.as_slice(), &EDIT_FAULTS] {
        for (text, line, why) in rows {
            expect_fault(&rt, rt.alloc(), text.as_bytes(), *line, *why);
        }
    }
}

/// The edit of a script of one task with one edit.
fn one_edit(alloc: Global, text: &str) -> Result<Option<Edit>, ScriptFault> {
    let script = read(alloc, text.as_bytes())?;
    let task = script.tasks.slice().first();
    Ok(task.and_then(|task| task.edits.slice().first().copied()))
}

const COLLAPSE: &str = "task 0 0 0 0 0 0 0\ncollapse 0 1 5";

const DEAREST: &str =
    "task 0 0 0 0 0 0 0\ncollapse 4294967295 01 0085070591730234615865843651857942052864";

const FLIP: &str = "task 0 0 0 0 0 0 0\nflip 3 4";

const COMMENTED: &str = "# one\n#\r\n task 0 0 0 0 0 0 0# two\n\t# three #\nflip 3 4#5 6\n# four";

const SIMPLIFY: &str = "task 0 0 0 0 0 0 0\nsimplify 5 16777216";

const PADDED: &str = "task 0000 -00 00 0 0 0 0\r\nsimplify 0005 00016777216\r\n";

fn collapse(u: u32, v: u32, max: i128) -> Edit {
    Edit::Collapse {
        u: Name(u),
        v: Name(v),
        max,
    }
}

#[test]
fn edits_are_read(rt: HostRuntime) -> Result<(), Fail> {
    let flip = Edit::Flip {
        a: Name(3),
        b: Name(4),
    };
    let simplify = Edit::Simplify {
        max: 5,
        target: 16777216,
    };
    let dearest = collapse(4294967295, 1, 1 << 126);
    for (text, edit) in [
        (COLLAPSE, collapse(0, 1, 5)),
        (DEAREST, dearest),
        (FLIP, flip),
        (COMMENTED, flip),
        (SIMPLIFY, simplify),
        (PADDED, simplify),
    ] {
        assert_eq!(rt; one_edit(rt.alloc(), text)?, Some(edit), "{text}");
    }
    Ok(())
}

#[test]
fn a_source_that_fails_is_a_fault_of_reading(rt: HostRuntime) -> Result<(), Fail> {
    let failing = vec![in rt.alloc(); 2u64]?;
    let source = MemSource::new(Vec::from_slice(rt.alloc(), b"flip")?, failing, 9);
    let (_, script) = read_script(rt.alloc(), source);
    assert_eq!(rt;
        script.map(|script| script.tasks.len()),
        Err(ScriptFault::Read)
    );
    Ok(())
}

/// A text with a comment of so many bytes in front of `back`.
fn behind_comment(
    alloc: Global,
    front: &[u8],
    count: usize,
    back: &[u8],
) -> Result<Vec<u8>, AllocError> {
    let comment = vec![in alloc; b'#'; count]?;
    let mut text = Vec::from_slice(alloc, front)?;
    text.extend_from_slice(&comment)?;
    text.extend_from_slice(back)?;
    Ok(text)
}

const LONG: ScriptFault = ScriptFault::TooMany {
    what: What::LineBytes,
    count: 65537,
};

const FEW_WORDS: ScriptFault = ScriptFault::Syntax {
    line: 1,
    why: ScriptWhy::Words,
};

const LONG_LINES: [(&str, usize, &str, Result<usize, ScriptFault>); 5] = [
    ("", 65536, "\ntask 0 0 0 0 0 0 0", Ok(1)),
    ("", 65537, "\nflip", Err(LONG)),
    ("\n", 65537, "", Err(LONG)),
    ("flip\n", 65537, "", Err(FEW_WORDS)),
    ("flip ", 65531, "", Err(FEW_WORDS)),
];

#[test]
fn a_line_has_its_limit(rt: HostRuntime) -> Result<(), Fail> {
    for (front, count, back, expected) in &LONG_LINES {
        let text = behind_comment(rt.alloc(), front.as_bytes(), *count, back.as_bytes())?;
        expect_read(&rt, rt.alloc(), &text, *expected);
    }
    Ok(())
}

use crate::{journal_text, lane_part, line_text};
use mesh_data::{Edit, Edits, Entries, Entry, Lane, Name, Replies, Reply, Step, Steps, Task, Tri};
use oemm_octree::{LeafSet, Point};
use std::alloc::{AllocError, Global};
use std::test::Fail;

fn cube_of(n: i16) -> Point {
    Point { x: n, y: n, z: n }
}

fn moved(v: u32, to: i16) -> Edit {
    Edit::Move {
        v: Name(v),
        to: cube_of(to),
    }
}

fn entry(
    lane: u8,
    number: u32,
    wide: bool,
    edits: Vec<Edit>,
    replies: Vec<Reply>,
    core: LeafSet,
) -> Entry {
    Entry {
        task: Task {
            lane: Lane(lane),
            number,
            low: cube_of(-32768),
            high: cube_of(32767),
            edits: Edits::from_vec(edits),
        },
        wide,
        replies: Replies::from_vec(replies),
        core,
    }
}

fn one_reply(
    alloc: Global,
    lane: u8,
    number: u32,
    edit: Edit,
    reply: Reply,
) -> Result<Entry, AllocError> {
    let edits = vec![in alloc; edit]?;
    let replies = vec![in alloc; reply]?;
    Ok(entry(lane, number, false, edits, replies, LeafSet::new(alloc)))
}

const TWO_LANES: &str = "commit 0 lane 0 number 0 box -32768 -32768 -32768 32767 32767 32767
move 0 -1 -1 -1
  done
commit 1 lane 63 number 0 box -32768 -32768 -32768 32767 32767 32767
move 9 0 0 0
  unheld 9
";

const SECOND_LANE: &str = "commit 7 lane 63 number 0 box -32768 -32768 -32768 32767 32767 32767
move 9 0 0 0
  unheld 9
";

#[test]
fn entries_of_two_lanes(rt: HostRuntime) -> Result<(), Fail> {
    let alloc = rt.alloc();
    let first = one_reply(alloc, 0, 0, moved(0, -1), Reply::Done)?;
    let second = one_reply(alloc, 63, 0, moved(9, 0), Reply::Unheld(Name(9)))?;
    let entries = Entries::from_vec(vec![in alloc; first, second]?);
    let text = journal_text(alloc, 0, &entries)?;
    assert!(rt; text.slice() == TWO_LANES.as_bytes());

    let part = lane_part(alloc, &entries, Lane(63))?;
    assert_eq!(rt; part.len(), 1);
    let text = line_text(alloc, 7, part.at(0))?;
    assert!(rt; text.slice() == SECOND_LANE.as_bytes());
    Ok(())
}

const TWO_EDITS: &str = "commit 4 lane 1 number 2 box -32768 -32768 -32768 32767 32767 32767
move 5 3 3 3
  frozen 5
move 6 -7 -7 -7
  outside
";

const WIDE: &str = "commit 4 lane 1 number 2 box -32768 -32768 -32768 32767 32767 32767 wide
move 5 3 3 3
move 6 -7 -7 -7
";

#[test]
fn entries_of_two_edits(rt: HostRuntime) -> Result<(), Fail> {
    let alloc = rt.alloc();
    for (wide, lines) in [(false, TWO_EDITS), (true, WIDE)] {
        let edits = vec![in alloc; moved(5, 3), moved(6, -7)]?;
        let replies = vec![in alloc; Reply::Frozen(Name(5)), Reply::Outside]?;
        let entry = entry(1, 2, wide, edits, replies, LeafSet::new(alloc));
        let text = line_text(alloc, 4, &entry)?;
        assert!(rt; text.slice() == lines.as_bytes());
    }
    Ok(())
}

const ONE_LANE: &str = "commit 0 lane 0 number 0 box -32768 -32768 -32768 32767 32767 32767\n";

const FLIP: Edit = Edit::Flip {
    a: Name(3),
    b: Name(4),
};

const FACE: Tri = Tri {
    a: Name(5),
    b: Name(12),
    c: Name(9),
};

const REPLIES: [(Reply, &str); 13] = [
    (Reply::Unheld(Name(4294967295)), "unheld 4294967295"),
    (Reply::Frozen(Name(0)), "frozen 0"),
    (Reply::Same, "same"),
    (Reply::Apart, "apart"),
    (Reply::Border, "border"),
    (Reply::Link(Name(17)), "link 17"),
    (Reply::Closed, "closed"),
    (Reply::Folds(FACE), "folds 5 12 9"),
    (Reply::Dear(48), "dear 48"),
    (Reply::Edge(Name(6), Name(30)), "edge 6 30"),
    (Reply::Outside, "outside"),
    (Reply::Done, "done"),
    (Reply::DoneAt(-1), "done -1"),
];

#[test]
fn replies_to_a_flip(rt: HostRuntime) -> Result<(), Fail> {
    let alloc = rt.alloc();
    for (reply, line) in REPLIES {
        let entry = one_reply(alloc, 0, 0, FLIP, reply)?;
        let lines = format!(in alloc; "{ONE_LANE}flip 3 4\n  {line}\n")?;
        assert!(rt;
            line_text(alloc, 0, &entry)?.slice() == lines.as_bytes(),
            "{line}"
        );
    }
    Ok(())
}

const GREATEST: &str = "collapse 8 0 85070591730234615865843651857942052864";

#[test]
fn bounds_of_a_collapse(rt: HostRuntime) -> Result<(), Fail> {
    let alloc = rt.alloc();
    for (max, line) in [(0, "collapse 8 0 0"), (1 << 126, GREATEST)] {
        let (u, v) = (Name(8), Name(0));
        let entry = one_reply(
            alloc,
            0,
            0,
            Edit::Collapse { u, v, max },
            Reply::DoneAt(max),
        )?;
        let lines = format!(in alloc; "{ONE_LANE}{line}\n  done {max}\n")?;
        assert!(rt;
            line_text(alloc, 0, &entry)?.slice() == lines.as_bytes(),
            "{line}"
        );
    }
    Ok(())
}

const SIMPLIFY: Edit = Edit::Simplify {
    max: 40000,
    target: 6,
};

const STEPS: [Step; 2] = [
    Step {
        u: Name(0),
        v: Name(2),
        cost: 32768,
    },
    Step {
        u: Name(4294967295),
        v: Name(1),
        cost: 0,
    },
];

const TWO_STEPS: &str = "  collapse 0 2 32768
  collapse 4294967295 1 0
  simplified 6
";

const NO_STEP: &str = "  simplified 8\n";

#[test]
fn simplifications(rt: HostRuntime) -> Result<(), Fail> {
    let alloc = rt.alloc();
    for (steps, left, reply) in [(STEPS.as_slice(), 6, TWO_STEPS), (&[], 8, NO_STEP)] {
        let steps = Steps::from_vec(Vec::from_slice(alloc, steps)?);
        let entry = one_reply(alloc, 0, 0, SIMPLIFY, Reply::Simplified { steps, left })?;
        let lines = format!(in alloc; "{ONE_LANE}simplify 40000 6\n{reply}")?;
        assert!(rt;
            line_text(alloc, 0, &entry)?.slice() == lines.as_bytes(),
            "{reply}"
        );
    }
    Ok(())
}

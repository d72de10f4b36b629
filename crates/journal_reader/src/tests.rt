//! The report of two workers without its summary, whole and spoilt, and a journal with each kind of line.

use super::*;
use commit_journal::journal_text;
use std::alloc::{AllocError, Global};
use std::test::Fail;

const REPORT: &str = "commit 0 lane 1 number 0 box 1 1 1 30 30 30
move 0 20 20 20
  done
commit 1 lane 0 number 0 box -30 -30 -30 -1 -1 -1
move 4 -20 -20 -20
  done
";

/// The line in which a text goes wrong, or None.
fn fault_line(alloc: Global, text: &[u8]) -> Result<Option<u64>, AllocError> {
    match entries_of(alloc, text) {
        Ok(_) => Ok(None),
        Err(JournalFault::Syntax { line }) => Ok(Some(line)),
        Err(JournalFault::Memory) => Err(AllocError),
    }
}

/// Whether a text, numbered from this number, is read and then written as itself.
fn comes_back(alloc: Global, first: u32, text: &str) -> Result<bool, AllocError> {
    let Ok(entries) = entries_of(alloc, text.as_bytes()) else {
        return Ok(false);
    };
    if entries.len() > 99 || first > 99 {
        return Ok(false);
    }
    let again = journal_text(alloc, first, &entries)?;
    Ok(again.slice() == text.as_bytes())
}

#[test]
fn report_comes_back(rt: HostRuntime) -> Result<(), Fail> {
    let alloc = rt.alloc();
    assert!(rt; comes_back(alloc, 0, REPORT)?);
    assert!(rt; comes_back(alloc, 7, "")?);
    let Ok(entries) = entries_of(alloc, REPORT.as_bytes()) else {
        return Err(AllocError.into());
    };
    assert_eq!(rt; entries.len(), 2);
    assert_eq!(rt; entries.at(0).task.lane.0, 1);
    assert_eq!(rt; entries.at(1).task.low.x, -30);
    assert_eq!(rt; entries.at(1).replies.len(), 1);
    Ok(())
}

/// The line that a report goes wrong in whose front has so many line feeds, where the front ends with one of them.
const ENDS: [Option<u64>; 7] = [None, None, Some(3), None, None, Some(6), None];

#[test]
fn cuts_of_the_report(rt: HostRuntime) -> Result<(), Fail> {
    let alloc = rt.alloc();
    let bytes = REPORT.as_bytes();
    for cut in 0..bytes.len() {
        let front = &bytes[..cut];
        let feeds = front.iter().filter(|c| **c == b'\n').count();
        let whole = front.iter().last().is_none_or(|c| *c == b'\n');
        let line = if whole {
            *ENDS.iter().nth(feeds).ok_or("a line too many")?
        } else {
            Some(feeds as u64 + 1)
        };
        assert_eq!(rt; fault_line(alloc, front)?, line, "cut at {cut}");
    }
    Ok(())
}

/// The report with other lines in the place of one, which is counted from 1.
fn with_lines(alloc: Global, place: usize, other: &str) -> Result<String, AllocError> {
    let mut text = String::new(alloc);
    for (k, line) in REPORT.split_inclusive('\n').enumerate() {
        if k < place && place - k == 1 {
            text.push_str(other)?;
        } else {
            text.push_str(line)?;
        }
    }
    Ok(text)
}

/// Without a line the report goes wrong in this line. Without the fourth it is that of one entry with two edits.
const DROPPED: [Option<u64>; 6] = [Some(1), Some(2), Some(3), None, Some(5), Some(6)];

#[test]
fn a_line_dropped_or_doubled(rt: HostRuntime) -> Result<(), Fail> {
    let alloc = rt.alloc();
    for (k, (line, dropped)) in REPORT.split_inclusive('\n').zip(DROPPED).enumerate() {
        let place = k + 1;
        let text = with_lines(alloc, place, "")?;
        assert_eq!(rt;
            fault_line(alloc, text.as_bytes())?,
            dropped,
            "without {place}"
        );
        let doubled = format!(in alloc; "{line}{line}")?;
        let text = with_lines(alloc, place, doubled.as_str())?;
        assert_eq!(rt;
            fault_line(alloc, text.as_bytes())?,
            Some(place as u64 + 1),
            "twice {place}"
        );
    }
    Ok(())
}

/// Lines in the place of one, and where the report goes wrong then.
const CHANGED: [(usize, &str, Option<u64>); 31] = [
    (1, "commit 00 lane 1 number 0 box 1 1 1 30 30 30\n", Some(1)),
    (1, "commit 1 lane 1 number 0 box 1 1 1 30 30 30\n", Some(4)),
    (1, "commit 0 lane 64 number 0 box 1 1 1 30 30 30\n", Some(1)),
    (
        1,
        "commit 0 lane 63 number 4294967295 box 1 1 1 30 30 30\n",
        None,
    ),
    (
        1,
        "commit 0 lane 1 number 4294967296 box 1 1 1 30 30 30\n",
        Some(1),
    ),
    (1, "commit 0 lane 1 number 0 box 1 31 1 30 30 30\n", Some(1)),
    (1, "commit 0 lane 1 number 0 box 1 1 1 30 30\n", Some(1)),
    (
        1,
        "commit 0 lane 1 number 0 box 1 1 1 30 30 30 30\n",
        Some(1),
    ),
    (
        1,
        "commit 0 lane 1 number 0 box 1 1 1 30 30 30 wide\n",
        Some(3),
    ),
    (1, "commit 0  lane 1 number 0 box 1 1 1 30 30 30\n", Some(1)),
    (2, "move 0 20 20 20 \n", Some(2)),
    (2, "move 00 20 20 20\n", Some(2)),
    (2, "move 0 +20 20 20\n", Some(2)),
    (2, "move 0 -0 20 20\n", Some(2)),
    (2, "move 0 20 20 32768\n", Some(2)),
    (2, "move 0 20 20 -32768\n", None),
    (2, "move 4294967296 20 20 20\n", Some(2)),
    (2, "Move 0 20 20 20\n", Some(2)),
    (2, "\n", Some(2)),
    (2, "# move 0 20 20 20\n", Some(2)),
    (2, "flip 0 20\n", None),
    (2, "simplify 40000 6\n", Some(3)),
    (3, " done\n", Some(3)),
    (3, "done\n", Some(3)),
    (3, "  done \n", Some(3)),
    (3, "  done\r\n", Some(3)),
    (3, "  done 5\n", Some(3)),
    (3, "  same\n", Some(3)),
    (3, "  outside\n", None),
    (
        4,
        "commit 2 lane 0 number 0 box -30 -30 -30 -1 -1 -1\n",
        Some(4),
    ),
    (6, "  done", Some(6)),
];

#[test]
fn a_line_changed(rt: HostRuntime) -> Result<(), Fail> {
    let alloc = rt.alloc();
    for (place, line, wrong) in &CHANGED {
        let text = with_lines(alloc, *place, line)?;
        assert_eq!(rt; fault_line(alloc, text.as_bytes())?, *wrong, "{line}");
    }
    Ok(())
}

const KINDS: &str = "commit 41 lane 63 number 7 box -32768 -32768 -32768 32767 32767 32767
collapse 8 0 85070591730234615865843651857942052864
  unheld 4294967295
collapse 0 1 0
  frozen 0
collapse 1 1 9
  same
collapse 1 2 9
  apart
collapse 1 3 9
  border
collapse 1 4 9
  link 17
collapse 1 5 9
  closed
collapse 1 6 9
  folds 5 12 9
collapse 1 7 9
  dear 48
collapse 1 8 9
  dear -85070591730234615865843651857942052864
collapse 1 9 9
  done -1
flip 6 30
  edge 6 30
flip 6 31
  done
move 3 -32768 0 32767
  outside
simplify 0 16777216
  simplified 4294967295
simplify 85070591730234615865843651857942052864 0
  collapse 4 5 0
  collapse 5 6 85070591730234615865843651857942052864
  simplified 0
commit 42 lane 0 number 0 box 0 0 0 0 0 0 wide
flip 1 2
simplify 5 5
commit 43 lane 0 number 1 box 0 0 0 0 0 0
";

#[test]
fn each_kind_of_line_comes_back(rt: HostRuntime) -> Result<(), Fail> {
    let alloc = rt.alloc();
    assert!(rt; comes_back(alloc, 41, KINDS)?);
    Ok(())
}

/// Edits with replies that can't stand so, behind the head of an entry, and the line.
const REFUSED: [(&str, u64); 12] = [
    ("collapse 1 2 -1\n", 2),
    ("collapse 1 2 85070591730234615865843651857942052865\n", 2),
    ("simplify 5 16777217\n", 2),
    ("collapse 1 2 3\n  done\n", 3),
    ("collapse 1 2 3\n  edge 1 2\n", 3),
    ("collapse 1 2 3\n  folds 5 4 9\n", 3),
    ("collapse 1 2 3\n  folds 5 9 9\n", 3),
    ("flip 1 2\n  edge 2 1\n", 3),
    ("flip 1 2\n  collapse 1 2 3\n", 3),
    ("flip 1 2\n  simplified 3\n", 3),
    ("simplify 5 5\n  collapse 1 2 3\n", 4),
    ("simplify 5 5\n  collapse 1 2 3\n  done 3\n", 4),
];

#[test]
fn replies_that_no_edit_has(rt: HostRuntime) -> Result<(), Fail> {
    let alloc = rt.alloc();
    for (lines, wrong) in &REFUSED {
        let text = format!(in alloc; "commit 0 lane 0 number 0 box 0 0 0 0 0 0\n{lines}")?;
        assert_eq!(rt;
            fault_line(alloc, text.as_bytes())?,
            Some(*wrong),
            "{lines}"
        );
    }
    Ok(())
}

//! Lines of sources that give one byte at a take, three, and all.

use super::{Line, LineFault, Lines, Word, WordsLeft};
use oemm_io::{MemSource, Source};
use std::alloc::{AllocError, Global};
use std::test::Fail;

/// A line as it is wanted.
struct Wanted {
    at: u64,
    number: u64,
    bytes: &'static [u8],
    words: &'static [Word],
}

/// What bytes say: the lines, and the fault behind them or the end.
struct Case {
    bytes: &'static [u8],
    comments: bool,
    budget: u64,
    lines: &'static [Wanted],
    end: Option<LineFault>,
}

/// More bytes than any source here has.
const AMPLE: u64 = 1 << 40;

const ENDS: [Case; 3] = [
    Case {
        bytes: b"a b\r\n\rc\rd\n\n \t\r\n\xff\0\r\r\ne\r",
        comments: false,
        budget: 22,
        lines: &[
            Wanted {
                at: 0,
                number: 1,
                bytes: b"a b",
                words: &[Word { from: 0, to: 1 }, Word { from: 2, to: 3 }],
            },
            Wanted {
                at: 5,
                number: 2,
                bytes: b"\rc\rd",
                words: &[Word { from: 0, to: 4 }],
            },
            Wanted {
                at: 10,
                number: 3,
                bytes: b"",
                words: &[],
            },
            Wanted {
                at: 11,
                number: 4,
                bytes: b" \t",
                words: &[],
            },
            Wanted {
                at: 15,
                number: 5,
                bytes: b"\xff\0\r",
                words: &[Word { from: 0, to: 3 }],
            },
            Wanted {
                at: 20,
                number: 6,
                bytes: b"e\r",
                words: &[Word { from: 0, to: 2 }],
            },
        ],
        end: None,
    },
    Case {
        bytes: b"",
        comments: true,
        budget: 0,
        lines: &[],
        end: None,
    },
    Case {
        bytes: b" \t ",
        comments: true,
        budget: AMPLE,
        lines: &[Wanted {
            at: 0,
            number: 1,
            bytes: b" \t ",
            words: &[],
        }],
        end: None,
    },
];

const COMMENTS: [Case; 2] = [
    Case {
        bytes: b"#c\na#b c\n  # d\ntab\tb #\n#",
        comments: true,
        budget: AMPLE,
        lines: &[
            Wanted {
                at: 0,
                number: 1,
                bytes: b"#c",
                words: &[],
            },
            Wanted {
                at: 3,
                number: 2,
                bytes: b"a#b c",
                words: &[Word { from: 0, to: 1 }],
            },
            Wanted {
                at: 9,
                number: 3,
                bytes: b"  # d",
                words: &[],
            },
            Wanted {
                at: 15,
                number: 4,
                bytes: b"tab\tb #",
                words: &[Word { from: 0, to: 3 }, Word { from: 4, to: 5 }],
            },
            Wanted {
                at: 23,
                number: 5,
                bytes: b"#",
                words: &[],
            },
        ],
        end: None,
    },
    Case {
        bytes: b"#c\na#b c",
        comments: false,
        budget: AMPLE,
        lines: &[
            Wanted {
                at: 0,
                number: 1,
                bytes: b"#c",
                words: &[Word { from: 0, to: 2 }],
            },
            Wanted {
                at: 3,
                number: 2,
                bytes: b"a#b c",
                words: &[Word { from: 0, to: 3 }, Word { from: 4, to: 5 }],
            },
        ],
        end: None,
    },
];

const BUDGETS: [Case; 7] = [
    Case {
        bytes: b"ab\r\ncd\n",
        comments: false,
        budget: 7,
        lines: &[
            Wanted {
                at: 0,
                number: 1,
                bytes: b"ab",
                words: &[Word { from: 0, to: 2 }],
            },
            Wanted {
                at: 4,
                number: 2,
                bytes: b"cd",
                words: &[Word { from: 0, to: 2 }],
            },
        ],
        end: None,
    },
    Case {
        bytes: b"ab\r\ncd\n",
        comments: false,
        budget: 6,
        lines: &[Wanted {
            at: 0,
            number: 1,
            bytes: b"ab",
            words: &[Word { from: 0, to: 2 }],
        }],
        end: Some(LineFault::Bytes { taken: 6 }),
    },
    Case {
        bytes: b"ab\r\ncd\n",
        comments: false,
        budget: 4,
        lines: &[Wanted {
            at: 0,
            number: 1,
            bytes: b"ab",
            words: &[Word { from: 0, to: 2 }],
        }],
        end: Some(LineFault::Bytes { taken: 4 }),
    },
    Case {
        bytes: b"ab\r\ncd\n",
        comments: false,
        budget: 3,
        lines: &[],
        end: Some(LineFault::Bytes { taken: 3 }),
    },
    Case {
        bytes: b"ab",
        comments: false,
        budget: 2,
        lines: &[Wanted {
            at: 0,
            number: 1,
            bytes: b"ab",
            words: &[Word { from: 0, to: 2 }],
        }],
        end: None,
    },
    Case {
        bytes: b"ab",
        comments: false,
        budget: 1,
        lines: &[],
        end: Some(LineFault::Bytes { taken: 1 }),
    },
    Case {
        bytes: b"\n",
        comments: false,
        budget: 0,
        lines: &[],
        end: Some(LineFault::Bytes { taken: 0 }),
    },
];

/// A reader of bytes, of which the source gives so many at a take and fails at one take.
fn reader(
    alloc: Global,
    bytes: Vec<u8>,
    piece: usize,
    failing: u64,
    budget: u64,
    comments: bool,
) -> Result<Lines<MemSource>, AllocError> {
    let source = MemSource::new(bytes, vec![in alloc; failing]?, piece.max(1));
    match Lines::new(alloc, source, budget, comments) {
        Ok(lines) => Ok(lines),
        Err((_, error)) => Err(error),
    }
}

fn is_wanted(line: &Line, wanted: &Wanted) -> bool {
    line.at == wanted.at
        && line.number == wanted.number
        && line.bytes.slice() == wanted.bytes
        && line.words.slice() == wanted.words
}

/// Whether the next line is this one.
fn gives(lines: &mut Lines<MemSource>, wanted: &Wanted) -> Result<bool, LineFault> {
    Ok(match lines.next()? {
        Some(line) => is_wanted(&line, wanted),
        None => false,
    })
}

/// Whether the reader gives no line more, or this fault.
fn ends(lines: &mut Lines<MemSource>, wanted: Option<LineFault>) -> bool {
    match (lines.next(), wanted) {
        (Ok(None), None) => true,
        (Err(fault), Some(wanted)) => fault == wanted,
        _ => false,
    }
}

/// Whether the bytes of a case say what they are to say, so many of them at a take.
fn holds(alloc: Global, case: &Case, piece: usize) -> Result<bool, LineFault> {
    let bytes = Vec::from_slice(alloc, case.bytes)?;
    let mut lines = reader(alloc, bytes, piece, 0, case.budget, case.comments)?;
    for wanted in case.lines {
        if !gives(&mut lines, wanted)? {
            return Ok(false);
        }
    }
    Ok(ends(&mut lines, case.end) && ends(&mut lines, case.end))
}

/// Which of these cases fails with takes of one byte, of three or of all.
fn first_failing(alloc: Global, cases: &[Case]) -> Result<Option<usize>, LineFault> {
    for (i, case) in cases.iter().enumerate() {
        if !(holds(alloc, case, 1)? && holds(alloc, case, 3)? && holds(alloc, case, 100)?) {
            return Ok(Some(i));
        }
    }
    Ok(None)
}

#[test]
fn ends_of_lines(rt: HostRuntime) {
    assert_eq!(rt; first_failing(rt.alloc(), &ENDS), Ok(None));
}

#[test]
fn comments(rt: HostRuntime) {
    assert_eq!(rt; first_failing(rt.alloc(), &COMMENTS), Ok(None));
}

#[test]
fn budgets(rt: HostRuntime) {
    assert_eq!(rt; first_failing(rt.alloc(), &BUDGETS), Ok(None));
}

/// A line `x`, so many letters and an end.
fn long_text(alloc: Global, letters: usize, end: &[u8]) -> Result<Vec<u8>, AllocError> {
    let mut bytes = vec![in alloc; b'a'; letters]?;
    bytes.extend_from_slice(end)?;
    let mut text = Vec::from_slice(alloc, b"x\n")?;
    text.extend_from_slice(bytes.as_slice())?;
    Ok(text)
}

/// The length of the second line of such a text, or its fault, which comes again.
fn second_line(
    alloc: Global,
    text: Vec<u8>,
    piece: usize,
    budget: u64,
) -> Result<usize, LineFault> {
    let mut lines = reader(alloc, text, piece, 0, budget, false)?;
    if lines.next()?.is_none() {
        return Ok(0);
    }
    match lines.next() {
        Ok(Some(line)) => Ok(line.bytes.len()),
        Ok(None) => Ok(0),
        Err(fault) => match lines.next() {
            Err(again) if again == fault => Err(fault),
            _ => Ok(1),
        },
    }
}

#[test]
fn long_lines(rt: HostRuntime) -> Result<(), Fail> {
    let too_long = Err(LineFault::TooLong { at: 2 });
    let rows: [(usize, &[u8], u64, Result<usize, LineFault>); 8] = [
        (65536, b"\n", AMPLE, Ok(65536)),
        (65535, b"\r\n", AMPLE, Ok(65535)),
        (65536, b"", 65538, Ok(65536)),
        (65536, b"\r\n", AMPLE, too_long),
        (65537, b"\n", AMPLE, too_long),
        (65537, b"", 65539, too_long),
        (65537, b"", 65538, Err(LineFault::Bytes { taken: 65538 })),
        (65536, b"\n", 65538, Err(LineFault::Bytes { taken: 65538 })),
    ];
    for (letters, end, budget, wanted) in &rows {
        for piece in [1, 200000] {
            let text = long_text(rt.alloc(), *letters, end)?;
            assert_eq!(rt; second_line(rt.alloc(), text, piece, *budget), *wanted);
        }
    }
    Ok(())
}

/// Whether the words that are left are these.
fn are_left(mut words: WordsLeft<'_>, wanted: &[&[u8]]) -> bool {
    for word in wanted {
        if words.next() != Some(*word) {
            return false;
        }
    }
    words.next().is_none()
}

#[test]
fn words_of_a_line(rt: HostRuntime) -> Result<(), Fail> {
    let text = Vec::from_slice(rt.alloc(), b" \tab\tc d # e\n")?;
    let mut lines = reader(rt.alloc(), text, 3, 0, AMPLE, true)?;
    let line = lines.next()?.expect(&rt, "there is a line");
    assert_eq!(rt; line.word(0), Some(b"ab".as_slice()));
    assert_eq!(rt; line.word(2), Some(b"d".as_slice()));
    assert_eq!(rt; line.word(3), None);
    assert!(rt; are_left(line.words_left(), &[b"ab", b"c", b"d"]));
    Ok(())
}

/// What a raw call answers and fills in, of a buffer of three bytes.
fn raw3(lines: &mut Lines<MemSource>) -> (Result<usize, LineFault>, [u8; 3]) {
    let mut buf = [0u8; 3];
    let read = lines.raw(&mut buf);
    (read, buf)
}

#[test]
fn raw_bytes_behind_a_line(rt: HostRuntime) -> Result<(), Fail> {
    for piece in [1, 100] {
        let text = Vec::from_slice(rt.alloc(), b"h\n1\n3x\nz")?;
        let mut lines = reader(rt.alloc(), text, piece, 0, 8, false)?;
        assert_eq!(rt; lines.raw(&mut []), Ok(0));
        assert!(rt; lines.next()?.is_some());
        assert_eq!(rt; raw3(&mut lines), (Ok(3), *b"1\n3"));
        assert_eq!(rt;
            lines.next()?.map(|line| (line.at, line.number)),
            Some((5, 2))
        );
        assert_eq!(rt; raw3(&mut lines), (Ok(1), *b"z\0\0"));
        assert_eq!(rt; raw3(&mut lines), (Ok(0), [0, 0, 0]));
    }
    Ok(())
}

#[test]
fn raw_bytes_past_the_budget(rt: HostRuntime) -> Result<(), Fail> {
    let fault = LineFault::Bytes { taken: 5 };
    for piece in [1, 100] {
        let text = Vec::from_slice(rt.alloc(), b"12345\n")?;
        let mut lines = reader(rt.alloc(), text, piece, 0, 5, false)?;
        assert_eq!(rt; raw3(&mut lines).0, Ok(3));
        assert_eq!(rt; raw3(&mut lines).0, Err(fault));
        assert_eq!(rt; lines.raw(&mut []), Err(fault));
        assert!(rt; ends(&mut lines, Some(fault)));
    }
    Ok(())
}

#[test]
fn a_source_that_fails(rt: HostRuntime) -> Result<(), Fail> {
    for (piece, first) in [(1, Err(LineFault::Read)), (100, Ok(Some(1)))] {
        let text = Vec::from_slice(rt.alloc(), b"a\nb")?;
        let mut lines = reader(rt.alloc(), text, piece, 2, AMPLE, false)?;
        let line = lines.next();
        assert_eq!(rt; line.map(|line| line.map(|line| line.bytes.len())), first);
        assert_eq!(rt; raw3(&mut lines).0, Err(LineFault::Read));
        assert!(rt; ends(&mut lines, Some(LineFault::Read)));
    }
    Ok(())
}

#[test]
fn the_source_comes_back(rt: HostRuntime) -> Result<(), Fail> {
    let text = Vec::from_slice(rt.alloc(), b"a\nb")?;
    let mut lines = reader(rt.alloc(), text, 1, 9, AMPLE, false)?;
    assert!(rt; lines.next()?.is_some());
    let mut buf = [0u8; 3];
    let mut source = lines.into_source();
    assert_eq!(rt; source.take(&mut buf), Ok(1));
    assert_eq!(rt; buf[0], b'b');
    Ok(())
}

/// So many lines of seven bytes.
fn many_lines(alloc: Global, count: u64) -> Result<Vec<u8>, AllocError> {
    let mut text = Vec::new(alloc);
    for _ in 0..count {
        text.extend_from_slice(b"ab cde\n")?;
    }
    Ok(text)
}

#[test]
fn lines_across_blocks(rt: HostRuntime) -> Result<(), Fail> {
    for piece in [30000, 200000] {
        let text = many_lines(rt.alloc(), 40000)?;
        let mut lines = reader(rt.alloc(), text, piece, 0, AMPLE, false)?;
        for i in 0..40000u64 {
            let line = lines.next()?.expect(&rt, "there is a line");
            assert_eq!(rt; (line.at, line.number), (7 * i, i + 1));
            assert_eq!(rt; line.bytes.slice(), b"ab cde".as_slice());
        }
        assert!(rt; ends(&mut lines, None));
    }
    Ok(())
}

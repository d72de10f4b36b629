//! A file that is written whole, or left as it was.

ghost use Rattle.std.specs.Prelude.{◌≡◌, ◌↔◌, ◌≤◌, ◌<◌, ◌==◌, ◌&&◌, Ok, None, Some, true, length, IfOk, IsErrAnd, OnOk, OnErr};
ghost use Rattle.std.specs.IoError.{error_kind};
ghost use Rattle.std.specs.String.{string_bytes};
ghost use Rattle.fault_counts.specs.Counts.{HasCause};
ghost use Rattle.oemm_io.specs.Files.{fresh};

use crate::flows::{Failed, Sink};
use crate::tally::Tally;
use std::alloc::Global;
use std::fs::{OpenFile, OpenOptions};
use std::io::{ErrorKind, Write};
use std::marker::Model;
use std::rt::Files;
use std::{fs, io};

/// What is appended to the name of a file for that of the one that is written first.
const SECOND: &str = ".new";

/// A file that is written.
///
/// Where a regular file stands at the path, or nothing, the bytes go to a second file beside it, with `.new` behind its
/// name. A finish writes that to the disk and gives it the name, so that until then an older file stands as it was. Where
/// the path is a link to a regular file, that is the one that is replaced. Where something else stands there (a device,
/// a pipe, a link to one), or a file that may not be written, it is written in place or refused as the system has it.
///
/// The file is made at the first put or finish. Where that fails the call fails, and the next one tries again. A
/// sink that is dropped before a finish answered Ok takes its second file away, where the system lets it.
pub struct FileSink<R: Files> {
    rt: R,
    alloc: Global,
    path: String,
    opened: Option<Opened<R::File>>,
    tally: Tally,
}

/// A file that is open for writing.
#[derive(Drop)]
struct Opened<F> {
    file: F,
    /// The names of the second file and of the one that it becomes, as long as it has its own name.
    renaming: Option<Renaming>,
}

/// A name, and the one that takes its place.
#[derive(Drop)]
struct Renaming {
    from: String,
    to: String,
}

impl<R: Files> Model for FileSink<R> {
    ghost use Rattle.std.specs.String.{string_bytes};
    ghost use Rattle.oemm_io.specs.Files.{FileOutput};

    ghost Value = { FileOutput };

    ghost view = { λ a. record { path = string_bytes a.path; state = a.tally } };
}

impl<R: Files> FileSink<R> {
    /// The file at this path. It makes no call of the system, and takes no memory before the first put or finish.
    pub fn new(rt: R, alloc: Global, path: String) -> FileSink<R>
        ensures { result ≡ record { path = string_bytes path; state = fresh } }
    {
        FileSink {
            rt,
            alloc,
            path,
            opened: None,
            tally: Tally::new(),
        }
    }
}

impl<R: Files + Drop> Drop for FileSink<R> {
    fn drop(self) {
        let FileSink {
            rt,
            alloc: _,
            path: _,
            opened,
            tally: _,
        } = self;
        let Some(target) = opened else { return };
        let Opened { file: _, renaming } = target;
        if let Some(names) = renaming {
            let _ = fs::remove_file(&rt, names.from.as_str());
        }
    }
}

impl<R: Files> Sink for FileSink<R> {
    ghost use Rattle.std.specs.Prelude.{None};

    ghost written = { λ _. None };

    ghost faults = { λ sink. sink.state.faults };

    ghost finished = { λ sink. sink.state.finished };

    fn put(&mut self, bytes: &[u8]) -> Result<usize, Failed>
        ensures path { self.new.path ≡ self.old.path }
        ensures within { IfOk result (λ n. n ≤ length bytes.now) }
        ensures some { IfOk result (λ n. 0 < length bytes.now → 0 < n) }
        ensures open { IfOk result (λ n. self.new.state.finished ≡ (self.old.state.finished && n == 0)) }
        ensures err { OnErr result (self.new.state.finished ≡ self.old.state.finished) }
        ensures cause { HasCause self.old.state.faults self.new.state.faults result }
    {
        let written = write_some(&self.rt, self.alloc, &self.path, &mut self.opened, bytes);
        self.tally.put(written, bytes.len())
    }

    fn finish(&mut self) -> Result<(), Failed>
        ensures path { self.new.path ≡ self.old.path }
        ensures finished { OnOk result (self.new.state.finished ≡ true) }
        ensures err { OnErr result (self.new.state.finished ≡ self.old.state.finished) }
        ensures cause { HasCause self.old.state.faults self.new.state.faults result }
    {
        let settled = settle(&self.rt, self.alloc, &self.path, &mut self.opened);
        self.tally.finish(settled)
    }
}

fn write_some<R: Files>(
    rt: &R,
    alloc: Global,
    path: &str,
    opened: &mut Option<Opened<R::File>>,
    bytes: &[u8],
) -> io::Result<usize>
    ensures { IfOk result (λ n. n ≤ length bytes.now) }
{
    let mut target = open(rt, alloc, path, opened)?;
    let count = target.file.write(bytes);
    *opened = Some(target);
    count
}

/// What was written stands at the path.
fn settle<R: Files>(
    rt: &R,
    alloc: Global,
    path: &str,
    opened: &mut Option<Opened<R::File>>,
) -> io::Result<()> {
    let mut target = open(rt, alloc, path, opened)?;
    let done = target.settle(rt);
    *opened = Some(target);
    done
}

impl<F: OpenFile + Write> Opened<F> {
    /// Hands on what was written; a second file is written to the disk and gets its name.
    fn settle<R: Files>(&mut self, rt: &R) -> io::Result<()> {
        self.file.flush()?;
        if let Some(names) = &self.renaming {
            self.file.sync_data()?;
            fs::rename(rt, names.from.as_str(), names.to.as_str())?;
            self.renaming = None;
        }
        Ok(())
    }
}

/// The open file, which is made where none is open yet.
fn open<R: Files>(
    rt: &R,
    alloc: Global,
    path: &str,
    opened: &mut Option<Opened<R::File>>,
) -> io::Result<Opened<R::File>> {
    if let Some(target) = opened.take() {
        return Ok(target);
    }
    let Some(to) = replaced(rt, alloc, path)? else {
        let file = fs::create(rt, path)?;
        return Ok(Opened {
            file,
            renaming: None,
        });
    };
    let mut from = String::from_str(alloc, &to)?;
    from.push_str(SECOND)?;
    let file = fs::create(rt, from.as_str())?;
    Ok(Opened {
        file,
        renaming: Some(Renaming { from, to }),
    })
}

/// The path of the regular file that what is written replaces, or none where the path is written in place.
fn replaced<R: Files>(rt: &R, alloc: Global, path: &str) -> io::Result<Option<String>> {
    match found(fs::symlink_metadata(rt, path))? {
        None => Ok(Some(String::from_str(alloc, path)?)),
        Some(node) if node.is_file() => {
            writable(rt, path)?;
            Ok(Some(String::from_str(alloc, path)?))
        }
        Some(node) if node.is_symlink() => behind_link(rt, alloc, path),
        Some(_) => Ok(None),
    }
}

/// The path of the regular file that the link at the path leads to, or none where it leads to no such file.
fn behind_link<R: Files>(rt: &R, alloc: Global, path: &str) -> io::Result<Option<String>> {
    match found(fs::metadata(rt, path))? {
        Some(node) if node.is_file() => {
            writable(rt, path)?;
            Ok(Some(rt.canonicalize(alloc, path)?.into_string()))
        }
        _ => Ok(None),
    }
}

/// Fails where the file at the path may not be written. The file stays as it is.
fn writable<R: Files>(rt: &R, path: &str) -> io::Result<()> {
    OpenOptions::new().write(true).open(rt, path)?;
    Ok(())
}

/// What the system found, or none where nothing is there.
fn found<T: Drop>(answer: io::Result<T>) -> io::Result<Option<T>>
    ensures some { IfOk answer (λ value. result ≡ Ok (Some value)) }
    ensures none { result ≡ Ok None ↔ IsErrAnd answer (λ error. error_kind error ≡ ErrorKind.NotFound) }
{
    match answer {
        Ok(value) => Ok(Some(value)),
        Err(error) if error.kind() == ErrorKind::NotFound => Ok(None),
        Err(error) => Err(error),
    }
}

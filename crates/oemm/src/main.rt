//! The program `oemm`: edits a triangle mesh by a script.
#![tactic(auto)]

ghost use Rattle.std.specs.Prelude.{◌≡◌, ◌≢◌, None, IfOk, map};
ghost use Rattle.std.specs.IoError.{error_kind};
ghost use Rattle.std.specs.Process.{exit_status};
ghost use Rattle.std.specs.String.{string_bytes};
ghost use Rattle.std.specs.Vec.Iter.{into_iter_items};
ghost use Rattle.std.specs.declared.io.ErrorKind.TheVariants.{OutOfMemory};
ghost use Rattle.oemm_run.specs.End.{status_of};
ghost use Rattle.oemm_run.specs.Gives.{Gives};
ghost use Rattle.oemm_words.specs.Words.{order_of};
ghost use Rattle.oemm.specs.Paths.{path_of};
ghost use Rattle.oemm.specs.Program.{untouched, EndsOn};

use oemm_io::{FileSink, FileSource, StdSink};
use oemm_run::{Commands, End, Io, end_text, run, status};
use oemm_words::{CommandWords, Roles, WordsFault, roles};
use std::alloc::{AllocError, Global};
use std::env::Args;
use std::process::ExitCode;
use std::rt::{Env, Files};
use std::{env, io, str};

/// The objects of the system that the program works on.
type SystemIo<R> = Io<FileSource<R>, FileSource<R>, FileSink<R>, StdSink<R>>;

fn main(rt: HostRuntime) -> ExitCode {
    let end = match command_words(&rt) {
        Ok(words) => end_on(&rt, &words),
        Err(end) => end,
    };
    let _ = tell(&rt, &end);
    exit_code(&end)
}

/// The exit code that tells how the command ended.
fn exit_code(end: &End) -> ExitCode
    ensures { exit_status result ≡ status_of end.now }
{
    ExitCode::from(status(end))
}

/// The words of the command line after the program's name, or the end of a command whose words can't be had.
fn command_words<R: Env + AllocGlobal>(rt: &R) -> Result<CommandWords, End> {
    let mut args = match env::args(rt) {
        Ok(args) => args,
        Err(error) => return Err(end_without_words(&error)),
    };
    let _name = args.next();
    words_of(rt.alloc(), args).map_err(|_| End::Memory)
}

/// The end of a command whose words can't be had: want of memory, or a word that isn't UTF-8, which is in no form.
fn end_without_words(error: &io::Error) -> End
    ensures memory { error_kind error.now ≡ OutOfMemory → result ≡ End.Memory }
    ensures usage { error_kind error.now ≢ OutOfMemory → result ≡ End.Usage }
{
    if error.kind() == io::ErrorKind::OutOfMemory {
        End::Memory
    } else {
        End::Usage
    }
}

/// These words, all of them.
fn words_of(alloc: Global, args: Args) -> Result<CommandWords, AllocError>
    ensures { IfOk result (λ words. words ≡ map string_bytes (into_iter_items args)) }
{
    let mut words = CommandWords::new(alloc);
    for word in args {
        words.push(word.as_str())?;
    }
    Ok(words)
}

/// How the command ends that the words ask for, on files and standard output.
#[tactic(auto, using(crate::proofs::Refusals::no_form))]
fn end_on<R: Files + Print + AllocGlobal + Clone + Drop>(rt: &R, words: &CommandWords) -> End
    ensures { EndsOn words.now result }
{
    match perform(rt, words) {
        Ok((_io, end)) => end,
        Err(WordsFault::Usage) => End::Usage,
        Err(WordsFault::Memory) => End::Memory,
    }
}

/// Does what the words ask for, on files and standard output, of which nothing was asked before. They come back with
/// the end.
///
/// # Errors
/// `Usage` where the words are in no form, and `Memory`. Then nothing was touched.
fn perform<R: Files + Print + AllocGlobal + Clone + Drop>(
    rt: &R,
    words: &CommandWords,
) -> Result<(SystemIo<R>, End), WordsFault>
    ensures gives { IfOk result
        (λ done. Gives words.now untouched (⟦<SystemIo<R> as Commands>⟧.outside done.0) done.1) }
    ensures usage { result ≡ Err WordsFault.Usage → order_of words.now ≡ None }
{
    let roles = roles(words)?;
    let io = io_of(rt, words, &roles)?;
    Ok(run(rt.alloc(), words, io))
}

/// The files at the paths that the words name, and standard output.
fn io_of<R: Files + Print + AllocGlobal + Clone + Drop>(
    rt: &R,
    words: &CommandWords,
    roles: &Roles,
) -> Result<SystemIo<R>, AllocError>
    ensures mesh { IfOk result (λ io. io.mesh.path ≡ path_of words.now roles.now.mesh) }
    ensures script { IfOk result (λ io. io.script.path ≡ path_of words.now roles.now.script) }
    ensures out { IfOk result (λ io. io.out.path ≡ path_of words.now roles.now.out) }
    ensures untouched { IfOk result (λ io. ⟦<SystemIo<R> as Commands>⟧.outside io ≡ untouched) }
{
    Ok(Io {
        mesh: FileSource::new(rt.clone()?, path_at(rt, words, roles.mesh)?),
        script: FileSource::new(rt.clone()?, path_at(rt, words, roles.script)?),
        out: FileSink::new(rt.clone()?, rt.alloc(), path_at(rt, words, roles.out)?),
        report: StdSink::new(rt.clone()?),
    })
}

/// The path that a word names, or an empty one.
fn path_at<R: AllocGlobal>(
    rt: &R,
    words: &CommandWords,
    place: Option<u32>,
) -> Result<String, AllocError>
    ensures { IfOk result (λ path. string_bytes path ≡ path_of words.now place) }
{
    match place {
        Some(place) if (place as usize) < words.len() => {
            String::from_str(rt.alloc(), words.at(place as usize).as_str())
        }
        _ => Ok(String::new(rt.alloc())),
    }
}

/// Tells on standard error how the command ended, unless all was done.
fn tell<R: Eprint + AllocGlobal>(rt: &R, end: &End) -> io::Result<()> {
    let text = end_text(rt.alloc(), end)?;
    match str::from_utf8(text.slice()) {
        Ok(text) => rt.eprint(text),
        Err(_) => Ok(()),
    }
}

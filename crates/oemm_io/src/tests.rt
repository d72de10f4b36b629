//! Each call once, and what no clause can say.

ghost use Rattle.std.specs.Prelude.{◌≡◌, ◌≤◌, ◌∷◌, IfOk, IfSome};

use super::*;
use faulty::Faulty;
use std::alloc::Global;
use std::fs;
use std::fs::Permissions;
use std::io::ErrorKind;
use std::os::unix::fs::{PermissionsExt, symlink};
use std::rt::Files;
use std::test::Fail;

mod faulty;

#[test]
fn a_source_in_memory_fails_at_its_second_call(rt: HostRuntime) -> Result<(), Fail> {
    let failing = vec![in rt.alloc(); 2u64]?;
    let mut source = MemSource::new(vec![in rt.alloc(); 10u8, 20, 30]?, failing, 1);
    let mut buf = [0u8; 8];
    assert_eq!(rt; source.take(&mut buf), Ok(1));
    assert_eq!(rt; source.take(&mut buf), Err(Failed));
    assert_eq!(rt; source.take(&mut buf), Ok(1));
    assert_eq!(rt; buf[0], 20);
    Ok(())
}

#[test]
fn a_source_in_memory_gives_all_at_once(rt: HostRuntime) -> Result<(), Fail> {
    let failing = vec![in rt.alloc(); 2u64]?;
    let mut source = MemSource::new(vec![in rt.alloc(); 10u8, 20, 30]?, failing, 9);
    let mut buf = [0u8; 8];
    assert_eq!(rt; source.take(&mut buf), Ok(3));
    assert_eq!(rt; buf, [10, 20, 30, 0, 0, 0, 0, 0]);
    assert_eq!(rt; source.take(&mut buf), Err(Failed));
    assert_eq!(rt; source.take(&mut buf), Ok(0));
    Ok(())
}

#[test]
fn a_sink_in_memory_is_full(rt: HostRuntime) -> Result<(), Fail> {
    let mut sink = MemSink::with_room(rt.alloc(), 3, Vec::new(rt.alloc()), 2)?;
    assert_eq!(rt; sink.put(b"abcd"), Ok(2));
    assert_eq!(rt; sink.put(b"cd"), Ok(1));
    assert_eq!(rt; sink.put(b"d"), Err(Failed));
    assert_eq!(rt; sink.finish(), Ok(()));
    assert_eq!(rt; sink.bytes(), b"abc".as_slice());
    Ok(())
}

fn with_head<S: Source>(alloc: Global, source: S, limit: usize) -> (S, Result<Vec<u8>, TakeFault>)
    ensures bytes { IfOk result.1 (λ bytes. IfSome (S.left source) (λ told. bytes.items ≡ 112 ∷ 108 ∷ told)) }
    ensures kept { S.faults source ≤ S.faults result.0 }
{
    let (headed, taken) = take_all(alloc, Headed::new(source, *b"ply", 2), limit);
    (headed.into_source(), taken)
}

#[test]
fn the_head_comes_before_the_source(rt: HostRuntime) -> Result<(), Fail> {
    let source = MemSource::new(vec![in rt.alloc(); b'y']?, Vec::new(rt.alloc()), 9);
    let (_, taken) = with_head(rt.alloc(), source, 3);
    assert_eq!(rt; taken?.as_slice(), b"ply".as_slice());
    Ok(())
}

#[test]
fn a_source_is_taken_up_to_the_limit(rt: HostRuntime) -> Result<(), Fail> {
    for (limit, number, wanted) in [
        (3, 9u64, Ok(3)),
        (2, 9, Err(TakeFault::TooMany)),
        (3, 2, Err(TakeFault::Failed)),
    ] {
        let failing = vec![in rt.alloc(); number]?;
        let source = MemSource::new(vec![in rt.alloc(); 10u8, 20, 30]?, failing, 2);
        let (_, taken) = take_all(rt.alloc(), source, limit);
        assert_eq!(rt; taken.map(|bytes| bytes.len()), wanted);
    }
    Ok(())
}

#[test]
fn a_sink_holds_a_front_after_a_fault(rt: HostRuntime) -> Result<(), Fail> {
    for (number, wanted) in [(9u64, Ok(())), (2, Err(Failed)), (3, Err(Failed))] {
        let failing = vec![in rt.alloc(); number]?;
        let sink = MemSink::with_room(rt.alloc(), 9, failing, 2)?;
        let (sink, done) = put_all(sink, b"abcd");
        assert_eq!(rt; done, wanted);
        assert_eq!(rt; sink.bytes().len(), if number == 2 { 2 } else { 4 });
    }
    Ok(())
}

#[test]
fn a_file_goes_on_where_the_last_call_ended(rt: HostRuntime) -> Result<(), Fail> {
    let path = "oemm_io-round-trip";
    let mut sink = FileSink::new(rt.clone()?, rt.alloc(), String::from_str(rt.alloc(), path)?);
    assert_eq!(rt; sink.put(b"so"), Ok(2));
    let (_, done) = put_all(sink, b"lid");
    assert_eq!(rt; done, Ok(()));
    let mut source = FileSource::new(rt.clone()?, String::from_str(rt.alloc(), path)?);
    let mut buf = [0u8; 3];
    assert_eq!(rt; source.take(&mut buf), Ok(3));
    assert_eq!(rt; buf, *b"sol");
    let (_, taken) = take_all(rt.alloc(), source, 9);
    assert_eq!(rt; taken?.as_slice(), b"id".as_slice());
    fs::remove_file(&rt, path)?;
    Ok(())
}

#[test]
fn no_file_a_folder_and_a_full_device_fail(rt: HostRuntime) -> Result<(), Fail> {
    let mut buf = [0u8; 8];
    for path in ["oemm_io-no-file", "."] {
        let mut source = FileSource::new(rt.clone()?, String::from_str(rt.alloc(), path)?);
        assert_eq!(rt; source.take(&mut buf), Err(Failed));
    }
    let mut folder = FileSink::new(rt.clone()?, rt.alloc(), String::from_str(rt.alloc(), ".")?);
    assert_eq!(rt; folder.put(b"a"), Err(Failed));
    assert_eq!(rt; folder.finish(), Err(Failed));
    let mut full = FileSink::new(
        rt.clone()?,
        rt.alloc(),
        String::from_str(rt.alloc(), "/dev/full")?,
    );
    assert_eq!(rt; full.put(b"a"), Err(Failed));
    Ok(())
}

/// A sink to the path, in which three bytes stand already.
fn sink_with<R: Files + Drop>(rt: R, alloc: Global, path: &str) -> Result<FileSink<R>, Fail> {
    let mut sink = FileSink::new(rt, alloc, String::from_str(alloc, path)?);
    sink.put(b"new")?;
    Ok(sink)
}

/// Whether the file has this text.
fn has(rt: &HostRuntime, path: &str, text: &str) -> Result<bool, Fail> {
    Ok(fs::read_to_string(rt, path)?.as_str() == text)
}

#[test]
fn an_older_file_stands_until_the_finish(rt: HostRuntime) -> Result<(), Fail> {
    let alloc = rt.alloc();
    fs::create_dir_all(&rt, "oemm_io-a")?;
    fs::write(&rt, "oemm_io-a/out", "old")?;
    symlink(&rt, "out", "oemm_io-a/link")?;
    for path in ["oemm_io-a/out", "oemm_io-a/link"] {
        fs::write(&rt, "oemm_io-a/out", "old")?;
        let unfinished = sink_with(rt.clone()?, alloc, path)?;
        assert!(rt; has(&rt, "oemm_io-a/out", "old")?);
        assert!(rt; fs::exists(&rt, "oemm_io-a/out.new")?);
        drop(unfinished);
        assert!(rt; !fs::exists(&rt, "oemm_io-a/out.new")?);
        let mut sink = sink_with(rt.clone()?, alloc, path)?;
        assert_eq!(rt; sink.finish(), Ok(()));
        assert_eq!(rt; sink.put(b"er"), Ok(2));
        assert_eq!(rt; sink.finish(), Ok(()));
        drop(sink);
        assert!(rt; has(&rt, "oemm_io-a/out", "newer")?);
        assert!(rt; !fs::exists(&rt, "oemm_io-a/out.new")?);
    }
    assert!(rt; fs::symlink_metadata(&rt, "oemm_io-a/link")?.is_symlink());
    fs::remove_dir_all(&rt, "oemm_io-a")?;
    Ok(())
}

/// Whether a put to the path fails, and the file there has the old text after it.
fn is_refused(rt: &HostRuntime, path: &str) -> Result<bool, Fail> {
    let mut sink = FileSink::new(rt.clone()?, rt.alloc(), String::from_str(rt.alloc(), path)?);
    let put = sink.put(b"new");
    let finished = sink.finish();
    drop(sink);
    Ok(put == Err(Failed) && finished == Err(Failed) && has(rt, path, "old")?)
}

/// The superuser may write where the system's own users may not.
#[test]
fn an_older_file_stands_where_nothing_can_be_written(rt: HostRuntime) -> Result<(), Fail> {
    fs::create_dir_all(&rt, "oemm_io-b/out.new")?;
    fs::write(&rt, "oemm_io-b/out", "old")?;
    assert!(rt; is_refused(&rt, "oemm_io-b/out")?);
    fs::create_dir_all(&rt, "oemm_io-b/read-only")?;
    fs::write(&rt, "oemm_io-b/read-only/out", "old")?;
    fs::write(&rt, "oemm_io-b/kept", "old")?;
    fs::set_permissions(&rt, "oemm_io-b/kept", Permissions::from_mode(0o444))?;
    fs::set_permissions(&rt, "oemm_io-b/read-only", Permissions::from_mode(0o555))?;
    if fs::write(&rt, "oemm_io-b/read-only/probe", "").is_err() {
        assert!(rt; is_refused(&rt, "oemm_io-b/read-only/out")?);
        assert!(rt; is_refused(&rt, "oemm_io-b/kept")?);
    }
    fs::set_permissions(&rt, "oemm_io-b/read-only", Permissions::from_mode(0o755))?;
    fs::remove_dir_all(&rt, "oemm_io-b")?;
    Ok(())
}

#[test]
fn what_is_no_regular_file_is_written_in_place(rt: HostRuntime) -> Result<(), Fail> {
    fs::create_dir_all(&rt, "oemm_io-c")?;
    for (device, put) in [("/dev/null", Ok(3)), ("/dev/full", Err(Failed))] {
        symlink(&rt, device, "oemm_io-c/link")?;
        for path in [device, "oemm_io-c/link"] {
            let name = String::from_str(rt.alloc(), path)?;
            let mut sink = FileSink::new(rt.clone()?, rt.alloc(), name);
            assert_eq!(rt; sink.put(b"new"), put);
            assert_eq!(rt; sink.finish(), Ok(()));
            assert!(rt; fs::symlink_metadata(&rt, "oemm_io-c/link")?.is_symlink());
        }
        fs::remove_file(&rt, "oemm_io-c/link")?;
    }
    symlink(&rt, "absent", "oemm_io-c/link")?;
    let mut sink = sink_with(rt.clone()?, rt.alloc(), "oemm_io-c/link")?;
    assert_eq!(rt; sink.finish(), Ok(()));
    assert!(rt; has(&rt, "oemm_io-c/absent", "new")?);
    fs::remove_dir_all(&rt, "oemm_io-c")?;
    Ok(())
}

#[test]
fn a_file_that_fails_in_its_middle_is_read_on(rt: HostRuntime) -> Result<(), Fail> {
    for kind in [ErrorKind::UnexpectedEof, ErrorKind::Interrupted] {
        let system = Faulty { failing: 2, kind };
        let mut source = FileSource::new(system, String::new(rt.alloc()));
        let mut buf = [0u8; 3];
        for (wanted, bytes) in [
            (Ok(2), [1, 1, 0]),
            (Err(Failed), [1, 1, 0]),
            (Ok(2), [3, 3, 0]),
        ] {
            assert_eq!(rt; source.take(&mut buf), wanted);
            assert_eq!(rt; buf, bytes);
        }
    }
    Ok(())
}

#[test]
fn a_file_takes_a_part_and_tells_a_failed_write_and_flush(rt: HostRuntime) -> Result<(), Fail> {
    for (failing, kind, first, flushed, second) in [
        (1, ErrorKind::StorageFull, Err(Failed), Ok(()), Ok(2)),
        (2, ErrorKind::StorageFull, Ok(2), Err(Failed), Ok(2)),
        (3, ErrorKind::Interrupted, Ok(2), Ok(()), Err(Failed)),
        (
            faulty::SYNC,
            ErrorKind::StorageFull,
            Ok(2),
            Err(Failed),
            Ok(2),
        ),
        (
            faulty::RENAME,
            ErrorKind::StorageFull,
            Ok(2),
            Err(Failed),
            Ok(2),
        ),
    ] {
        let system = Faulty { failing, kind };
        let mut sink = FileSink::new(system, rt.alloc(), String::new(rt.alloc()));
        assert_eq!(rt; sink.put(b"abc"), first);
        assert_eq!(rt; sink.finish(), flushed);
        assert_eq!(rt; sink.put(b"abc"), second);
        assert_eq!(rt; sink.finish().is_err(), failing >= faulty::SYNC);
    }
    Ok(())
}

#[test]
fn standard_output_takes_a_part_or_is_closed_or_full(rt: HostRuntime) -> Result<(), Fail> {
    let (_, done) = put_all(StdSink::new(rt.clone()?), b"");
    assert_eq!(rt; done, Ok(()));
    for (failing, kind, put) in [
        (0, ErrorKind::Other, Ok(2)),
        (1, ErrorKind::BrokenPipe, Err(Failed)),
        (1, ErrorKind::StorageFull, Err(Failed)),
    ] {
        let mut sink = StdSink::new(Faulty { failing, kind });
        assert_eq!(rt; sink.put(b"abc"), put);
        assert_eq!(rt; sink.finish(), Ok(()));
    }
    Ok(())
}

//! Each call once, and what no clause can say.

use super::*;
use failing::{Call, Failing};
use oemm_lists::List;
use oemm_octree::LeafNo;
use std::alloc::{AllocError, Global};
use std::fs;
use std::io::ErrorKind;
use std::os::unix::fs::{PermissionsExt, symlink};
use std::rt::Files;
use std::test::Fail;

mod failing;

const LEAF: Key = Key::Leaf {
    leaf: LeafNo(7),
    version: 2,
};

fn folder<R: Files + Drop>(rt: R, alloc: Global, path: &str) -> Result<FolderBlobs<R>, AllocError> {
    Ok(FolderBlobs::new(rt, String::from_str(alloc, path)?))
}

/// Whether a get of the key answers this text, or that there is none.
fn gives<B: Blobs>(alloc: Global, blobs: &mut B, key: Key, wanted: Option<&str>) -> bool {
    match (blobs.get(alloc, key), wanted) {
        (Ok(Some(bytes)), Some(text)) => bytes.slice() == text.as_bytes(),
        (Ok(None), None) => true,
        _ => false,
    }
}

/// Whether a get of the key fails.
fn get_fails<B: Blobs>(alloc: Global, blobs: &mut B, key: Key) -> bool {
    matches!(&blobs.get(alloc, key), Err(StoreFail::Failed))
}

/// Whether each of a get, a put and an erase of the index fails.
fn all_fail<B: Blobs>(alloc: Global, blobs: &mut B) -> bool {
    let get_fails = get_fails(alloc, blobs, Key::Index);
    let put_fails = blobs.put(alloc, Key::Index, b"new") == Err(StoreFail::Failed);
    let erase_fails = blobs.erase(alloc, Key::Index) == Err(StoreFail::Failed);
    get_fails && put_fails && erase_fails
}

#[test]
fn a_blob_is_put_got_and_erased_in_a_folder(rt: HostRuntime) -> Result<(), Fail> {
    let alloc = rt.alloc();
    let mut blobs = folder(rt.clone()?, alloc, "blobs-a/store")?;
    assert!(rt; gives(alloc, &mut blobs, LEAF, None));
    assert_eq!(rt; blobs.erase(alloc, LEAF), Ok(()));
    assert_eq!(rt; blobs.put(alloc, LEAF, b"first"), Ok(()));
    assert!(rt; gives(alloc, &mut blobs, LEAF, Some("first")));
    assert_eq!(rt;
        fs::read_to_string(&rt, "blobs-a/store/leaf-7-2")?.as_str(),
        "first"
    );
    assert_eq!(rt; blobs.put(alloc, LEAF, b""), Ok(()));
    assert!(rt; gives(alloc, &mut blobs, LEAF, Some("")));
    assert_eq!(rt; blobs.erase(alloc, LEAF), Ok(()));
    assert!(rt; gives(alloc, &mut blobs, LEAF, None));
    fs::remove_dir_all(&rt, "blobs-a")?;
    Ok(())
}

#[test]
fn what_a_crash_left_behind_is_no_blob(rt: HostRuntime) -> Result<(), Fail> {
    let alloc = rt.alloc();
    let mut blobs = folder(rt.clone()?, alloc, "blobs-b")?;
    fs::create_dir_all(&rt, "blobs-b")?;
    fs::write(&rt, "blobs-b/index.new", "more bytes than are put now")?;
    assert!(rt; gives(alloc, &mut blobs, Key::Index, None));
    assert_eq!(rt; blobs.put(alloc, Key::Index, b"now"), Ok(()));
    assert!(rt; gives(alloc, &mut blobs, Key::Index, Some("now")));
    fs::remove_dir_all(&rt, "blobs-b")?;
    Ok(())
}

#[test]
fn keys_are_written_as_the_names_of_their_files(rt: HostRuntime) -> Result<(), Fail> {
    let leaf = LeafNo(4294967295);
    for (key, name) in [
        (Key::Index, "index"),
        (LEAF, "leaf-7-2"),
        (Key::Entry(0), "entry-0"),
        (Key::Page(10), "page-10"),
        (Key::Run { leaf, part: 3 }, "run-4294967295-3"),
    ] {
        assert_eq!(rt; key.to_string(rt.alloc())?.as_str(), name);
    }
    Ok(())
}

#[test]
fn what_is_no_folder_or_no_file_is_a_fault(rt: HostRuntime) -> Result<(), Fail> {
    let alloc = rt.alloc();
    fs::write(&rt, "blobs-file", "no folder")?;
    let mut no_folder = folder(rt.clone()?, alloc, "blobs-file")?;
    assert!(rt; all_fail(alloc, &mut no_folder));
    fs::remove_file(&rt, "blobs-file")?;
    fs::create_dir_all(&rt, "blobs-c/index")?;
    let mut no_file = folder(rt.clone()?, alloc, "blobs-c")?;
    assert!(rt; all_fail(alloc, &mut no_file));
    fs::remove_dir_all(&rt, "blobs-c")?;
    Ok(())
}

#[test]
fn a_full_device_leaves_the_old_bytes(rt: HostRuntime) -> Result<(), Fail> {
    let alloc = rt.alloc();
    let mut blobs = folder(rt.clone()?, alloc, "blobs-d")?;
    assert_eq!(rt; blobs.put(alloc, Key::Index, b"old"), Ok(()));
    symlink(&rt, "/dev/full", "blobs-d/index.new")?;
    assert_eq!(rt;
        blobs.put(alloc, Key::Index, b"new"),
        Err(StoreFail::Failed)
    );
    assert!(rt; gives(alloc, &mut blobs, Key::Index, Some("old")));
    fs::remove_dir_all(&rt, "blobs-d")?;
    Ok(())
}

/// The superuser may write to a read-only folder, but to none of the system's processes.
#[test]
fn a_read_only_folder_takes_no_bytes(rt: HostRuntime) -> Result<(), Fail> {
    let alloc = rt.alloc();
    let mut blobs = folder(rt.clone()?, alloc, "blobs-e")?;
    assert_eq!(rt; blobs.put(alloc, Key::Index, b"old"), Ok(()));
    fs::set_permissions(&rt, "blobs-e", fs::Permissions::from_mode(0o555))?;
    let refuses = fs::write(&rt, "blobs-e/probe", "").is_err();
    let wanted = if refuses { "old" } else { "new" };
    assert_eq!(rt; blobs.put(alloc, Key::Index, b"new").is_err(), refuses);
    assert!(rt; gives(alloc, &mut blobs, Key::Index, Some(wanted)));
    fs::set_permissions(&rt, "blobs-e", fs::Permissions::from_mode(0o755))?;
    let mut system = folder(rt.clone()?, alloc, "/proc")?;
    assert_eq!(rt;
        system.put(alloc, Key::Index, b"new"),
        Err(StoreFail::Failed)
    );
    fs::remove_dir_all(&rt, "blobs-e")?;
    Ok(())
}

/// Whether a put fails where this call of the system does, and leaves the bytes that were there.
fn put_is_whole(rt: &HostRuntime, call: Call, kind: ErrorKind) -> Result<bool, Fail> {
    let alloc = rt.alloc();
    let mut blobs = folder(rt.clone()?, alloc, "blobs-f")?;
    let put = blobs.put(alloc, Key::Index, b"old bytes");
    let system = Failing {
        rt: rt.clone()?,
        call,
        kind,
    };
    let mut failing = folder(system, alloc, "blobs-f")?;
    let refused = failing.put(alloc, Key::Index, b"new bytes");
    let kept = gives(alloc, &mut blobs, Key::Index, Some("old bytes"));
    Ok(put == Ok(()) && refused == Err(StoreFail::Failed) && kept)
}

#[test]
fn a_put_that_fails_anywhere_leaves_the_old_bytes(rt: HostRuntime) -> Result<(), Fail> {
    for kind in [ErrorKind::NotFound, ErrorKind::OutOfMemory] {
        for call in [Call::Open, Call::Write, Call::Sync, Call::Rename] {
            assert!(rt; put_is_whole(&rt, call, kind)?);
        }
    }
    fs::remove_dir_all(&rt, "blobs-f")?;
    Ok(())
}

/// Whether a get and an erase of an absent index answer that it is absent, where this call of the system fails.
fn is_absent(rt: &HostRuntime, call: Call, kind: ErrorKind) -> Result<(bool, bool), Fail> {
    let alloc = rt.alloc();
    let system = Failing {
        rt: rt.clone()?,
        call,
        kind,
    };
    let mut failing = folder(system, alloc, "blobs-none")?;
    let absent = gives(alloc, &mut failing, Key::Index, None);
    Ok((absent, failing.erase(alloc, Key::Index) == Ok(())))
}

#[test]
fn only_no_such_file_is_no_blob(rt: HostRuntime) -> Result<(), Fail> {
    for (call, kind, answers) in [
        (Call::Open, ErrorKind::NotFound, (true, true)),
        (Call::Open, ErrorKind::OutOfMemory, (false, true)),
        (Call::Remove, ErrorKind::NotADirectory, (true, false)),
    ] {
        assert_eq!(rt; is_absent(&rt, call, kind)?, answers);
    }
    Ok(())
}

#[test]
fn a_file_that_fails_in_its_middle_is_no_blob(rt: HostRuntime) -> Result<(), Fail> {
    let alloc = rt.alloc();
    let mut blobs = folder(rt.clone()?, alloc, "blobs-g")?;
    assert_eq!(rt; blobs.put(alloc, Key::Index, b"three"), Ok(()));
    let system = Failing {
        rt: rt.clone()?,
        call: Call::Read,
        kind: ErrorKind::NotFound,
    };
    let mut failing = folder(system, alloc, "blobs-g")?;
    assert!(rt; get_fails(alloc, &mut failing, Key::Index));
    fs::remove_dir_all(&rt, "blobs-g")?;
    Ok(())
}

fn entry(alloc: Global, number: u32, bytes: &[u8]) -> Result<Change, AllocError> {
    let bytes = List::from_vec(Vec::from_slice(alloc, bytes)?);
    Ok(Change {
        key: Key::Entry(number),
        bytes: Some(bytes),
    })
}

/// Puts of `a` under 0, `b` under 1 and `c` under 0.
fn three_puts(alloc: Global) -> Result<Vec<Change>, AllocError> {
    let mut changes = Vec::new(alloc);
    changes.push(entry(alloc, 0, b"a")?)?;
    changes.push(entry(alloc, 1, b"b")?)?;
    changes.push(entry(alloc, 0, b"c")?)?;
    Ok(changes)
}

/// Whether a crash at the moment leaves this text under the entry, or nothing.
fn leaves(
    alloc: Global,
    blobs: &HistoryBlobs,
    moment: usize,
    number: u32,
    wanted: Option<&str>,
) -> Result<bool, Fail> {
    if moment > blobs.moments() {
        return Ok(false);
    }
    let left = blobs.left_at(alloc, moment, Key::Entry(number))?;
    Ok(match (left, wanted) {
        (Some(bytes), Some(text)) => bytes.slice() == text.as_bytes(),
        (None, None) => true,
        _ => false,
    })
}

#[test]
fn a_crash_at_each_moment_of_three_puts(rt: HostRuntime) -> Result<(), Fail> {
    let alloc = rt.alloc();
    let mut blobs = HistoryBlobs::new(alloc);
    let changes = three_puts(alloc)?;
    assert_eq!(rt; change_in_turn(alloc, &mut blobs, &changes), Ok(()));
    assert_eq!(rt; blobs.moments(), 3);
    for (moment, first, second) in [
        (0, None, None),
        (1, Some("a"), None),
        (2, Some("a"), Some("b")),
        (3, Some("c"), Some("b")),
    ] {
        assert!(rt; leaves(alloc, &blobs, moment, 0, first)?);
        assert!(rt; leaves(alloc, &blobs, moment, 1, second)?);
    }
    assert_eq!(rt; blobs.erase(alloc, Key::Entry(0)), Ok(()));
    assert!(rt; gives(alloc, &mut blobs, Key::Entry(0), None));
    Ok(())
}

#[test]
fn the_armed_puts_of_a_store_in_memory_fail(rt: HostRuntime) -> Result<(), Fail> {
    let alloc = rt.alloc();
    let changes = three_puts(alloc)?;
    for (failing, done, first, second) in [
        (1u64, Err(StoreFail::Failed), None, None),
        (2, Err(StoreFail::Failed), Some("a"), None),
        (3, Err(StoreFail::Failed), Some("a"), Some("b")),
        (4, Ok(()), Some("c"), Some("b")),
    ] {
        let mut blobs = MemBlobs::new(alloc);
        blobs.arm(Vec::new(alloc), vec![in alloc; failing]?, Vec::new(alloc));
        assert_eq!(rt; change_in_turn(alloc, &mut blobs, &changes), done);
        assert!(rt; gives(alloc, &mut blobs, Key::Entry(0), first));
        assert!(rt; gives(alloc, &mut blobs, Key::Entry(1), second));
    }
    Ok(())
}

/// Which of two puts, two gets and two erases of the index fail.
fn failures(alloc: Global, blobs: &mut MemBlobs) -> [bool; 6] {
    let failed = Err(StoreFail::Failed);
    [
        blobs.put(alloc, Key::Index, b"a") == failed,
        blobs.put(alloc, Key::Index, b"b") == failed,
        get_fails(alloc, blobs, Key::Index),
        get_fails(alloc, blobs, Key::Index),
        blobs.erase(alloc, Key::Index) == failed,
        blobs.erase(alloc, Key::Index) == failed,
    ]
}

#[test]
fn armed_calls_fail_and_no_others(rt: HostRuntime) -> Result<(), Fail> {
    let alloc = rt.alloc();
    let mut blobs = MemBlobs::new(alloc);
    for (puts, gets, erases, want) in [
        (
            &[1u64][..],
            &[2u64][..],
            &[1u64, 2][..],
            [true, false, false, true, true, true],
        ),
        (&[], &[], &[], [false, false, false, false, false, false]),
        (
            &[2, 1],
            &[0],
            &[2, 2],
            [true, true, false, false, false, true],
        ),
        (&[3], &[1], &[3], [false, false, true, false, false, false]),
    ] {
        blobs.arm(
            Vec::from_slice(alloc, gets)?,
            Vec::from_slice(alloc, puts)?,
            Vec::from_slice(alloc, erases)?,
        );
        assert_eq!(rt;
            failures(alloc, &mut blobs),
            want,
            "{puts:?} {gets:?} {erases:?}"
        );
    }
    Ok(())
}

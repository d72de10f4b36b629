//! What a store in a folder asks of the system, and what the answers mean.

ghost use Rattle.std.specs.Prelude.{◌≡◌, ◌↔◌, Ok, Err, None, Some, IfOk, IfErr, IfSome, IsErrAnd, vec_len};
ghost use Rattle.std.specs.IoError.{error_kind};
ghost use Rattle.fault_counts.specs.Counts.{TellsFailure};

use crate::blobs::StoreFail;
use oemm_lists::{Bytes, List};
use std::alloc::{AllocError, Global};
use std::fs::OpenFile;
use std::io::{ErrorKind, Read, Write};
use std::rt::Files;
use std::{fs, io};

/// How many bytes are asked of a file at once.
const BLOCK: usize = 65536;

/// Writes the bytes to a second file and renames it, so that under the name there are always the bytes of one
/// put, whole. A folder that isn't there is made.
pub fn write_blob<R: Files>(
    rt: &R,
    folder: &str,
    path: &str,
    new_path: &str,
    bytes: &[u8],
) -> Result<(), StoreFail>
    ensures failed { IfErr result (λ fault. fault ≡ StoreFail.Failed) }
{
    told(replace_file(rt, folder, path, new_path, bytes))
}

fn replace_file<R: Files>(
    rt: &R,
    folder: &str,
    path: &str,
    new_path: &str,
    bytes: &[u8],
) -> io::Result<()> {
    let mut file = create_in(rt, folder, new_path)?;
    file.write_all(bytes)?;
    file.sync_data()?;
    fs::rename(rt, new_path, path)
}

/// Makes or empties the file. Where its folder isn't there, it is made.
fn create_in<R: Files>(rt: &R, folder: &str, path: &str) -> io::Result<R::File> {
    match fs::create(rt, path) {
        Err(error) if error.kind() == ErrorKind::NotFound => {
            fs::create_dir_all(rt, folder)?;
            fs::create(rt, path)
        }
        created => created,
    }
}

/// The bytes of the file, or None where there is no such file.
pub fn read_blob<R: Files>(rt: &R, alloc: Global, path: &str) -> Result<Option<Bytes>, StoreFail> {
    match found(fs::open(rt, path))? {
        Some(mut file) => Ok(Some(List::from_vec(read_all(alloc, &mut file)?))),
        None => Ok(None),
    }
}

/// Removes the file, if there is one.
pub fn remove_blob<R: Files>(rt: &R, path: &str) -> Result<(), StoreFail>
    ensures failed { IfErr result (λ fault. fault ≡ StoreFail.Failed) }
{
    found(fs::remove_file(rt, path))?;
    Ok(())
}

/// What the system found, where the answer that there is no such file is none of its faults.
fn found<T: Drop>(answer: io::Result<T>) -> Result<Option<T>, StoreFail>
    ensures some { IfOk answer (λ value. result ≡ Ok (Some value)) }
    ensures none { result ≡ Ok None ↔ IsErrAnd answer (λ error. error_kind error ≡ ErrorKind.NotFound) }
    ensures failed { IfErr result (λ fault. fault ≡ StoreFail.Failed) }
{
    match answer {
        Ok(value) => Ok(Some(value)),
        Err(error) if error.kind() == ErrorKind::NotFound => Ok(None),
        Err(_) => Err(StoreFail::Failed),
    }
}

/// A fault of the system is a failure of the store.
fn told<T: Drop>(answer: io::Result<T>) -> Result<T, StoreFail>
    ensures ok { IfOk answer (λ value. result ≡ Ok value) }
    ensures failed { IfErr answer (λ error. result ≡ Err StoreFail.Failed) }
    ensures why { IfErr result (λ fault. fault ≡ StoreFail.Failed) }
{
    match answer {
        Ok(value) => Ok(value),
        Err(_) => Err(StoreFail::Failed),
    }
}

/// All bytes that are left in the file.
fn read_all<F: Read>(alloc: Global, file: &mut F) -> Result<Vec<u8>, StoreFail>
    ensures { IfOk result (λ bytes. IfSome (F.remaining file.old) (λ left. bytes.items ≡ left)) }
{
    let mut bytes = Vec::new(alloc);
    let mut block = zeros(alloc, BLOCK)?;
    loop {
        let count = told(file.read(&mut block))?;
        if count == 0 {
            return Ok(bytes);
        }
        bytes.extend_from_slice(&block[..count])?;
    }
}

fn zeros(alloc: Global, count: usize) -> Result<Vec<u8>, AllocError>
    ensures { IfOk result (λ block. vec_len block ≡ count) }
{
    vec![in alloc; 0; count]
}

/// The same answer, with a failure counted.
pub fn counted<T: Drop>(answer: Result<T, StoreFail>, faults: &mut u64) -> Result<T, StoreFail>
    ensures same { result ≡ answer }
    ensures cause { TellsFailure StoreFail.Failed faults.old faults.new result }
{
    if let Err(StoreFail::Failed) = &answer {
        *faults = faults.saturating_add(1);
    }
    answer
}

ghost use Rattle.std.specs.Prelude.{◌≡◌, ◌≢◌, ℕ, List, [], length, OnOk, IfOk};

use crate::folder::Front;
use bcv_base::{Id16, ObjName};
use std::fs::File;
use std::io::ErrorKind;
use std::os::unix::fs::FileExt;
use std::rt::Files;
use std::{fs, io};

/// What the file at a path begins with.
pub fn read_front<R: Files<File = File>>(rt: &R, path: &str) -> io::Result<Front>
    ensures { IfOk result (λ front. front ≢ Front.Failed) }
{
    let file = match File::open(rt, path) {
        Ok(file) => file,
        Err(error) if error.kind() == ErrorKind::NotFound => return Ok(Front::Missing),
        Err(error) => return Err(error),
    };
    let size = file.metadata()?.len();
    if size < 8 {
        return Ok(Front::Short);
    }
    let mut first = [0; 8];
    file.read_exact_at(&mut first, 0)?;
    Ok(Front::Whole(first, size - 8))
}

/// Fills `into`, which is empty, with the `len` bytes after the first eight.
pub fn read_rest<R: Files<File = File>>(
    rt: &R,
    path: &str,
    len: usize,
    into: &mut Vec<u8>,
) -> io::Result<()>
    requires { into.old.items ≡ [] }
    ensures { OnOk result (length into.new.items ≡ len) }
{
    into.resize(len, 0)?;
    let file = File::open(rt, path)?;
    file.read_exact_at(into, 8)
}

/// Makes a file of these bytes, in place of one that is there, and hands it back open.
pub fn write_file<R: Files<File = File>>(
    rt: &R,
    path: &str,
    front: [u8; 8],
    bytes: &[u8],
) -> io::Result<File> {
    let file = File::create(rt, path)?;
    file.write_all_at(&front, 0)?;
    file.write_all_at(bytes, 8)?;
    Ok(file)
}

/// Syncs the file at a path, where there is one.
pub fn sync_file<R: Files<File = File>>(rt: &R, path: &str) -> io::Result<()> {
    match File::open(rt, path) {
        Ok(file) => file.sync_all(),
        Err(error) if error.kind() == ErrorKind::NotFound => Ok(()),
        Err(error) => Err(error),
    }
}

/// Removes the file at a path, where there is one.
pub fn remove_file<R: Files<File = File>>(rt: &R, path: &str) -> io::Result<()> {
    match fs::remove_file(rt, path) {
        Ok(()) => Ok(()),
        Err(error) if error.kind() == ErrorKind::NotFound => Ok(()),
        Err(error) => Err(error),
    }
}

/// Adds the ids of the blocks that have a file in a folder. Other files are passed over.
pub fn add_blocks<R: Files<File = File> + AllocGlobal + Clone + Drop>(
    rt: &R,
    path: &str,
    into: &mut Vec<Id16>,
) -> io::Result<()> {
    for entry in fs::read_dir(rt, path)? {
        match entry {
            Ok(entry) => {
                if let Some(ObjName::Block(id)) = ObjName::read(entry.file_name().as_bytes()) {
                    into.push(id)?;
                }
            }
            Err(error) if error.kind() == ErrorKind::InvalidFilename => {}
            Err(error) => return Err(error),
        }
    }
    Ok(())
}

use crate::fault::OpenFault;
use std::fs;
use std::fs::File;
use std::io::{Error, ErrorKind};
use std::rt::Files;

/// Opens the folder that a path names, for its locks and its syncs.
///
/// It answers `NotFolder` where the path names nothing, or something that is no folder.
pub fn open_folder<R: Files<File = File>>(rt: &R, path: &str) -> Result<File, OpenFault> {
    match fs::metadata(rt, path) {
        Ok(found) if found.is_dir() => {}
        Ok(_) => return Err(OpenFault::NotFolder),
        Err(error) => return Err(fault_of(error)),
    }
    match File::open(rt, path) {
        Ok(folder) => Ok(folder),
        Err(error) => Err(fault_of(error)),
    }
}

// What an error of the system says of a folder's path.
fn fault_of(error: Error) -> OpenFault {
    match error.kind() {
        ErrorKind::NotFound | ErrorKind::NotADirectory => OpenFault::NotFolder,
        ErrorKind::OutOfMemory => OpenFault::NoMemory,
        _ => OpenFault::Failed,
    }
}

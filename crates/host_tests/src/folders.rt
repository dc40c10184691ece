use std::env::temp_dir;
use std::fs;
use std::test::Fail;

/// A new folder for one test, empty.
pub fn fresh(rt: &HostRuntime, test: &str) -> Result<String, Fail> {
    let mut path = String::from_str(rt.alloc(), temp_dir(rt)?.as_str())?;
    path.push_str("/feskolud-host-tests-")?;
    path.push_str(test)?;
    let _ = fs::remove_dir_all(rt, &path);
    fs::create_dir(rt, &path)?;
    Ok(path)
}

/// The path of a file in a folder.
pub fn in_folder(rt: &HostRuntime, folder: &str, name: &str) -> Result<String, Fail> {
    let mut path = String::from_str(rt.alloc(), folder)?;
    path.push('/')?;
    path.push_str(name)?;
    Ok(path)
}

/// Removes the folder of a test that passed.
pub fn remove(rt: &HostRuntime, folder: &str) -> Result<(), Fail> {
    fs::remove_dir_all(rt, folder)?;
    Ok(())
}

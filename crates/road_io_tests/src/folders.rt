//! Folders of this process's own.
use std::test::Fail;
use std::{env, fs, process};

/// The name of the folder of one test.
pub fn folder_name(rt: &HostRuntime, test: &str) -> Result<String, Fail> {
    let parent = env::temp_dir(rt)?;
    let id = process::id(rt.process());
    Ok(format!(in rt.alloc(); "{}/road_io_{test}_{id}", parent.as_str())?)
}

/// Makes the folder, without what an earlier process may have left there.
pub fn make_empty(rt: &HostRuntime, folder: &str) -> Result<(), Fail> {
    let _ = fs::remove_dir_all(rt, folder);
    fs::create_dir(rt, folder)?;
    Ok(())
}

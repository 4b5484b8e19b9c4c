//! The folder that the first sync of a file also syncs.
use crate::folders::{folder_name, make_empty};
use road_io::{RealSite, Site, Which};
use std::alloc::{Allocator, Global};
use std::fs::{File, Metadata, OpenOptions};
use std::io::ErrorKind;
use std::rt::Files;
use std::test::Fail;
use std::{fs, io};

/// Names of a file, and the folder that it stands in.
const FOLDERS: [(&str, &str); 5] = [
    ("map.a", "."),
    ("maps/map.a", "maps"),
    ("/srv/maps/map.a", "/srv/maps"),
    ("/map.a", "/"),
    ("../map.a", ".."),
];

/// Files of which a file and a folder can be opened by these names, and nothing else. Those of the system stand behind.
#[derive(Drop)]
struct OneFolder<'a> {
    rt: &'a HostRuntime,
    file: (&'a str, &'a str),
    folder: (&'a str, &'a str),
}

impl Files for OneFolder<'_> {
    type File = File;

    type Dir = File;

    fn open_file(&self, how: &OpenOptions, path: &str) -> io::Result<File> {
        if path == self.file.0 {
            self.rt.open_file(how, self.file.1)
        } else if path == self.folder.0 {
            self.rt.open_file(how, self.folder.1)
        } else {
            Err(ErrorKind::InvalidInput.into())
        }
    }

    fn open_dir(&self, _path: &str) -> io::Result<File> {
        Err(ErrorKind::Unsupported.into())
    }

    fn metadata(&self, _path: &str) -> io::Result<Metadata> {
        Err(ErrorKind::Unsupported.into())
    }

    fn symlink_metadata(&self, _path: &str) -> io::Result<Metadata> {
        Err(ErrorKind::Unsupported.into())
    }

    fn copy(&self, _from: &str, _to: &str) -> io::Result<u64> {
        Err(ErrorKind::Unsupported.into())
    }

    fn rename(&self, _from: &str, _to: &str) -> io::Result<()> {
        Err(ErrorKind::Unsupported.into())
    }

    fn remove_file(&self, _path: &str) -> io::Result<()> {
        Err(ErrorKind::Unsupported.into())
    }

    fn create_dir(&self, _path: &str) -> io::Result<()> {
        Err(ErrorKind::Unsupported.into())
    }

    fn remove_dir(&self, _path: &str) -> io::Result<()> {
        Err(ErrorKind::Unsupported.into())
    }

    fn remove_dir_all<B: Allocator>(&self, _alloc: B, _path: &str) -> io::Result<()> {
        Err(ErrorKind::Unsupported.into())
    }
}

/// Whether a file is made and synced where its folder can be opened by this name alone.
fn syncs(alloc: Global, files: OneFolder<'_>, name: String) -> bool {
    let mut site = RealSite::new(files, io::sink(), name, String::new(alloc));
    site.write_at(Which::A, 0, b"x").is_ok() && site.sync(Which::A).is_ok()
}

/// Whether the first sync of a file of this name syncs the folder of that name.
fn syncs_folder<'a>(
    rt: &'a HostRuntime,
    name: &'a str,
    folder_of_name: &'a str,
) -> Result<bool, Fail> {
    let folder = folder_name(rt, "folders")?;
    make_empty(rt, &folder)?;
    let file = format!(in rt.alloc(); "{folder}/map")?;
    let files = OneFolder {
        rt,
        file: (name, &file),
        folder: (folder_of_name, &folder),
    };
    let answer = syncs(rt.alloc(), files, String::from_str(rt.alloc(), name)?);
    fs::remove_dir_all(rt, &folder)?;
    Ok(answer)
}

#[test]
fn folders(rt: HostRuntime) -> Result<(), Fail> {
    for (name, folder) in FOLDERS {
        assert!(rt; syncs_folder(&rt, name, folder)?, "{name}");
    }
    assert!(rt; !syncs_folder(&rt, "maps/map.a", ".")?);
    Ok(())
}

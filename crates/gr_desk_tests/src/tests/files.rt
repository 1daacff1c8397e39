//! The modes of new files, and of those that are there.
use super::{is_made, remove, same};
use sqlite::Unknown;
use std::fs::{self, Permissions};
use std::io;
use std::os::unix::fs::{MetadataExt, PermissionsExt};

/// A new file is its owner's alone, and so is its log.
#[test]
fn new_files_are_private(rt: HostRuntime) {
    remove(&rt, "private.db", "private.db-wal");
    same(&rt, is_made(&rt, "private.db", Unknown), true, "private.db");
    let modes = modes_of(&rt, "private.db", "private.db-wal").expect(&rt, "two files");
    same(&rt, modes, (0o600, 0o600), "private.db");
}

/// A file that is there keeps its mode, which a new log is given.
#[test]
fn files_that_are_there_keep_their_modes(rt: HostRuntime) {
    remove(&rt, "shared.db", "shared.db-wal");
    fs::write(&rt, "shared.db", "").expect(&rt, "a file");
    fs::set_permissions(&rt, "shared.db", Permissions::from_mode(0o640)).expect(&rt, "a mode");
    same(&rt, is_made(&rt, "shared.db", Unknown), true, "shared.db");
    let modes = modes_of(&rt, "shared.db", "shared.db-wal").expect(&rt, "two files");
    same(&rt, modes, (0o640, 0o640), "shared.db");
}

/// Neither the name of a desk in memory nor one in a folder that is missing makes a file.
#[test]
fn what_cannot_be_made_makes_no_file(rt: HostRuntime) {
    for file in [":memory:", "missing/new.db"] {
        same(&rt, is_made(&rt, file, Unknown), false, file);
        same(&rt, fs::exists(&rt, file).ok(), Some(false), file);
    }
}

/// A name is taken as it stands, with its spaces.
#[test]
fn names_keep_their_spaces(rt: HostRuntime) {
    remove(&rt, " spaced.db ", " spaced.db -wal");
    remove(&rt, "spaced.db", "spaced.db-wal");
    same(&rt, is_made(&rt, " spaced.db ", Unknown), true, "spaces");
    for (file, is_there) in [(" spaced.db -wal", true), ("spaced.db", false)] {
        same(&rt, fs::exists(&rt, file).ok(), Some(is_there), file);
    }
}

/// Who may do what with a file and its log.
fn modes_of(rt: &HostRuntime, file: &str, log: &str) -> io::Result<(u32, u32)> {
    let (file, log) = (fs::metadata(rt, file)?, fs::metadata(rt, log)?);
    Ok((file.mode() & 0o777, log.mode() & 0o777))
}

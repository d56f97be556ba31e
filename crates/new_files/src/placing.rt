// Files that were written under temporary names, put in their places.
use crate::system;
use crate::temporary::Name;
use crate::verifying::holds;
use std::io;
use std::io::ErrorKind;
use std::rt::Files;

// Which of two files cannot be made.
#[derive(Clone, Copy, Debug, PartialEq, Eq)]
pub(crate) enum Lacking {
    First,
    Second,
}

// Removes a temporary file, where there is one.
fn remove<R: Files>(rt: &R, name: Option<Name>) {
    if let Some(name) = name {
        system::unlink(rt, name.bytes());
    }
}

// Puts a file in its place, or removes it where it cannot stand there.
pub(crate) fn place<R: Files>(rt: &R, name: &Name, path: &[u8]) -> io::Result<()> {
    let placed = system::rename(rt, name.bytes(), path);
    if placed.is_err() {
        system::unlink(rt, name.bytes());
    }
    placed
}

// What was in a file's place: nothing, a file that was set aside, or something that cannot be set aside, as a folder.
#[derive(Clone, Copy, PartialEq, Eq)]
enum Before {
    Nothing,
    File,
    Other,
}

// Sets aside what is in a file's place, under the name of an empty file of our own: so nothing else is written over, and a
// folder is not moved.
fn set_aside<R: Files>(rt: &R, path: &[u8], kept: &Name) -> Before {
    match system::rename(rt, path, kept.bytes()) {
        Ok(()) => Before::File,
        Err(e) => {
            if e.kind() == ErrorKind::NotFound {
                Before::Nothing
            } else {
                Before::Other
            }
        }
    }
}

// Puts back what was set aside, where the new file could not be put in its place.
fn put_back<R: Files>(rt: &R, before: Before, kept: &Name, path: &[u8]) {
    match before {
        Before::File => {
            let _ = system::rename(rt, kept.bytes(), path);
        }
        _ => {
            system::unlink(rt, kept.bytes());
        }
    }
}

// The same where it could.
fn take_back<R: Files>(rt: &R, before: Before, kept: &Name, path: &[u8]) {
    if before == Before::Nothing {
        system::unlink(rt, path);
    }
    put_back(rt, before, kept, path);
}

// Puts the first file in its place, where a file may be put there, or removes it.
fn place_first<R: Files>(rt: &R, before: Before, one: &Name, first: &[u8]) -> bool {
    if before == Before::Other {
        system::unlink(rt, one.bytes());
        return false;
    }
    place(rt, one, first).is_ok()
}

// Puts the second file in its place, where there is one.
fn place_second<R: Files>(rt: &R, two: Option<Name>, second: &[u8]) -> bool {
    match two {
        Some(two) => place(rt, &two, second).is_ok(),
        None => false,
    }
}

// Puts both files in their places, the first with what was there set aside until the second is in its place too. Without an
// empty file there is no name to keep it under. Where both names are of one file the second has taken the first's place: then
// what was there is put back.
pub(crate) fn place_both<R: Files>(
    rt: &R,
    one: &Name,
    first: &[u8],
    a: &[u8],
    kept: Option<Name>,
    two: Option<Name>,
    second: &[u8],
) -> Result<(), Lacking> {
    let Some(kept) = kept else {
        system::unlink(rt, one.bytes());
        remove(rt, two);
        return Err(Lacking::First);
    };
    let before = set_aside(rt, first, &kept);
    if !place_first(rt, before, one, first) {
        put_back(rt, before, &kept, first);
        remove(rt, two);
        return Err(Lacking::First);
    }
    if !place_second(rt, two, second) || !holds(rt, first, a) {
        take_back(rt, before, &kept, first);
        return Err(Lacking::Second);
    }
    system::unlink(rt, kept.bytes());
    Ok(())
}

// The system's calls on files, by names that are bytes. The system's library here takes a name as text: one that is no UTF-8 is
// refused, as if the system found no file under it.
use std::fs::{File, OpenOptions};
use std::io::{Error, ErrorKind};
use std::rt::Files;
use std::{fs, io, str};

// The text of a name.
fn text(path: &[u8]) -> io::Result<&str> {
    match str::from_utf8(path) {
        Ok(text) => Ok(text),
        Err(_) => Err(Error::from(ErrorKind::InvalidInput)),
    }
}

pub(crate) fn open_read<R: Files>(rt: &R, path: &[u8]) -> io::Result<R::File> {
    File::open(rt, text(path)?)
}

// Opens a file that is there to read and write it.
pub(crate) fn open_update<R: Files>(rt: &R, path: &[u8]) -> io::Result<R::File> {
    OpenOptions::new()
        .read(true)
        .write(true)
        .open(rt, text(path)?)
}

// Makes a file of a name that is free.
pub(crate) fn create<R: Files>(rt: &R, path: &[u8]) -> io::Result<R::File> {
    OpenOptions::new()
        .write(true)
        .create_new(true)
        .open(rt, text(path)?)
}

pub(crate) fn rename<R: Files>(rt: &R, from: &[u8], to: &[u8]) -> io::Result<()> {
    fs::rename(rt, text(from)?, text(to)?)
}

// Removes a file where there is one.
pub(crate) fn unlink<R: Files>(rt: &R, path: &[u8]) {
    if let Ok(name) = text(path) {
        let _ = fs::remove_file(rt, name);
    }
}

// Files under temporary names, in the folder of the file that they become: from there a rename puts them in their place. A name
// that is taken is somebody else's, and stays as it is.
ghost use Rattle.std.specs.Prelude.{◌≤◌, length};

use crate::system;
use std::fs::OpenFile;
use std::io::{ErrorKind, Result, Seek, SeekFrom, Write};
use std::rt::Files;

// The longest name that the system takes, and a zero behind it.
const ROOM: usize = 4096;

// How many names are tried: a hundred that say what they are, and ten of one character, which fit wherever the file's own name
// does.
const TRIES: usize = 110;

// A temporary file's name: so many characters at the front of the room.
#[derive(Clone, Copy)]
pub(crate) struct Name {
    room: [u8; ROOM],
    length: usize,
}

impl Name {
    pub(crate) fn bytes(&self) -> &[u8] {
        memory::part(&self.room, 0, self.length)
    }
}

// The length of a name's folder, with the slash behind it.
fn folder(path: &[u8]) -> usize
    ensures { result ≤ length path.now }
{
    match path.iter().rposition(|c| *c == b'/') {
        Some(i) => i + 1,
        None => 0,
    }
}

fn digit(n: usize) -> u8 {
    (n % 10) as u8 + b'0'
}

// The i-th name beside a file's, where its folder's is not too long.
fn beside(path: &[u8], i: usize) -> Option<Name> {
    let n = folder(path);
    if ROOM < n {
        return None;
    }
    let mut room = [0u8; ROOM];
    memory::store(&mut room, 0, memory::part(path, 0, n));
    if 100 <= i {
        memory::store(&mut room, n, &[digit(i)]);
        return Some(Name {
            room,
            length: n + 1,
        });
    }
    memory::store(&mut room, n, b".new");
    memory::store(&mut room, n + 4, &[digit(i / 10), digit(i)]);
    Some(Name {
        room,
        length: n + 6,
    })
}

// Writes the bytes to a file that was just made, and closes it. Closing answers nothing here, so the system is asked before whether
// it has taken them.
fn filled<F: Write + OpenFile + Drop>(mut file: F, bytes: &[u8]) -> Result<()> {
    file.write_all(bytes)?;
    file.sync_all()
}

// The last part of a name, behind its folder.
fn last(path: &[u8]) -> &[u8] {
    memory::part(path, folder(path), path.len())
}

// Makes a file of a name that is free. A name that ends as one of the two that are asked for may be that one, however its folder
// is written: it is passed over.
fn made<R: Files>(rt: &R, name: &[u8], path: &[u8], other: &[u8]) -> Option<R::File> {
    if last(name) == last(path) || last(name) == last(other) {
        return None;
    }
    system::create(rt, name).ok()
}

// Whether a file may take the place of what has this name. A folder stays, also where a link leads to it: a file in the link's
// place would cut off what is behind it. A device, a pipe or a terminal stays: it does not go to a place that it is sent to, as a
// file does. A name that is no UTF-8 can stand for no file here. What else cannot be opened, as where there is nothing, is left to the
// rename.
fn is_replaceable<R: Files>(rt: &R, path: &[u8]) -> bool {
    match system::open_update(rt, path) {
        Ok(mut file) => matches!(file.seek(SeekFrom::Start(1)), Ok(1)),
        Err(e) => !matches!(e.kind(), ErrorKind::IsADirectory | ErrorKind::InvalidInput),
    }
}

// A file of these bytes under a new name beside another's, one of two that are asked for, where it can be written; else there is
// none.
pub(crate) fn written<R: Files>(rt: &R, path: &[u8], other: &[u8], bytes: &[u8]) -> Option<Name> {
    if !is_replaceable(rt, path) {
        return None;
    }
    for i in 0..TRIES {
        let name = beside(path, i)?;
        if let Some(file) = made(rt, name.bytes(), path, other) {
            if filled(file, bytes).is_ok() {
                return Some(name);
            }
            system::unlink(rt, name.bytes());
            return None;
        }
    }
    None
}

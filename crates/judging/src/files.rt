// What the programs read: standard input and the file of renames, never more of either than can matter.
use std::fs::File;
use std::io;
use std::io::{ErrorKind, Read};

// A file of renames that is longer than this is refused, however long it is.
const MOST_RENAMES: u64 = 129;

// At most so many bytes of standard input.
pub fn read_input(rt: &HostRuntime, most: u64) -> io::Result<Vec<u8>> {
    let mut bytes: Vec<u8> = Vec::new(rt.alloc());
    rt.stdin().take(most).read_to_end(&mut bytes)?;
    Ok(bytes)
}

// The file `renames` of the folder that the program runs in; nothing where there is none.
pub fn read_renames_file(rt: &HostRuntime) -> io::Result<Vec<u8>> {
    let mut bytes: Vec<u8> = Vec::new(rt.alloc());
    match File::open(rt, "renames") {
        Ok(file) => {
            file.take(MOST_RENAMES).read_to_end(&mut bytes)?;
        }
        Err(e) if e.kind() == ErrorKind::NotFound => {}
        Err(e) => return Err(e),
    }
    Ok(bytes)
}

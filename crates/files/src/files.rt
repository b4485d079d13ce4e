// Whole files.
ghost use Rattle.std.specs.Prelude.{IfOk};
ghost use Rattle.io.specs.Counts.{IsPrefixLen};
ghost use Rattle.files.specs.Fronts.{IsFront};

use crate::reasons::{Unread, fail};
use std::fs::File;
use std::io::{Error, Read};
use std::rt::Files;

// Reads until the buffer is full or the file ends; how many bytes were read, or why a read failed.
// A loop of our own: the library reads to the end of a file only into memory that it allocates.
fn read_full<F: Read>(file: &mut F, buf: &mut [u8]) -> Result<usize, Error>
    ensures { IfOk result (λ n. IsPrefixLen n buf.new) }
{
    let mut done: usize = 0;
    while done < buf.len() {
        let got = file.read(&mut buf[done..])?;
        if got == 0 {
            break;
        }
        done += got;
    }
    Ok(done)
}

// Whether a file has no more bytes than were read.
fn is_at_end<F: Read>(file: &mut F) -> Result<bool, Error> {
    Ok(file.read(&mut [0u8; 1])? == 0)
}

// The whole of an open file.
fn read_open<F: Read>(file: &mut F, buf: &mut [u8]) -> Result<usize, Unread>
    ensures { IfOk result (λ n. IsPrefixLen n buf.new) }
{
    let len = read_full(file, buf)?;
    if is_at_end(file)? {
        Ok(len)
    } else {
        Err(Unread::Longer(buf.len()))
    }
}

// The whole file of this path, which the library opens only where it is text.
fn read_path<R: Files>(rt: &R, path: &[u8], buf: &mut [u8]) -> Result<usize, Unread>
    ensures { IfOk result (λ n. IsPrefixLen n buf.new) }
{
    let name = str::from_utf8(path)?;
    let mut file = File::open(rt, name)?;
    read_open(&mut file, buf)
}

// The whole file of this path, in the buffer that is lent: how many bytes it has. Where it can't be had, standard
// error has the reason.
pub fn read_file<R: Files>(rt: &R, path: &[u8], buf: &mut [u8]) -> Option<usize>
    ensures { IsFront buf.new result }
{
    match read_path(rt, path, buf) {
        Ok(len) => Some(len),
        Err(reason) => {
            fail(path, reason);
            None
        },
    }
}

// Why a file can't be had, on standard error.

use crate::streams::{STDERR_FILENO, StandardError};
use std::fmt;
use std::fmt::Write;
use std::io::Error;
use std::str::Utf8Error;

// Why a file isn't read whole.
#[derive(Debug, Drop)]
pub enum Unread {
    // a path that isn't text, which the library can't open
    NotText,
    // longer than the room for it
    Longer(usize),
    Failed(Error),
}

impl From<Utf8Error> for Unread {
    fn from(_error: Utf8Error) -> Unread {
        Unread::NotText
    }
}

impl From<Error> for Unread {
    fn from(error: Error) -> Unread {
        Unread::Failed(error)
    }
}

impl fmt::Display for Unread {
    fn fmt<W: fmt::Write>(&self, f: &mut fmt::Formatter<W>) -> fmt::Result {
        match self {
            Unread::NotText => write!(f, "the path is not UTF-8"),
            Unread::Longer(room) => write!(f, "longer than {room} bytes"),
            Unread::Failed(error) => write!(f, "{error}"),
        }
    }
}

impl std::error::Error for Unread {}

// Standard error for the words of a reason, up to the number of the system's error.
#[derive(Clone, Copy)]
struct Words;

impl fmt::Write for Words {
    fn write_str(&mut self, text: &str) -> fmt::Result {
        match text.split_once(" (os error") {
            Some((words, _)) => {
                StandardError.write_str(words)?;
                Err(fmt::Error)
            },
            None => StandardError.write_str(text),
        }
    }
}

// Writes a line: what failed, which need not be text, and why.
pub fn fail<D: fmt::Display + Drop>(what: &[u8], reason: D) {
    io::write_all(STDERR_FILENO, what);
    let mut words = Words;
    let _ = write!(words, ": {reason}");
    io::write_all(STDERR_FILENO, b"\n");
}

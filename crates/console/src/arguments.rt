// The program's arguments.
ghost use Rattle.files.specs.Fronts.{IsFront};

use files::streams::StandardError;
use std::env::FillError;
use std::fmt::Write;
use std::rt::Env;

// Says which argument is missing, or too long for the room.
fn refuse_argument(i: usize, room: usize) {
    let mut err = StandardError;
    let _ = writeln!(err, "argument {i} is missing, or longer than {room} bytes");
}

// Argument i, in the buffer that is lent: how many bytes it has. Where it is missing or too long, standard error has the reason.
// The library's iterator of arguments ends at the first that is not text, and a path need not be.
pub fn argument<R: Env>(rt: &R, i: usize, buf: &mut [u8]) -> Option<usize>
    ensures { IsFront buf.new result }
{
    match rt.arg(i, buf) {
        Ok(len) => Some(len),
        Err(_) => {
            refuse_argument(i, buf.len());
            None
        },
    }
}

// Whether there is an argument i. No room is lent for it, so one that is too long for none is there all the same.
fn is_there<R: Env>(rt: &R, i: usize) -> bool {
    !matches!(rt.arg(i, &mut [0u8; 0]), Err(FillError::NotPresent))
}

// How many arguments the program was started with, its own name among them.
pub fn argument_count<R: Env>(rt: &R) -> usize {
    (0..usize::MAX)
        .find(|i| !is_there(rt, *i))
        .unwrap_or(usize::MAX)
}

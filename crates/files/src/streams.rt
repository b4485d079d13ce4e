// The program's standard streams, by the numbers that the system gives them.

use std::fmt;

pub const STDOUT_FILENO: i32 = 1;

pub const STDERR_FILENO: i32 = 2;

// Standard error for formatted text, where a function has no handle of it.
#[derive(Clone, Copy)]
pub struct StandardError;

impl fmt::Write for StandardError {
    fn write_str(&mut self, text: &str) -> fmt::Result {
        if io::write_all(STDERR_FILENO, text.as_bytes()) {
            Ok(())
        } else {
            Err(fmt::Error)
        }
    }
}

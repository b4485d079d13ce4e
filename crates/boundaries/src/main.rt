// boundaries WORD..: compiles each file that is named, with serial 1000, and prints a line for it: its name, the
// room, the answer's number, line, field and bytes, and on 0 the records in hexadecimal digits. A word that is a
// number up to 65,536 is the room for the files behind it; it is 65,536 at the start.

#![tactic(auto)]

ghost use Rattle.std.specs.Prelude.{◌≤◌};

use compiler::compile::compile;
use console::arguments::{argument, argument_count};
use files::files::read_file;
use hexadecimal::hex::print_hex;
use numbers::numbers::number;
use refusals::faults;
use rules::faults::{Answer, Fault};
use std::io::Error;
use std::rt::{Env, Files};

const MOST_ROOM: u64 = 65536;

// The records that stand at the front of the room, where there are any.
fn print_records<R: Print>(rt: &R, records: Option<&[u8]>) -> Result<(), Error> {
    match records {
        None | Some([]) => Ok(()),
        Some(bytes) => {
            print!(rt; " ")?;
            print_hex(rt, bytes)
        },
    }
}

fn compile_and_print<R: Print>(rt: &R, source: &[u8], out: &mut [u8]) -> Result<(), Error> {
    let Answer {
        fault,
        line,
        field,
        bytes,
    } = compile(source, 1000, out);
    let number = faults::number(fault);
    print!(rt; " {number} {line} {field} {bytes}")?;
    if fault == Fault::Done {
        print_records(rt, out.get(..bytes))?;
    }
    Ok(())
}

fn print_file<R: Files + Print>(rt: &R, path: &[u8], room: usize) -> Result<(), Error>
    requires { room ≤ 65536 }
{
    let mut source = io::large_buffer();
    let Some(len) = read_file(rt, path, &mut source) else {
        return Ok(());
    };
    rt.write_all(path)?;
    print!(rt; " {room}")?;
    let mut out = io::large_buffer();
    compile_and_print(rt, &source[..len], &mut out[..room])?;
    println!(rt)
}

// Argument i: the room, or a file that is compiled with the room there is. What a write answers is of no use.
fn room_after<R: Env + Files + Print>(rt: &R, i: usize, room: usize) -> usize
    requires { room ≤ 65536 }
    ensures { result ≤ 65536 }
{
    let mut text = io::buffer();
    let Some(len) = argument(rt, i, &mut text) else {
        return room;
    };
    match number(&text[..len], MOST_ROOM) {
        Some(value) => value as usize,
        None => {
            let _ = print_file(rt, &text[..len], room);
            room
        },
    }
}

fn main(rt: HostRuntime) {
    let mut room: usize = 65536;
    for i in 1..argument_count(&rt) {
        room = room_after(&rt, i, room);
    }
}

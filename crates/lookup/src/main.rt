// lookup DATA QUESTIONS [SERIAL]: compiles the file DATA and prints the answers to the questions of the file
// QUESTIONS, one a line: moment, client, type and name. Standard output has each question and below it its outcome
// and records, or its refusal. Standard error has whatever can't be read, is refused or can't be written, and
// nothing where all was done: a program has no exit status of its own choice.

#![tactic(auto)]

mod compiled;
mod print;
mod reports;
mod room;
mod serials;
mod words;

use compiled::compile_file;
use console::arguments::{argument, argument_count};
use files::files::read_file;
use files::reasons::fail;
use print::{Line, print_answers};
use room::records_buffer;
use serials::serial;
use std::io::Error;

// Each line of the questions, until standard output takes no more.
fn ask_lines(rt: &HostRuntime, records: &[u8], path: &[u8], text: &[u8]) -> Result<(), Error> {
    for (before, line) in text.split_inclusive(|b| *b == b'\n').enumerate() {
        let text = line.strip_suffix(b"\n").unwrap_or(line);
        let number = before as u64 + 1;
        print_answers(rt, records, Line { path, number, text })?;
    }
    Ok(())
}

fn ask_file(rt: &HostRuntime, records: &[u8]) {
    let mut path = io::buffer();
    let Some(size) = argument(rt, 2, &mut path) else {
        return;
    };
    let mut text = io::large_buffer();
    let Some(len) = read_file(rt, &path[..size], &mut text) else {
        return;
    };
    if let Err(error) = ask_lines(rt, records, &path[..size], &text[..len]) {
        fail(b"standard output", error);
    }
}

fn compile_and_ask(rt: &HostRuntime, path: &[u8], serial: u32) {
    let mut records = records_buffer();
    if let Some(len) = compile_file(rt, path, serial, &mut records) {
        ask_file(rt, &records[..len]);
    }
}

// The third argument, or 0 where there is none.
fn read_serial(rt: &HostRuntime) -> Option<u32> {
    if argument_count(rt) == 3 {
        return Some(0);
    }
    let mut text = [0u8; 16];
    let len = argument(rt, 3, &mut text)?;
    let said = serial(&text[..len]);
    if said.is_none() {
        let _ = eprintln!(rt; "SERIAL is not a decimal number up to {}", u32::MAX);
    }
    said
}

fn main(rt: HostRuntime) {
    if !matches!(argument_count(&rt), 3 | 4) {
        let _ = eprintln!(rt; "usage: lookup DATA QUESTIONS [SERIAL]");
        return;
    }
    let mut path = io::buffer();
    let Some(len) = argument(&rt, 1, &mut path) else {
        return;
    };
    if let Some(serial) = read_serial(&rt) {
        compile_and_ask(&rt, &path[..len], serial);
    }
}

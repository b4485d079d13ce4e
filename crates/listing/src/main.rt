// listing DATA: compiles the file DATA with serial 1000 and prints a line for each record: where its key, its data
// and the next record begin, as a reader that holds the bytes finds them. Then it compiles and asks in one call,
// for all that town.example has, one ordinal after another, and prints the numbers of each answer. What a write
// answers is of no use.

#![tactic(auto)]

use compiler::compile::compile;
use console::arguments::argument;
use files::files::read_file;
use held::nth;
use places::Place;
use refusals::faults::number;
use refusals::replies::{outcome_number, reply_number};
use rules::faults::Fault;
use rules::quantities::{Moment, Ttl};
use rules::replies::{Reply, Response};
use serving::compile_and_ask;
use vahmizar::served::Served;

const SERIAL: u32 = 1000;

// Every record of whole records.
fn print_places(rt: &HostRuntime, records: &[u8]) {
    for ordinal in 0..u64::MAX {
        let Ok(Place { key, rdata, next }) = nth(records, ordinal) else {
            return;
        };
        let _ = println!(rt; " {key} {rdata} {next}");
    }
}

fn list_records(rt: &HostRuntime, source: &[u8], out: &mut [u8]) {
    let answer = compile(source, SERIAL, out);
    if answer.fault != Fault::Done {
        return;
    }
    if let Some(records) = out.get(..answer.bytes) {
        print_places(rt, records);
    }
}

// The reply's number, and those of its record, where it has one; the outcome comes last, as in the answer of the call.
// Whether there may be more.
fn print_response(rt: &HostRuntime, response: Response) -> bool {
    let Response { outcome, reply } = response;
    let number = reply_number(reply);
    let outcome = outcome_number(outcome);
    match reply {
        Reply::Found {
            rtype,
            lifetime: Ttl(seconds),
            place,
            length,
        } => {
            let _ = println!(rt; " {number} {rtype} {seconds} {place} {length} {outcome}");
            true
        },
        Reply::NoMore | Reply::Refused(_) => {
            let _ = println!(rt; " {number} 0 0 0 0 {outcome}");
            false
        },
    }
}

fn print_served(rt: &HostRuntime, served: Served) -> bool {
    match served {
        Ok(response) => print_response(rt, response),
        Err(answer) => {
            let _ = println!(rt; " {}", number(answer.fault));
            false
        },
    }
}

fn ask_all(rt: &HostRuntime, source: &[u8], out: &mut [u8]) {
    let name = b"\x04town\x07example\x00";
    let client = [203u8, 0, 113, 7];
    let moment = 4611686020038557696;
    for ordinal in 0..u64::MAX {
        let served = compile_and_ask(
            source,
            SERIAL,
            out,
            name,
            255,
            &client,
            Moment(moment),
            ordinal,
        );
        if !print_served(rt, served) {
            return;
        }
    }
}

fn list_file(rt: &HostRuntime, path: &[u8]) {
    let mut source = io::large_buffer();
    let Some(len) = read_file(rt, path, &mut source) else {
        return;
    };
    let mut out = io::large_buffer();
    list_records(rt, &source[..len], &mut out);
    ask_all(rt, &source[..len], &mut out);
}

fn main(rt: HostRuntime) {
    let mut path = io::buffer();
    if let Some(len) = argument(&rt, 1, &mut path) {
        list_file(&rt, &path[..len]);
    }
}

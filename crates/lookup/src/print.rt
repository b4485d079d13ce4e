// The answer to a question, printed.
ghost use Rattle.std.specs.Prelude.{◌+◌, ◌≤◌, length};
ghost use Rattle.questions.specs.Places.{Inside};

use crate::words::{outcome_words, refusal_words};
use hexadecimal::hex::print_hex;
use questions::questions::answer_line;
use refusals::replies::reply_number;
use rules::quantities::Ttl;
use rules::replies::{Outcome, Reply, Response};
use std::io::Error;

// A line of a file of questions, counted from 1.
#[derive(Clone, Copy)]
pub struct Line<'a> {
    pub path: &'a [u8],
    pub number: u64,
    pub text: &'a [u8],
}

fn print_record<P: Print>(
    out: &P,
    records: &[u8],
    rtype: u16,
    lifetime: Ttl,
    place: usize,
    size: usize,
) -> Result<(), Error>
    requires { place + size ≤ length records.now }
{
    let Ttl(seconds) = lifetime;
    let end = place + size;
    print!(out; "  {rtype} {seconds} ")?;
    print_hex(out, &records[place..end])?;
    println!(out)
}

// The outcome stands once, above the first record.
fn print_outcome<P: Print>(out: &P, outcome: Outcome, ordinal: u64) -> Result<(), Error> {
    match outcome_words(outcome) {
        Some(words) if ordinal == 0 => println!(out; "  {words}"),
        _ => Ok(()),
    }
}

// Whether more records may follow.
fn print_reply<P: Print>(out: &P, records: &[u8], reply: Reply) -> Result<bool, Error>
    requires { Inside records.now reply }
{
    match reply {
        Reply::Found {
            rtype,
            lifetime,
            place,
            length,
        } => {
            print_record(out, records, rtype, lifetime, place, length)?;
            Ok(true)
        },
        Reply::NoMore => Ok(false),
        Reply::Refused(fault) => {
            let number = reply_number(reply);
            let words = refusal_words(fault);
            println!(out; "  {number} {words}")?;
            Ok(false)
        },
    }
}

// The question stands once, above its outcome. It need not be text.
fn print_question<P: Print>(out: &P, text: &[u8], ordinal: u64) -> Result<(), Error> {
    if ordinal == 0 {
        out.write_all(text)?;
        println!(out)?;
    }
    Ok(())
}

// The record of this ordinal, and whether more may follow.
fn print_response<P: Print>(
    out: &P,
    records: &[u8],
    text: &[u8],
    response: Response,
    ordinal: u64,
) -> Result<bool, Error>
    requires { Inside records.now response.reply }
{
    let Response { outcome, reply } = response;
    print_question(out, text, ordinal)?;
    print_outcome(out, outcome, ordinal)?;
    print_reply(out, records, reply)
}

fn refuse_line(rt: &HostRuntime, line: Line) {
    let Line {
        path,
        number,
        text: _,
    } = line;
    let _ = rt.stderr().write_all(path);
    let _ = eprintln!(rt; ":{number}: not a question: MOMENT CLIENT TYPE NAME");
}

// Every ordinal of a question, from 0, until there are no more, or standard output takes no more.
pub fn print_answers(rt: &HostRuntime, records: &[u8], line: Line) -> Result<(), Error> {
    for ordinal in 0..u64::MAX {
        let Some(response) = answer_line(records, line.text, ordinal) else {
            refuse_line(rt, line);
            return Ok(());
        };
        if !print_response(rt, records, line.text, response, ordinal)? {
            return Ok(());
        }
    }
    Ok(())
}

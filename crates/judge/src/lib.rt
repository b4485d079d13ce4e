// What the key and the data of one record say. Each function that judges has one caller or is small, so that a stream is judged without calls.

#![tactic(auto)]

ghost use Rattle.std.specs.Prelude.{◌≡◌, true, ◌&&◌, [], ◌∷◌, ◌≤◌, ◌+◌, ◌*◌, length, drop, get_or, leb, eqb};
ghost use Rattle.rules.specs.Reading.{is_lo, by_flag, resource_in, location_in, record_in};
ghost use Rattle.keys.specs.Keys.{low_name, fits_owner};
ghost use Rattle.judge.specs.Seen.{wildcard_flag, lo_flag, flag_in, shared_in, seen_with, seen_record, fixed_in};

pub mod known;

use keys::is_low_name;
use letters::ascii::is_letter;
use rules::quantities::{Lo, Moment, Shared, Ttl};
use wire::get::get_be;
use wire::stars::is_wild;

const LARGEST_TTL: u64 = 2147483647;

const LAST_MOMENT: u64 = 9223372036854775807;

// A record that was read. Of a resource record the record data begin at `fixed` in its data; a wildcard's key lacks the label `*`.
#[derive(Clone, Copy)]
pub enum Seen {
    Location(Lo),
    Resource {
        wild: bool,
        rtype: u16,
        shared: Shared,
        fixed: usize,
    },
}

// The type of a record with an owner: its data begin with it.
pub fn type_in(rdata: &[u8]) -> u16
    requires { 2 ≤ length rdata.now }
    ensures { result ≡ get_or rdata.now 0 0 * 256 + get_or rdata.now 1 0 }
{
    u16::from_be_bytes([rdata[0], rdata[1]])
}

// Whether a flag is that of a wildcard, `*` or `+`.
fn is_wildcard(flag: u8) -> bool
    ensures { result ≡ wildcard_flag flag }
{
    matches!(flag, b'*' | b'+')
}

// Whether two bytes are a lo: a letter, and a letter or 0.
fn is_lo(a: u8, b: u8) -> bool
    ensures { result ≡ is_lo (a ∷ b ∷ []) }
{
    if !is_letter(a) {
        return false;
    }
    if b == 0 {
        return true;
    }
    is_letter(b)
}

// The lo behind the flag, and where ttl begins in the data.
fn lo_in(rdata: &[u8]) -> Option<(Lo, usize)>
    requires { 3 ≤ length rdata.now }
    ensures { result ≡ lo_flag rdata.now }
{
    if rdata.len() < 5 {
        return None;
    }
    if !is_lo(rdata[3], rdata[4]) {
        return None;
    }
    Some((Lo::Code(rdata[3], rdata[4]), 5))
}

// What the flag says of lo, and where ttl begins in the data: `=` and `*` have no lo, `>` and `+` have one.
fn flag_in(rdata: &[u8], wild: bool) -> Option<(Lo, usize)>
    requires in_bounds { 3 ≤ length rdata.now }
    requires wild_value { wild ≡ wildcard_flag (get_or rdata.now 2 0) }
    ensures { result ≡ flag_in rdata.now }
{
    let flag = rdata[2];
    if wild {
        if flag == b'*' {
            return Some((Lo::Every, 3));
        }
        return lo_in(rdata);
    }
    if flag == b'=' {
        return Some((Lo::Every, 3));
    }
    if flag == b'>' {
        return lo_in(rdata);
    }
    None
}

// Ttl and time, behind the flag and lo.
fn shared_in(lo: Lo, rest: &[u8]) -> Option<Shared>
    ensures { result ≡ shared_in lo rest.now }
{
    if rest.len() < 12 {
        return None;
    }
    let ttl = get_be(&rest[0..4]);
    if LARGEST_TTL < ttl {
        return None;
    }
    let time = get_be(&rest[4..12]);
    if LAST_MOMENT < time {
        return None;
    }
    Some(Shared {
        ttl: Ttl(ttl as u32),
        time: Moment(time),
        lo,
    })
}

// The record whose ttl begins at a place of its data.
fn fields_in(rdata: &[u8], lo: Lo, at: usize, wild: bool, rtype: u16) -> Option<Seen>
    requires { at ≤ length rdata.now }
    ensures { result ≡ seen_with wild rtype (at + 12) (shared_in lo (drop at rdata.now)) }
{
    let shared = shared_in(lo, &rdata[at..])?;
    Some(Seen::Resource {
        wild,
        rtype,
        shared,
        fixed: at + 12,
    })
}

// Whether a name free of A to Z is the key that a wildcard record, or another, can have.
fn fits_owner(key: &[u8], wild: bool) -> bool
    ensures { result ≡ fits_owner wild key.now }
{
    if wild {
        return key.len() <= 253;
    }
    !is_wild(key)
}

// A record of this type whose key is a name free of A to Z: whether it is a wildcard goes by the flag, and what its key may be by that.
fn by_any_flag(key: &[u8], rdata: &[u8], rtype: u16) -> Option<Seen>
    requires in_bounds { 3 ≤ length rdata.now }
    requires key_value { low_name key.now ≡ true }
    ensures result_value { seen_record key.now rdata.now result ≡ by_flag key.now rtype (get_or rdata.now 2 0) (drop 3 rdata.now) }
    ensures result_in_bounds { fixed_in result ≤ length rdata.now }
{
    let wild = is_wildcard(rdata[2]);
    if !fits_owner(key, wild) {
        return None;
    }
    let (lo, at) = flag_in(rdata, wild)?;
    fields_in(rdata, lo, at, wild, rtype)
}

// A record of this type. Most have the flag `=`, so it is looked for first.
fn by_flag(key: &[u8], rdata: &[u8], rtype: u16) -> Option<Seen>
    requires { 3 ≤ length rdata.now }
    ensures result_value { seen_record key.now rdata.now result ≡ by_flag key.now rtype (get_or rdata.now 2 0) (drop 3 rdata.now) }
    ensures result_in_bounds { fixed_in result ≤ length rdata.now }
{
    if !is_low_name(key) {
        return None;
    }
    if rdata[2] != b'=' {
        return by_any_flag(key, rdata, rtype);
    }
    if is_wild(key) {
        return None;
    }
    fields_in(rdata, Lo::Every, 3, false, rtype)
}

// A record with an owner: its data begin with the type and the flag.
fn resource_in(key: &[u8], rdata: &[u8]) -> Option<Seen>
    ensures result_value { seen_record key.now rdata.now result ≡ resource_in key.now rdata.now }
    ensures result_in_bounds { fixed_in result ≤ length rdata.now }
{
    if rdata.len() < 3 {
        return None;
    }
    by_flag(key, rdata, type_in(rdata))
}

// A location: behind 0 and `%` in its key stands the prefix, and its data are lo.
fn location_in(key: &[u8], rdata: &[u8]) -> Option<Seen>
    requires { 2 ≤ length key.now }
    ensures result_value { seen_record key.now rdata.now result ≡ location_in (get_or key.now 1 0) (drop 2 key.now) rdata.now }
    ensures result_in_bounds { fixed_in result ≤ length rdata.now }
{
    if key[1] != b'%' {
        return None;
    }
    if 6 < key.len() {
        return None;
    }
    if rdata.len() != 2 {
        return None;
    }
    if !is_lo(rdata[0], rdata[1]) {
        return None;
    }
    Some(Seen::Location(Lo::Code(rdata[0], rdata[1])))
}

// Whether a key is a location's: it starts with 0 and has two bytes or more.
fn is_location(key: &[u8]) -> bool
    ensures { result ≡ (leb 2 (length key.now) && eqb (get_or key.now 0 0) 0) }
{
    matches!(key, [0, _, ..])
}

// The record of a key and its data, where they are one.
pub fn record_in(key: &[u8], rdata: &[u8]) -> Option<Seen>
    ensures result_value { seen_record key.now rdata.now result ≡ record_in key.now rdata.now }
    ensures result_in_bounds { fixed_in result ≤ length rdata.now }
{
    if key.is_empty() {
        return None;
    }
    if is_location(key) {
        return location_in(key, rdata);
    }
    resource_in(key, rdata)
}

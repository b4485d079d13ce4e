// Records that were judged before: what they say, without judging the key, the flag and lo again.
ghost use Rattle.std.specs.Prelude.{◌≡◌, true, ◌≤◌, length, Some};
ghost use Rattle.rules.specs.Lists.{is_some};
ghost use Rattle.rules.specs.Reading.{record_in};
ghost use Rattle.judge.specs.Seen.{flag_in, seen_record, fixed_in, seen_in};

use crate::{Seen, fields_in, is_location, is_wildcard, location_in, type_in};
use rules::quantities::Lo;

// What the flag says of lo, and where ttl begins in the data, which are known to be a record's.
fn known_flag(rdata: &[u8]) -> (Lo, usize)
    requires in_bounds { 3 ≤ length rdata.now }
    requires rdata_value { is_some (flag_in rdata.now) ≡ true }
    ensures { Some result ≡ flag_in rdata.now }
{
    match rdata[2] {
        b'=' => (Lo::Every, 3),
        b'*' => (Lo::Every, 3),
        _ => (Lo::Code(rdata[3], rdata[4]), 5),
    }
}

// The record of data that are known to be those of a record with an owner.
fn known_resource(rdata: &[u8]) -> Seen
    requires in_bounds { 3 ≤ length rdata.now }
    requires rdata_value { is_some (seen_in rdata.now) ≡ true }
    ensures { Some result ≡ seen_in rdata.now }
{
    let wild = is_wildcard(rdata[2]);
    let (lo, at) = known_flag(rdata);
    fields_in(rdata, lo, at, wild, type_in(rdata)).unwrap()
}

// The record of a key and its data that are known to be one.
pub fn known_in(key: &[u8], rdata: &[u8]) -> Seen
    requires { is_some (record_in key.now rdata.now) ≡ true }
    ensures result_value { seen_record key.now rdata.now (Some result) ≡ record_in key.now rdata.now }
    ensures result_in_bounds { fixed_in (Some result) ≤ length rdata.now }
{
    if is_location(key) {
        return location_in(key, rdata).unwrap();
    }
    known_resource(rdata)
}

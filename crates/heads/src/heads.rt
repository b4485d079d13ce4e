// What stands in a record before its data: lengths, key, type, flag and lo, ttl, time.
ghost use Rattle.std.specs.Prelude.{◌≡◌, ◌++◌, ◌+◌, ◌≤◌, length};
ghost use Rattle.rules.specs.Lists.{be, le};
ghost use Rattle.rules.specs.Records.{lo_bytes};
ghost use Rattle.rules.specs.Bytes.{flag_and_lo};
ghost use Rattle.buffer.specs.Put.{IsPut};
ghost use Rattle.heads.specs.Head.{owner_key, key_size, flag_of, fixed_fields, fixed_size, head_of, head_size};

use buffer::put::{put_bytes, put_lowered};
use integers::integers::{put_be, put_each_le};
use rules::quantities::{Lo, Shared};
use wire::stars::is_wild;

// How many bytes of key an owner makes.
fn key_size(owner: &[u8]) -> usize
    ensures value { result ≡ key_size owner.now }
    ensures upper_bound { result ≤ length owner.now }
{
    if is_wild(owner) {
        return owner.len() - 2;
    }
    owner.len()
}

// How many bytes lo has.
pub(crate) fn lo_size(lo: Lo) -> usize
    ensures value { result ≡ length (lo_bytes lo) }
    ensures upper_bound { result ≤ 2 }
{
    match lo {
        Lo::Every => 0,
        Lo::Code(_, _) => 2,
    }
}

pub(crate) fn put_lo(out: &mut [u8], lo: Lo) -> usize
    requires { length (lo_bytes lo) ≤ length out.old }
    ensures put { IsPut (lo_bytes lo) out.old out.new result }
    ensures value { result ≡ length (lo_bytes lo) }
{
    match lo {
        Lo::Every => 0,
        Lo::Code(first, second) => put_bytes(out, &[first, second]),
    }
}

// The byte that says whether the record is a wildcard's and whether lo follows.
fn flag(wild: bool, lo: Lo) -> u8
    ensures { result ≡ flag_of wild lo }
{
    match (lo, wild) {
        (Lo::Every, true) => b'*',
        (Lo::Every, false) => b'=',
        (Lo::Code(_, _), true) => b'+',
        (Lo::Code(_, _), false) => b'>',
    }
}

fn put_flag(out: &mut [u8], wild: bool, lo: Lo) -> usize
    requires { 1 + length (lo_bytes lo) ≤ length out.old }
    ensures put { IsPut (flag_and_lo wild (lo_bytes lo)) out.old out.new result }
    ensures value { result ≡ 1 + length (lo_bytes lo) }
{
    let used = put_bytes(out, &[flag(wild, lo)]);
    used + put_lo(&mut out[used..], lo)
}

// The lengths of key and data.
pub(crate) fn put_lengths(out: &mut [u8], key: usize, rest: usize) -> usize
    requires { 8 ≤ length out.old }
    ensures put { IsPut (le 4 key ++ le 4 rest) out.old out.new result }
    ensures value { result ≡ 8 }
{
    put_each_le(out, 4, &[key as u64, rest as u64])
}

// The owner with its letters lowered, behind its star label.
fn put_key(out: &mut [u8], owner: &[u8]) -> usize
    requires { key_size owner.now ≤ length out.old }
    ensures put { IsPut (owner_key owner.now) out.old out.new result }
    ensures value { result ≡ key_size owner.now }
{
    if is_wild(owner) {
        return put_lowered(out, &owner[2..]);
    }
    put_lowered(out, owner)
}

fn put_times(out: &mut [u8], ttl: u32, time: u64) -> usize
    requires { 12 ≤ length out.old }
    ensures put { IsPut (be 4 ttl ++ be 8 time) out.old out.new result }
    ensures value { result ≡ 12 }
{
    let used = put_be(out, ttl);
    used + put_be(&mut out[used..], time)
}

// The fields before the record data.
fn put_fixed(out: &mut [u8], owner: &[u8], rtype: u16, shared: Shared) -> usize
    requires { fixed_size shared.lo ≤ length out.old }
    ensures put { IsPut (fixed_fields shared owner.now rtype) out.old out.new result }
    ensures value { result ≡ fixed_size shared.lo }
{
    let ttl = shared.ttl;
    let time = shared.time;
    let lo = shared.lo;
    let a = put_be(out, rtype);
    let b = a + put_flag(&mut out[a..], is_wild(owner), lo);
    b + put_times(&mut out[b..], ttl.0, time.0)
}

// All of a record before its data, for which there is room too.
pub fn put_head(out: &mut [u8], owner: &[u8], rtype: u16, shared: Shared, rdata_len: usize) -> usize
    requires { head_size shared owner.now + rdata_len ≤ length out.old }
    ensures put { IsPut (head_of shared owner.now rtype rdata_len) out.old out.new result }
    ensures value { result ≡ head_size shared owner.now }
{
    let lo = shared.lo;
    let a = put_lengths(out, key_size(owner), 15 + lo_size(lo) + rdata_len);
    let b = a + put_key(&mut out[a..], owner);
    b + put_fixed(&mut out[b..], owner, rtype, shared)
}

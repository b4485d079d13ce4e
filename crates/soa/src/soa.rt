// A record of authority: two names and five numbers.
ghost use Rattle.std.specs.Prelude.{◌≡◌, ◌++◌, ◌+◌, ◌≤◌, length};
ghost use Rattle.rules.specs.Lists.{be};
ghost use Rattle.rules.specs.Records.{soa_data, resource_of};
ghost use Rattle.buffer.specs.Put.{IsPut};
ghost use Rattle.rules.specs.Bytes.{encode};
ghost use Rattle.heads.specs.Head.{head_size};

use buffer::put::put_bytes;
use heads::heads::put_head;
use integers::integers::put_each_be;
use rules::quantities::Shared;

// The numbers of an SOA record, in the order of its data.
#[derive(Clone, Copy)]
pub struct SoaNumbers {
    pub serial: u32,
    pub refresh: u32,
    pub retry: u32,
    pub expire: u32,
    pub minimum: u32,
}

fn put_soa_numbers(out: &mut [u8], numbers: SoaNumbers) -> usize
    requires { 20 ≤ length out.old }
    ensures put { IsPut (be 4 numbers.serial ++ be 4 numbers.refresh ++ be 4 numbers.retry ++ be 4 numbers.expire ++ be 4 numbers.minimum) out.old out.new result }
    ensures value { result ≡ 20 }
{
    let SoaNumbers {
        serial,
        refresh,
        retry,
        expire,
        minimum,
    } = numbers;
    put_each_be(out, &[serial, refresh, retry, expire, minimum])
}

fn put_soa_data(out: &mut [u8], mname: &[u8], rname: &[u8], numbers: SoaNumbers) -> usize
    requires { 20 + length mname.now + length rname.now ≤ length out.old }
    ensures put { IsPut (soa_data mname.now rname.now numbers.serial numbers.refresh numbers.retry numbers.expire numbers.minimum) out.old out.new result }
    ensures value { result ≡ 20 + length mname.now + length rname.now }
{
    let a = put_bytes(out, mname);
    let b = a + put_bytes(&mut out[a..], rname);
    b + put_soa_numbers(&mut out[b..], numbers)
}

// A head and the data behind it, as a service has them too: one function over a writer of the data would need a longer
// contract than its body.
pub fn put_soa(
    out: &mut [u8],
    owner: &[u8],
    shared: Shared,
    mname: &[u8],
    rname: &[u8],
    numbers: SoaNumbers,
) -> usize
    requires { head_size shared owner.now + (20 + length mname.now + length rname.now) ≤ length out.old }
    ensures put { IsPut (encode (resource_of shared owner.now 6 (soa_data mname.now rname.now numbers.serial numbers.refresh numbers.retry numbers.expire numbers.minimum))) out.old out.new result }
    ensures value { result ≡ head_size shared owner.now + (20 + length mname.now + length rname.now) }
{
    let used = put_head(out, owner, 6, shared, 20 + mname.len() + rname.len());
    used + put_soa_data(&mut out[used..], mname, rname, numbers)
}

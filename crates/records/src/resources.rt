// Resource records: a head, and the record data behind it.
ghost use Rattle.std.specs.Prelude.{◌≡◌, ◌+◌, ◌≤◌, length};
ghost use Rattle.rules.specs.Records.{resource_of};
ghost use Rattle.rules.specs.Bytes.{encode};
ghost use Rattle.buffer.specs.Put.{IsPut};
ghost use Rattle.heads.specs.Head.{head_size};

use buffer::put::put_bytes;
use heads::heads::put_head;
use rules::quantities::Shared;

pub fn put_resource(out: &mut [u8], owner: &[u8], rtype: u16, shared: Shared, rdata: &[u8]) -> usize
    requires { head_size shared owner.now + length rdata.now ≤ length out.old }
    ensures put { IsPut (encode (resource_of shared owner.now rtype rdata.now)) out.old out.new result }
    ensures value { result ≡ head_size shared owner.now + length rdata.now }
{
    let used = put_head(out, owner, rtype, shared, rdata.len());
    used + put_bytes(&mut out[used..], rdata)
}

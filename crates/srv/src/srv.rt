// A record of a service: priority, weight, port and host.
ghost use Rattle.std.specs.Prelude.{◌≡◌, ◌+◌, ◌≤◌, length};
ghost use Rattle.rules.specs.Records.{srv_data, resource_of};
ghost use Rattle.buffer.specs.Put.{IsPut};
ghost use Rattle.rules.specs.Bytes.{encode};
ghost use Rattle.heads.specs.Head.{head_size};

use buffer::put::put_bytes;
use heads::heads::put_head;
use integers::integers::put_each_be;
use rules::quantities::{Port, Priority, Shared, Weight};

fn put_srv_data(
    out: &mut [u8],
    priority: Priority,
    weight: Weight,
    port: Port,
    host: &[u8],
) -> usize
    requires { 6 + length host.now ≤ length out.old }
    ensures put { IsPut (srv_data priority weight port host.now) out.old out.new result }
    ensures value { result ≡ 6 + length host.now }
{
    let used = put_each_be(out, &[priority.0, weight.0, port.0]);
    used + put_bytes(&mut out[used..], host)
}

// Like an SOA record in shape alone: see soa.
pub fn put_srv(
    out: &mut [u8],
    owner: &[u8],
    shared: Shared,
    priority: Priority,
    weight: Weight,
    port: Port,
    host: &[u8],
) -> usize
    requires { head_size shared owner.now + (6 + length host.now) ≤ length out.old }
    ensures put { IsPut (encode (resource_of shared owner.now 33 (srv_data priority weight port host.now))) out.old out.new result }
    ensures value { result ≡ head_size shared owner.now + (6 + length host.now) }
{
    let used = put_head(out, owner, 33, shared, 6 + host.len());
    used + put_srv_data(&mut out[used..], priority, weight, port, host)
}

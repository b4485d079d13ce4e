// The line that names a mail exchanger.
ghost use Rattle.std.specs.Prelude.{◌≡◌, ◌++◌, ◌+◌, ◌≤◌, length};
ghost use Rattle.rules.specs.Lists.{be};
ghost use Rattle.rules.specs.Records.{resource_of, records_of};
ghost use Rattle.rules.specs.Bytes.{encode, bytes_of};
ghost use Rattle.rules.specs.declared.kinds.Kind.{Kind};
ghost use Rattle.buffer.specs.Put.{IsPut};
ghost use Rattle.heads.specs.Head.{head_size};
ghost use Rattle.values.specs.Ready.{Ready};
ghost use Rattle.hosts.specs.HostLines.{host_records};
ghost use Rattle.splits.specs.Texts.{fields_of};

use a_aaaa::a_aaaa::put_held_address;
use buffer::put::put_bytes;
use heads::heads::put_head;
use hosts::hosts::HostLine;
use integers::integers::put_be;
use rules::kinds::Kind;
use rules::quantities::Shared;
use splits::splits::Fields;
use values::values::short_at;

const MX: [u8; 2] = *b"mx";

fn put_mx(out: &mut [u8], owner: &[u8], shared: Shared, dist: u16, host: &[u8]) -> usize
    requires { head_size shared owner.now + (2 + length host.now) ≤ length out.old }
    ensures put { IsPut (encode (resource_of shared owner.now 15 (be 2 dist ++ host.now))) out.old out.new result }
    ensures value { result ≡ head_size shared owner.now + (2 + length host.now) }
{
    let a = put_head(out, owner, 15, shared, 2 + host.len());
    let b = a + put_be(&mut out[a..], dist);
    b + put_bytes(&mut out[b..], host)
}

// The mail exchanger and its address.
// Zones, mail and services each have such a function: one over a closure would need a longer contract than its body.
fn put_exchanger(out: &mut [u8], line: &HostLine, dist: u16) -> usize
    requires { length (bytes_of (host_records line.now 15 (be 2 dist))) ≤ length out.old }
    ensures { IsPut (bytes_of (host_records line.now 15 (be 2 dist))) out.old out.new result }
{
    let host = line.host.as_slice();
    let used = put_mx(out, line.owner.as_slice(), line.shared, dist, host);
    used + put_held_address(&mut out[used..], host, line.address, line.shared)
}

pub fn put_mail_line(out: &mut [u8], fields: &Fields) -> usize
    requires { Ready Kind.Mail (fields_of fields.now)
        × (length (bytes_of (records_of 0 Kind.Mail (fields_of fields.now))) ≤ length out.old) }
    ensures { IsPut (bytes_of (records_of 0 Kind.Mail (fields_of fields.now))) out.old out.new result }
{
    let line = HostLine::read(fields, Kind::Mail, &MX);
    let dist = short_at(fields, 3);
    put_exchanger(out, &line, dist)
}

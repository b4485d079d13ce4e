// The lines that name a name server: zones and delegations.
ghost use Rattle.std.specs.Prelude.{◌≡◌, [], ◌≤◌, length};
ghost use Rattle.rules.specs.Records.{contact_of, soa_shared, records_of};
ghost use Rattle.rules.specs.Bytes.{encode, bytes_of};
ghost use Rattle.rules.specs.declared.kinds.Kind.{Kind};
ghost use Rattle.buffer.specs.Put.{IsPut};
ghost use Rattle.values.specs.Ready.{Ready};
ghost use Rattle.hosts.specs.HostLines.{host_records};
ghost use Rattle.zones.specs.ZoneLines.{soa_record, zone_records};
ghost use Rattle.splits.specs.Texts.{fields_of};

use a_aaaa::a_aaaa::put_held_address;
use contacts::contacts::read_contact;
use hosts::hosts::HostLine;
use records::resources::put_resource;
use rules::kinds::Kind;
use rules::quantities::{Shared, Ttl};
use soa::soa::{SoaNumbers, put_soa};
use splits::splits::Fields;

const NS: [u8; 2] = *b"ns";

// The name server and its address.
// Zones, mail and services each have such a function: one over a closure would need a longer contract than its body.
fn put_server(out: &mut [u8], line: &HostLine) -> usize
    requires { length (bytes_of (host_records line.now 2 [])) ≤ length out.old }
    ensures { IsPut (bytes_of (host_records line.now 2 [])) out.old out.new result }
{
    let host = line.host.as_slice();
    let used = put_resource(out, line.owner.as_slice(), 2, line.shared, host);
    used + put_held_address(&mut out[used..], host, line.address, line.shared)
}

// What the SOA of a zone line shares with the line: it is kept for a time of its own, if the line doesn't end.
fn soa_shared(shared: Shared) -> Shared
    ensures { result ≡ soa_shared shared }
{
    let ttl = if shared.ttl.0 == 0 { 0 } else { 2560 };
    Shared {
        ttl: Ttl(ttl),
        ..shared
    }
}

// The SOA of a zone line, with the numbers as the rules' definition of its records writes them.
fn put_authority(out: &mut [u8], line: &HostLine, serial: u32) -> usize
    requires { (length (contact_of line.now.owner) ≤ 255) × (length (bytes_of (zone_records serial line.now)) ≤ length out.old) }
    ensures { IsPut (encode (soa_record serial line.now)) out.old out.new result }
{
    let owner = line.owner.as_slice();
    let contact = read_contact(owner);
    put_soa(
        out,
        owner,
        soa_shared(line.shared),
        line.host.as_slice(),
        contact.as_slice(),
        SoaNumbers {
            serial,
            refresh: 16384,
            retry: 2048,
            expire: 1048576,
            minimum: 2560,
        },
    )
}

pub fn put_zone_line(out: &mut [u8], fields: &Fields, serial: u32) -> usize
    requires { Ready Kind.Zone (fields_of fields.now)
        × (length (bytes_of (records_of serial Kind.Zone (fields_of fields.now))) ≤ length out.old) }
    ensures { IsPut (bytes_of (records_of serial Kind.Zone (fields_of fields.now))) out.old out.new result }
{
    let line = HostLine::read(fields, Kind::Zone, &NS);
    let used = put_authority(out, &line, serial);
    used + put_server(&mut out[used..], &line)
}

pub fn put_delegation_line(out: &mut [u8], fields: &Fields) -> usize
    requires { Ready Kind.Delegation (fields_of fields.now)
        × (length (bytes_of (records_of 0 Kind.Delegation (fields_of fields.now))) ≤ length out.old) }
    ensures { IsPut (bytes_of (records_of 0 Kind.Delegation (fields_of fields.now))) out.old out.new result }
{
    let line = HostLine::read(fields, Kind::Delegation, &NS);
    put_server(out, &line)
}

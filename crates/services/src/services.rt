// The line that names a service's host.
ghost use Rattle.std.specs.Prelude.{◌≤◌, length};
ghost use Rattle.rules.specs.Records.{records_of};
ghost use Rattle.rules.specs.Bytes.{bytes_of};
ghost use Rattle.rules.specs.declared.kinds.Kind.{Kind};
ghost use Rattle.buffer.specs.Put.{IsPut};
ghost use Rattle.values.specs.Ready.{Ready};
ghost use Rattle.services.specs.ServiceLines.{service_records};
ghost use Rattle.splits.specs.Texts.{fields_of};

use a_aaaa::a_aaaa::put_held_address;
use hosts::hosts::HostLine;
use rules::kinds::Kind;
use rules::quantities::{Port, Priority, Weight};
use splits::splits::Fields;
use srv::srv::put_srv;
use values::values::short_at;

const SRV: [u8; 3] = *b"srv";

// The service's host and its address.
// Zones, mail and services each have such a function: one over a closure would need a longer contract than its body.
fn put_service(
    out: &mut [u8],
    line: &HostLine,
    priority: Priority,
    weight: Weight,
    port: Port,
) -> usize
    requires { length (bytes_of (service_records line.now priority weight port)) ≤ length out.old }
    ensures { IsPut (bytes_of (service_records line.now priority weight port)) out.old out.new result }
{
    let owner = line.owner.as_slice();
    let host = line.host.as_slice();
    let used = put_srv(out, owner, line.shared, priority, weight, port, host);
    used + put_held_address(&mut out[used..], host, line.address, line.shared)
}

pub fn put_service_line(out: &mut [u8], fields: &Fields) -> usize
    requires { Ready Kind.Service (fields_of fields.now)
        × (length (bytes_of (records_of 0 Kind.Service (fields_of fields.now))) ≤ length out.old) }
    ensures { IsPut (bytes_of (records_of 0 Kind.Service (fields_of fields.now))) out.old out.new result }
{
    let line = HostLine::read(fields, Kind::Service, &SRV);
    let port = short_at(fields, 3);
    let priority = short_at(fields, 4);
    let weight = short_at(fields, 5);
    put_service(out, &line, Priority(priority), Weight(weight), Port(port))
}

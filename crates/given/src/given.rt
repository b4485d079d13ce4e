// The name that x gives.
ghost use Rattle.std.specs.Prelude.{◌≡◌, ◌++◌, ◌≤◌, ◌+◌, length};
ghost use Rattle.rules.specs.Names.{label};
ghost use Rattle.buffer.specs.Put.{IsPut};
ghost use Rattle.rules.specs.Records.{host_name};
ghost use Rattle.given.specs.Given.{HostGood};

use buffer::filled::Filled;
use buffer::put::put_bytes;
use names::names::{Name, put_label, read_name};
use pieces::pieces::has_byte;

// A label, a second one and a name, one behind the other. Out of line, as put_name.
// Three writers in turn, as for the data of an SOA record: one function of both would state their contracts again.
#[inline(never)]
fn put_joined(out: &mut [u8], x: &[u8], middle: &[u8], owner: &[u8]) -> usize
    requires { (length x.now ≤ 63) × (length middle.now ≤ 63) × (length (label x.now) + length (label middle.now) + length owner.now ≤ length out.old) }
    ensures { IsPut (label x.now ++ label middle.now ++ owner.now) out.old out.new result }
{
    let a = put_label(out, x);
    let b = a + put_label(&mut out[a..], middle);
    b + put_bytes(&mut out[b..], owner)
}

// The name that x gives: x itself if it has a dot.
pub fn read_host(owner: &[u8], x: &[u8], middle: &[u8]) -> Name
    requires { HostGood owner.now x.now middle.now }
    ensures { result ≡ host_name middle.now owner.now x.now }
{
    if has_byte(x, b'.') {
        return read_name(x);
    }
    Filled::by(|room| put_joined(room, x, middle, owner))
}

// The values of a line's fields, each with its default.
ghost use Rattle.std.specs.Prelude.{◌≡◌, ◌≤◌, ◌<◌};
ghost use Rattle.rules.specs.Lists.{value_or};
ghost use Rattle.rules.specs.Kinds.{field_at, field_count};
ghost use Rattle.rules.specs.Fields.{time_of, lo_of, largest_ttl};
ghost use Rattle.rules.specs.Records.{number_or, short_at, long_at, shared_of};
ghost use Rattle.rules.specs.declared.quantities.Lo.{Lo};
ghost use Rattle.splits.specs.Texts.{fields_of};

use codes::codes::lo;
use numbers::numbers::number;
use rows::rows::row_of;
use rules::kinds::Kind;
use rules::quantities::{Lo, Moment, Shared, Ttl};
use splits::splits::Fields;
use times::times::time;

// A number of at most the limit, or its default.
fn number_or(text: &[u8], limit: u64, default: u64) -> u64
    requires { default ≤ limit }
    ensures { (result ≡ number_or default limit text.now) × (result ≤ limit) }
{
    number(text, limit).unwrap_or(default)
}

fn time_of(text: &[u8]) -> Moment
    ensures { result.0 ≡ value_or 0 (time_of text.now) }
{
    time(text).unwrap_or(Moment(0))
}

fn lo_of(text: &[u8]) -> Lo
    ensures { result ≡ value_or Lo.Every (lo_of text.now) }
{
    lo(text).unwrap_or(Lo::Every)
}

pub fn short_at(fields: &Fields, i: usize) -> u16
    requires { i < 11 }
    ensures { result ≡ short_at (fields_of fields.now) i }
{
    number_or(fields.field(i), 65535, 0) as u16
}

pub fn long_at(fields: &Fields, i: usize, default: u32) -> u32
    requires { i < 11 }
    ensures { result ≡ long_at default (fields_of fields.now) i }
{
    number_or(fields.field(i), 4294967295, default as u64) as u32
}

fn ttl_at(fields: &Fields, i: usize, default: u32) -> Ttl
    requires { (i < 11) × (default ≤ 2147483647) }
    ensures { result.0 ≡ number_or default largest_ttl (field_at (fields_of fields.now) i) }
{
    Ttl(number_or(fields.field(i), 2147483647, default as u64) as u32)
}

pub fn lo_at(fields: &Fields, i: usize) -> Lo
    requires { i < 11 }
    ensures { result ≡ value_or Lo.Every (lo_of (field_at (fields_of fields.now) i)) }
{
    lo_of(fields.field(i))
}

// The last three fields of a kind that has them.
pub fn shared_of(fields: &Fields, kind: Kind) -> Shared
    requires { 3 ≤ field_count kind }
    ensures { result ≡ shared_of kind (fields_of fields.now) }
{
    let row = row_of(kind);
    let count = row.count;
    let ttl = ttl_at(fields, count - 3, row.ttl);
    let time = time_of(fields.field(count - 2));
    let lo = lo_at(fields, count - 1);
    Shared { ttl, time, lo }
}

// The table by kind.
ghost use Rattle.rows.specs.Rows.{IsRow};

use rules::kinds::Kind;
use rules::kinds::Meaning::{
    self, Address, HostPart, Lo, LocationLo, Long, OptionalAddress, Owner, Port, Prefix,
    RecordType, Short, Target, Text, Time, Ttl,
};

// What the table has of a kind: how many fields, a column of its own, the default ttl, and each field's meaning.
#[derive(Clone, Copy)]
pub struct Row {
    pub count: usize,
    pub ttl: u32,
    pub meanings: &'static [Meaning],
}

// A row for each kind, in the order of their numbers.
static TABLE: [Row; 13] = [
    Row {
        count: 2,
        ttl: 0,
        meanings: &[LocationLo, Prefix],
    },
    Row {
        count: 6,
        ttl: 259200,
        meanings: &[Owner, OptionalAddress, HostPart, Ttl, Time, Lo],
    },
    Row {
        count: 6,
        ttl: 259200,
        meanings: &[Owner, OptionalAddress, HostPart, Ttl, Time, Lo],
    },
    Row {
        count: 5,
        ttl: 86400,
        meanings: &[Owner, Address, Ttl, Time, Lo],
    },
    Row {
        count: 5,
        ttl: 86400,
        meanings: &[Owner, Address, Ttl, Time, Lo],
    },
    Row {
        count: 7,
        ttl: 86400,
        meanings: &[Owner, OptionalAddress, HostPart, Short, Ttl, Time, Lo],
    },
    Row {
        count: 9,
        ttl: 86400,
        meanings: &[
            Owner,
            OptionalAddress,
            HostPart,
            Port,
            Short,
            Short,
            Ttl,
            Time,
            Lo,
        ],
    },
    Row {
        count: 5,
        ttl: 86400,
        meanings: &[Owner, Text, Ttl, Time, Lo],
    },
    Row {
        count: 5,
        ttl: 86400,
        meanings: &[Owner, Target, Ttl, Time, Lo],
    },
    Row {
        count: 5,
        ttl: 86400,
        meanings: &[Owner, Target, Ttl, Time, Lo],
    },
    Row {
        count: 11,
        ttl: 2560,
        meanings: &[
            Owner, Target, Target, Long, Long, Long, Long, Long, Ttl, Time, Lo,
        ],
    },
    Row {
        count: 6,
        ttl: 86400,
        meanings: &[Owner, RecordType, Text, Ttl, Time, Lo],
    },
    Row {
        count: 0,
        ttl: 0,
        meanings: &[],
    },
];

pub fn row_of(kind: Kind) -> Row
    ensures { IsRow kind result }
{
    TABLE[kind as usize]
}

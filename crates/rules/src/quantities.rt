// Kinds of number that can't be exchanged unnoticed.
#[derive(Clone, Copy, Debug, PartialEq, Eq)]
pub struct Port(pub u16);

#[derive(Clone, Copy, Debug, PartialEq, Eq)]
pub struct Priority(pub u16);

#[derive(Clone, Copy, Debug, PartialEq, Eq)]
pub struct Weight(pub u16);

// Seconds that a record may be kept.
#[derive(Clone, Copy, Debug, PartialEq, Eq)]
pub struct Ttl(pub u32);

// A second of time, as a TAI64 number.
#[derive(Clone, Copy, Debug, PartialEq, Eq)]
pub struct Moment(pub u64);

// lo: the code of a location, two bytes; a record without one is for every client.
#[derive(Clone, Copy, Debug, PartialEq, Eq)]
pub enum Lo {
    Every,
    Code(u8, u8),
}

// What the records of one line share. Time 0 is none.
#[derive(Clone, Copy, Debug, PartialEq, Eq)]
pub struct Shared {
    pub ttl: Ttl,
    pub time: Moment,
    pub lo: Lo,
}

// The kinds of line and the meanings of fields. specs/Kinds.antt has the table.

// The kind of a line, by its first byte: % . & = + @ S ' ^ C Z : and any other.
#[derive(Clone, Copy, Debug, PartialEq, Eq)]
pub enum Kind {
    Location,
    Zone,
    Delegation,
    Host,
    Alias,
    Mail,
    Service,
    Text,
    Pointer,
    Canonical,
    Authority,
    Generic,
    Unknown,
}

// What a field is read as.
#[derive(Clone, Copy, Debug, PartialEq, Eq)]
pub enum Meaning {
    // fqdn: a name
    Owner,
    // p, mname, rname: a name that may not be empty
    Target,
    // x: a name, or a label to be completed
    HostPart,
    // ip of = and +
    Address,
    // ip of . & @ S
    OptionalAddress,
    // dist, prio, wt
    Short,
    // ser, ref, ret, exp, min
    Long,
    Port,
    // n
    RecordType,
    Ttl,
    Time,
    // lo
    Lo,
    // lo of %
    LocationLo,
    Prefix,
    // s, rdata
    Text,
}

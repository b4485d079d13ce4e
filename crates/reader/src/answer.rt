// The answer of whole records: the control name, the zone or the referral, the level, then the type and the ordinal.
ghost use Rattle.std.specs.Prelude.{◌≡◌, true, [], map, ◌<◌};
ghost use Rattle.rules.specs.Lists.{lower, is_some, value_or};
ghost use Rattle.rules.specs.Names.{is_wire};
ghost use Rattle.rules.specs.Records.{lo_bytes};
ghost use Rattle.rules.specs.Reading.{decode};
ghost use Rattle.ranks.specs.Ranks.{largest, seen_rank};
ghost use Rattle.picks.specs.Picks.{picked_from};
ghost use Rattle.ranks.specs.declared.Role.{Role};
ghost use Rattle.locate.specs.Covers.{Covers};
ghost use Rattle.reader.specs.Answers.{is_found, said, level_from, zone_from, controlled_from, answered_from};

use level::best_rank;
use locate::Part;
use picks::pick_record;
use ranks::Role;
use rules::quantities::{Lo, Moment};
use rules::replies::{Outcome, Reply, Response};

// A question to whole records, of a client who is here. Nothing outside the first part can answer, and nothing outside the second can make a
// control name.
#[derive(Clone, Copy)]
pub struct Asked<'a> {
    pub stream: &'a [u8],
    pub name: &'a [u8],
    pub qtype: u16,
    pub here: Lo,
    pub moment: Moment,
    pub level: Part,
    pub control: Part,
    ghost named: { is_wire name.now ≡ true },
    ghost whole: { is_some (decode stream.now) ≡ true },
    ghost level_covers: { Covers Role.Level (map lower name.now) stream.now level.from level.until },
    ghost control_covers: { Covers Role.Control (map lower name.now) stream.now control.from control.until },
    ghost zone_covers: { Covers Role.Zone (map lower name.now) stream.now control.from control.until },
}

fn is_found(reply: Reply) -> bool
    ensures { result ≡ is_found reply }
{
    matches!(reply, Reply::Found { .. })
}

fn say(outcome: Outcome, reply: Reply) -> Response
    ensures { result ≡ said outcome reply }
{
    Response { outcome, reply }
}

impl<'a> Asked<'a> {
    // The part that has every record of a role.
    fn part(self, role: Role) -> Part
        ensures { Covers role (map lower self.entry.name.now) self.entry.stream.now result.from result.until }
    {
        match role {
            Role::Level => self.level,
            Role::Control => self.control,
            Role::Zone => self.control,
        }
    }

    // The largest rank of the records.
    fn largest(self, role: Role) -> usize
        ensures { result ≡ largest (seen_rank role (map lower self.entry.name.now) (lo_bytes self.entry.here) self.entry.moment.0) (value_or [] (decode self.entry.stream.now)) }
    {
        let Part { from, until } = self.part(role);
        best_rank(
            &self.stream[..until],
            self.name,
            role,
            self.here,
            self.moment,
            from,
        )
    }

    // The record of this ordinal among those of a rank and a type.
    fn picked(self, qtype: u16, role: Role, best: usize, ordinal: u64) -> Reply
        requires { 0 < best }
        ensures { result ≡ picked_from qtype role (map lower self.entry.name.now) (lo_bytes self.entry.here) self.entry.moment.0 best 0 ordinal (value_or [] (decode self.entry.stream.now)) }
    {
        let Part { from, until } = self.part(role);
        pick_record(
            &self.stream[..until],
            self.name,
            qtype,
            role,
            self.here,
            self.moment,
            best,
            ordinal,
            from,
        )
    }

    // In our zone, with a level: the type, then the ordinal.
    fn in_level(self, best: usize, ordinal: u64) -> Response
        requires { 0 < best }
        ensures { result ≡ level_from self.entry.qtype (map lower self.entry.name.now) (lo_bytes self.entry.here) self.entry.moment.0 best ordinal (value_or [] (decode self.entry.stream.now)) }
    {
        let first = self.picked(self.qtype, Role::Level, best, 0);
        if !is_found(first) {
            return say(Outcome::NoSuchType, Reply::NoMore);
        }
        if ordinal == 0 {
            return say(Outcome::Records, first);
        }
        let reply = self.picked(self.qtype, Role::Level, best, ordinal);
        say(Outcome::Records, reply)
    }

    // In our zone: the level, which is no higher than the control name, whose length is known.
    fn in_zone(self, control: usize, ordinal: u64) -> Response
        requires { 0 < control }
        ensures { result ≡ zone_from self.entry.qtype (map lower self.entry.name.now) (lo_bytes self.entry.here) self.entry.moment.0 control ordinal (value_or [] (decode self.entry.stream.now)) }
    {
        let best = self.largest(Role::Level);
        if best < control {
            return say(Outcome::NoSuchName, Reply::NoMore);
        }
        self.in_level(best, ordinal)
    }

    // By the control name, whose length is known: our zone with an SOA record there, else a referral to its name servers.
    fn controlled(self, control: usize, ordinal: u64) -> Response
        requires { 0 < control }
        ensures { result ≡ controlled_from self.entry.qtype (map lower self.entry.name.now) (lo_bytes self.entry.here) self.entry.moment.0 control ordinal (value_or [] (decode self.entry.stream.now)) }
    {
        let soa = self.picked(255, Role::Zone, control, 0);
        if !is_found(soa) {
            let reply = self.picked(255, Role::Control, control, ordinal);
            return say(Outcome::Referral, reply);
        }
        self.in_zone(control, ordinal)
    }

    // The answer at this ordinal.
    pub fn answer(self, ordinal: u64) -> Response
        ensures { result ≡ answered_from self.entry.qtype (map lower self.entry.name.now) (lo_bytes self.entry.here) self.entry.moment.0 ordinal (value_or [] (decode self.entry.stream.now)) }
    {
        let control = self.largest(Role::Control);
        if control == 0 {
            return say(Outcome::NotOurs, Reply::NoMore);
        }
        self.controlled(control, ordinal)
    }
}

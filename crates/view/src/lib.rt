// What a client sees of a record at a moment.

#![tactic(auto)]

ghost use Rattle.std.specs.Prelude.{◌≡◌, ◌||◌, length, eqb};
ghost use Rattle.rules.specs.Lists.{same_bytes};
ghost use Rattle.rules.specs.Records.{lo_bytes};
ghost use Rattle.rules.specs.Questions.{in_time, visible};
ghost use Rattle.view.specs.Views.{sharing};

use rules::quantities::{Lo, Moment, Shared, Ttl};

// Whether a client who is here sees a record of this lo.
fn is_here(lo: Lo, here: Lo) -> bool
    ensures { result ≡ (eqb (length (lo_bytes lo)) 0 || same_bytes (lo_bytes lo) (lo_bytes here)) }
{
    match lo {
        Lo::Every => true,
        Lo::Code(_, _) => lo == here,
    }
}

// From its time on, or with ttl 0 before it; without a time always.
fn in_time(moment: Moment, ttl: Ttl, time: Moment) -> bool
    ensures { result ≡ in_time moment.0 ttl.0 time.0 }
{
    if time.0 == 0 {
        return true;
    }
    if ttl.0 == 0 {
        return moment.0 < time.0;
    }
    time.0 <= moment.0
}

// Whether a client who is here sees a record at a moment.
pub fn visible(here: Lo, moment: Moment, shared: Shared) -> bool
    ensures { result ≡ visible (lo_bytes here) moment.0 (sharing shared) }
{
    let lo = shared.lo;
    if !is_here(lo, here) {
        return false;
    }
    in_time(moment, shared.ttl, shared.time)
}

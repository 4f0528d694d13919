// What commands ask for, and which fields they have.
ghost use Rattle.std.specs.Prelude.{◌≡◌, ◌≤◌, length};
ghost use Rattle.event_text.specs.Kinds.{limits_of, texts_of};

use crate::limit::{DURATION, Limit, MOMENT, NOTHING, NUMBER, STATUS, SWITCH, THREE};

/// What a command asks for.
#[derive(Clone, Copy, PartialEq, Eq)]
pub(crate) enum Kind {
    HostResult,
    ServiceResult,
    Check { forced: bool },
    Acknowledge,
    Unacknowledge,
    Downtime,
    EndDowntime,
    Checks { on: bool },
    Notes { on: bool },
}

static RESULT_LIMITS: [Limit; 1] = [STATUS];

static CHECK_LIMITS: [Limit; 1] = [MOMENT];

static ACKNOWLEDGE_LIMITS: [Limit; 3] = [THREE, SWITCH, SWITCH];

static DOWNTIME_LIMITS: [Limit; 5] = [MOMENT, MOMENT, SWITCH, NOTHING, DURATION];

static END_LIMITS: [Limit; 1] = [NUMBER];

static NO_LIMITS: [Limit; 0] = [];

impl Kind {
    /// The numbers that follow the names: the status of a result; the moment of a check; of an acknowledgement whether it is
    /// sticky (2), whether it is told and whether it outlasts a restart; of a downtime its start, its end, whether it is fixed, the
    /// downtime that triggers it, which none does, and its duration; of the end of a downtime its number.
    pub(crate) fn limits(self) -> &'static [Limit]
        ensures value { result.now ≡ limits_of self }
        ensures few { length result.now ≤ 5 }
    {
        match self {
            Kind::HostResult | Kind::ServiceResult => &RESULT_LIMITS,
            Kind::Check { .. } => &CHECK_LIMITS,
            Kind::Acknowledge => &ACKNOWLEDGE_LIMITS,
            Kind::Downtime => &DOWNTIME_LIMITS,
            Kind::EndDowntime => &END_LIMITS,
            Kind::Unacknowledge | Kind::Checks { .. } | Kind::Notes { .. } => &NO_LIMITS,
        }
    }

    /// How many texts follow the numbers: the output of a result, or an author and a comment. The last takes the rest of
    /// the line with its semicolons.
    pub(crate) fn texts(self) -> usize
        ensures value { result ≡ texts_of self }
        ensures few { result ≤ 2 }
    {
        match self {
            Kind::HostResult | Kind::ServiceResult => 1,
            Kind::Acknowledge | Kind::Downtime => 2,
            Kind::Check { .. }
            | Kind::Unacknowledge
            | Kind::EndDowntime
            | Kind::Checks { .. }
            | Kind::Notes { .. } => 0,
        }
    }
}

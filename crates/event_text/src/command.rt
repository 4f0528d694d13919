// The commands.
ghost use Rattle.std.specs.Prelude.{◌≡◌, ◌≤◌};
ghost use Rattle.event_text.specs.Commands.{command_name};
ghost use Rattle.event_text.specs.Kinds.{count_of, ends_in_text as last_is_text, kind_of, names_of, names_service as has_service};

use crate::kind::Kind;

/// A command that a line gives (Icinga 2 documentation, Features, "External Commands" and "External
/// Commands List").
#[derive(Clone, Copy, PartialEq, Eq)]
pub enum Command {
    HostResult,
    ServiceResult,
    HostCheck,
    ForcedHostCheck,
    ServiceCheck,
    ForcedServiceCheck,
    AcknowledgeHost,
    AcknowledgeService,
    UnacknowledgeHost,
    UnacknowledgeService,
    HostDowntime,
    ServiceDowntime,
    EndHostDowntime,
    EndServiceDowntime,
    HostChecksOn,
    HostChecksOff,
    HostNotesOn,
    HostNotesOff,
    ServiceChecksOn,
    ServiceChecksOff,
    ServiceNotesOn,
    ServiceNotesOff,
}

/// All of them.
pub(crate) static COMMANDS: [Command; 22] = [
    Command::HostResult,
    Command::ServiceResult,
    Command::HostCheck,
    Command::ForcedHostCheck,
    Command::ServiceCheck,
    Command::ForcedServiceCheck,
    Command::AcknowledgeHost,
    Command::AcknowledgeService,
    Command::UnacknowledgeHost,
    Command::UnacknowledgeService,
    Command::HostDowntime,
    Command::ServiceDowntime,
    Command::EndHostDowntime,
    Command::EndServiceDowntime,
    Command::HostChecksOn,
    Command::HostChecksOff,
    Command::HostNotesOn,
    Command::HostNotesOff,
    Command::ServiceChecksOn,
    Command::ServiceChecksOff,
    Command::ServiceNotesOn,
    Command::ServiceNotesOff,
];

impl Command {
    /// The name by which a line gives it.
    pub fn name(self) -> &'static str
        ensures { result.now ≡ command_name self }
    {
        match self {
            Command::HostResult => "PROCESS_HOST_CHECK_RESULT",
            Command::ServiceResult => "PROCESS_SERVICE_CHECK_RESULT",
            Command::HostCheck => "SCHEDULE_HOST_CHECK",
            Command::ForcedHostCheck => "SCHEDULE_FORCED_HOST_CHECK",
            Command::ServiceCheck => "SCHEDULE_SVC_CHECK",
            Command::ForcedServiceCheck => "SCHEDULE_FORCED_SVC_CHECK",
            Command::AcknowledgeHost => "ACKNOWLEDGE_HOST_PROBLEM",
            Command::AcknowledgeService => "ACKNOWLEDGE_SVC_PROBLEM",
            Command::UnacknowledgeHost => "REMOVE_HOST_ACKNOWLEDGEMENT",
            Command::UnacknowledgeService => "REMOVE_SVC_ACKNOWLEDGEMENT",
            Command::HostDowntime => "SCHEDULE_HOST_DOWNTIME",
            Command::ServiceDowntime => "SCHEDULE_SVC_DOWNTIME",
            Command::EndHostDowntime => "DEL_HOST_DOWNTIME",
            Command::EndServiceDowntime => "DEL_SVC_DOWNTIME",
            Command::HostChecksOn => "ENABLE_HOST_CHECK",
            Command::HostChecksOff => "DISABLE_HOST_CHECK",
            Command::HostNotesOn => "ENABLE_HOST_NOTIFICATIONS",
            Command::HostNotesOff => "DISABLE_HOST_NOTIFICATIONS",
            Command::ServiceChecksOn => "ENABLE_SVC_CHECK",
            Command::ServiceChecksOff => "DISABLE_SVC_CHECK",
            Command::ServiceNotesOn => "ENABLE_SVC_NOTIFICATIONS",
            Command::ServiceNotesOff => "DISABLE_SVC_NOTIFICATIONS",
        }
    }

    /// What it asks for.
    pub(crate) fn kind(self) -> Kind
        ensures { result ≡ kind_of self }
    {
        match self {
            Command::HostResult => Kind::HostResult,
            Command::ServiceResult => Kind::ServiceResult,
            Command::HostCheck | Command::ServiceCheck => Kind::Check { forced: false },
            Command::ForcedHostCheck | Command::ForcedServiceCheck => Kind::Check { forced: true },
            Command::AcknowledgeHost | Command::AcknowledgeService => Kind::Acknowledge,
            Command::UnacknowledgeHost | Command::UnacknowledgeService => Kind::Unacknowledge,
            Command::HostDowntime | Command::ServiceDowntime => Kind::Downtime,
            Command::EndHostDowntime | Command::EndServiceDowntime => Kind::EndDowntime,
            Command::HostChecksOn | Command::ServiceChecksOn => Kind::Checks { on: true },
            Command::HostChecksOff | Command::ServiceChecksOff => Kind::Checks { on: false },
            Command::HostNotesOn | Command::ServiceNotesOn => Kind::Notes { on: true },
            Command::HostNotesOff | Command::ServiceNotesOff => Kind::Notes { on: false },
        }
    }

    /// Whether it names a service of the host.
    pub(crate) fn names_service(self) -> bool
        ensures { result ≡ has_service self }
    {
        match self {
            Command::ServiceResult
            | Command::ServiceCheck
            | Command::ForcedServiceCheck
            | Command::AcknowledgeService
            | Command::UnacknowledgeService
            | Command::ServiceDowntime
            | Command::EndServiceDowntime
            | Command::ServiceChecksOn
            | Command::ServiceChecksOff
            | Command::ServiceNotesOn
            | Command::ServiceNotesOff => true,
            Command::HostResult
            | Command::HostCheck
            | Command::ForcedHostCheck
            | Command::AcknowledgeHost
            | Command::UnacknowledgeHost
            | Command::HostDowntime
            | Command::EndHostDowntime
            | Command::HostChecksOn
            | Command::HostChecksOff
            | Command::HostNotesOn
            | Command::HostNotesOff => false,
        }
    }

    /// How many names stand first: the host's, and maybe the service's.
    pub(crate) fn names(self) -> usize
        ensures value { result ≡ names_of self }
        ensures few { result ≤ 2 }
    {
        if self.names_service() { 2 } else { 1 }
    }

    /// How many fields it has.
    pub(crate) fn count(self) -> usize
        ensures value { result ≡ count_of self }
        ensures few { result ≤ 9 }
    {
        let kind = self.kind();
        self.names() + kind.limits().len() + kind.texts()
    }

    /// Whether its last field is a text, which takes the rest of the line.
    pub(crate) fn ends_in_text(self) -> bool
        ensures { result ≡ last_is_text self }
    {
        self.kind().texts() > 0
    }
}

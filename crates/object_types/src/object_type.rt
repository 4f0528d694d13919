// The types of objects.
ghost use Rattle.std.specs.Prelude.{◌≡◌, Some, IfSome};
ghost use Rattle.object_types.specs.Names.{type_name, type_among, type_named, is_inert, wave_of};

/// A type of objects, by its name in the configuration (Icinga 2 documentation, chapter "Object Types").
#[derive(Clone, Copy, PartialEq, Eq)]
pub enum ObjectType {
    Host,
    Service,
    HostGroup,
    ServiceGroup,
    UserGroup,
    CheckCommand,
    NotificationCommand,
    EventCommand,
    User,
    Notification,
    Dependency,
    ScheduledDowntime,
    TimePeriod,
    Endpoint,
    Zone,
    CheckerComponent,
    NotificationComponent,
    FileLogger,
    SyslogLogger,
    ApiListener,
    ApiUser,
    IcingaApplication,
}

/// All of them.
static TYPES: [ObjectType; 22] = [
    ObjectType::Host,
    ObjectType::Service,
    ObjectType::HostGroup,
    ObjectType::ServiceGroup,
    ObjectType::UserGroup,
    ObjectType::CheckCommand,
    ObjectType::NotificationCommand,
    ObjectType::EventCommand,
    ObjectType::User,
    ObjectType::Notification,
    ObjectType::Dependency,
    ObjectType::ScheduledDowntime,
    ObjectType::TimePeriod,
    ObjectType::Endpoint,
    ObjectType::Zone,
    ObjectType::CheckerComponent,
    ObjectType::NotificationComponent,
    ObjectType::FileLogger,
    ObjectType::SyslogLogger,
    ObjectType::ApiListener,
    ObjectType::ApiUser,
    ObjectType::IcingaApplication,
];

impl ObjectType {
    /// The type of this name; `None` if no type has it.
    #[tactic(auto, unfolding(crate::specs::Names::type_named))]
    pub fn of_name(name: &str) -> Option<ObjectType>
        ensures value { result ≡ type_named name.now }
        ensures named { IfSome result (λ t. name.now ≡ type_name t) }
        ensures found { (t : ObjectType) → type_name t ≡ name.now → result ≡ Some t }
    {
        type_among(&TYPES, name)
    }

    /// How it is written.
    pub fn name(self) -> &'static str
        ensures { result.now ≡ type_name self }
    {
        match self {
            ObjectType::Host => "Host",
            ObjectType::Service => "Service",
            ObjectType::HostGroup => "HostGroup",
            ObjectType::ServiceGroup => "ServiceGroup",
            ObjectType::UserGroup => "UserGroup",
            ObjectType::CheckCommand => "CheckCommand",
            ObjectType::NotificationCommand => "NotificationCommand",
            ObjectType::EventCommand => "EventCommand",
            ObjectType::User => "User",
            ObjectType::Notification => "Notification",
            ObjectType::Dependency => "Dependency",
            ObjectType::ScheduledDowntime => "ScheduledDowntime",
            ObjectType::TimePeriod => "TimePeriod",
            ObjectType::Endpoint => "Endpoint",
            ObjectType::Zone => "Zone",
            ObjectType::CheckerComponent => "CheckerComponent",
            ObjectType::NotificationComponent => "NotificationComponent",
            ObjectType::FileLogger => "FileLogger",
            ObjectType::SyslogLogger => "SyslogLogger",
            ObjectType::ApiListener => "ApiListener",
            ObjectType::ApiUser => "ApiUser",
            ObjectType::IcingaApplication => "IcingaApplication",
        }
    }

    /// Whether the program knows the type by name alone: its objects may set any attribute to any value.
    pub fn is_inert(self) -> bool
        ensures { result ≡ is_inert self }
    {
        match self {
            ObjectType::Endpoint
            | ObjectType::Zone
            | ObjectType::CheckerComponent
            | ObjectType::NotificationComponent
            | ObjectType::FileLogger
            | ObjectType::SyslogLogger
            | ObjectType::ApiListener
            | ObjectType::ApiUser
            | ObjectType::IcingaApplication => true,
            _ => false,
        }
    }

    /// The wave, from 1 to 6, in which objects of the type are evaluated. They see the objects of the waves before.
    pub fn wave(self) -> u8
        ensures { result ≡ wave_of self }
    {
        match self {
            ObjectType::User | ObjectType::UserGroup => 2,
            ObjectType::HostGroup | ObjectType::ServiceGroup => 3,
            ObjectType::Host => 4,
            ObjectType::Service => 5,
            ObjectType::Dependency | ObjectType::Notification | ObjectType::ScheduledDowntime => 6,
            _ => 1,
        }
    }
}

/// The first type of these that has this name.
fn type_among(types: &[ObjectType], name: &str) -> Option<ObjectType>
    ensures { result ≡ type_among types.now name.now }
{
    for kind in types {
        if name == kind.name() {
            return Some(*kind);
        }
    }
    None
}

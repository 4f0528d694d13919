// The types of objects, as a load takes them.
ghost use Rattle.std.specs.Prelude.{◌≡◌};
ghost use Rattle.eval_meaning.specs.Registration.{types, groups, target_types, is_among};

use site_base::Text;

/// Whether a name is a type.
pub fn is_type(name: &Text) -> bool
    ensures { result ≡ is_among name.now types }
{
    matches!(
        name.as_str(),
        "Host"
            | "Service"
            | "HostGroup"
            | "ServiceGroup"
            | "UserGroup"
            | "CheckCommand"
            | "NotificationCommand"
            | "EventCommand"
            | "User"
            | "Notification"
            | "Dependency"
            | "ScheduledDowntime"
            | "TimePeriod"
            | "Endpoint"
            | "Zone"
            | "CheckerComponent"
            | "NotificationComponent"
            | "FileLogger"
            | "SyslogLogger"
            | "ApiListener"
            | "ApiUser"
            | "IcingaApplication"
    )
}

/// Whether the bodies of a type's objects take `assign` and `ignore`.
pub fn is_group(kind: &Text) -> bool
    ensures { result ≡ is_among kind.now groups }
{
    matches!(kind.as_str(), "HostGroup" | "ServiceGroup" | "UserGroup")
}

/// Whether rules of a type go to objects of another.
pub fn takes_target(kind: &Text, target: &Text) -> bool
    ensures { result ≡ is_among target.now (target_types kind.now) }
{
    match kind.as_str() {
        "Service" => target.as_str() == "Host",
        "Notification" | "Dependency" | "ScheduledDowntime" => {
            matches!(target.as_str(), "Host" | "Service")
        }
        _ => false,
    }
}

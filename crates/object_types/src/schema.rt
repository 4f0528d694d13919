// The schema: the attributes of each type.
ghost use Rattle.std.specs.Prelude.{◌≡◌, []};
ghost use Rattle.object_types.specs.Schema.{common_schema, schema_of};

use crate::{Attribute, ObjectType, SchemaRow, Unset, ValueKind};

/// Rows: an attribute, what its values are, and what holds where it isn't set.
macro_rules! rows {
    ($($attribute:ident: $kind:ident $(($of:expr))?, $unset:ident $(($value:expr))?;)*) => {
        [$(SchemaRow {
            attribute: Attribute::$attribute,
            kind: ValueKind::$kind $(($of))?,
            unset: Unset::$unset $(($value))?,
        }),*]
    };
}

/// The rows of a host or a service: its own, and those that both have.
macro_rules! checkable_rows {
    ($groups:ident; $($own:tt)*) => {
        rows! {
            $($own)*
            CheckCommand: Name(ObjectType::CheckCommand), Missing;
            DisplayName: Text, Nothing;
            Groups: Names(ObjectType::$groups), Nothing;
            MaxCheckAttempts: Count, Number(3);
            CheckInterval: PositiveSeconds, Number(300);
            RetryInterval: PositiveSeconds, Number(60);
            CheckTimeout: Seconds, Nothing;
            CheckPeriod: Name(ObjectType::TimePeriod), Nothing;
            EnableActiveChecks: Bool, Bool(true);
            EnablePassiveChecks: Bool, Bool(true);
            EnableNotifications: Bool, Bool(true);
            EnableEventHandler: Bool, Nothing;
            EnableFlapping: Bool, Bool(false);
            EnablePerfdata: Bool, Nothing;
            EventCommand: Name(ObjectType::EventCommand), Nothing;
            FlappingThresholdLow: Seconds, Number(25);
            FlappingThresholdHigh: Seconds, Number(30);
            Volatile: Bool, Bool(false);
            CommandEndpoint: Text, Nothing;
            Notes: Text, Nothing;
            NotesUrl: Text, Nothing;
            ActionUrl: Text, Nothing;
            IconImage: Text, Nothing;
            IconImageAlt: Text, Nothing;
        }
    };
}

/// What objects of every type may set that isn't inert.
pub(crate) static COMMON: [SchemaRow; 3] = rows! {
    Name: Text, Nothing;
    Zone: Text, Nothing;
    Vars: Dict, Nothing;
};

static HOST: [SchemaRow; 26] = checkable_rows! {
    HostGroup;
    Address: Text, Nothing;
    Address6: Text, Nothing;
};

static SERVICE: [SchemaRow; 25] = checkable_rows! {
    ServiceGroup;
    HostName: Name(ObjectType::Host), Missing;
};

static HOST_GROUP: [SchemaRow; 2] = rows! {
    DisplayName: Text, Nothing;
    Groups: Names(ObjectType::HostGroup), Nothing;
};

static SERVICE_GROUP: [SchemaRow; 2] = rows! {
    DisplayName: Text, Nothing;
    Groups: Names(ObjectType::ServiceGroup), Nothing;
};

static USER_GROUP: [SchemaRow; 2] = rows! {
    DisplayName: Text, Nothing;
    Groups: Names(ObjectType::UserGroup), Nothing;
};

/// Of a command that checks, notifies or handles events.
static COMMAND: [SchemaRow; 4] = rows! {
    Command: Command, Missing;
    Arguments: Dict, Nothing;
    Env: Dict, Nothing;
    Timeout: Seconds, Nothing;
};

static USER: [SchemaRow; 8] = rows! {
    DisplayName: Text, Nothing;
    Email: Text, Nothing;
    Pager: Text, Nothing;
    Groups: Names(ObjectType::UserGroup), Nothing;
    EnableNotifications: Bool, Bool(true);
    Period: Name(ObjectType::TimePeriod), Nothing;
    Types: NoteKinds, Nothing;
    States: States, Nothing;
};

static NOTIFICATION: [SchemaRow; 10] = rows! {
    HostName: Name(ObjectType::Host), Missing;
    Command: Name(ObjectType::NotificationCommand), Missing;
    ServiceName: Service(Attribute::HostName), Nothing;
    Users: Names(ObjectType::User), Nothing;
    UserGroups: Names(ObjectType::UserGroup), Nothing;
    Interval: Seconds, Number(1800);
    Period: Name(ObjectType::TimePeriod), Nothing;
    Times: Times, Nothing;
    Types: NoteKinds, Nothing;
    States: States, Nothing;
};

static DEPENDENCY: [SchemaRow; 10] = rows! {
    ChildHostName: Name(ObjectType::Host), Missing;
    ParentHostName: Name(ObjectType::Host), Missing;
    ChildServiceName: Service(Attribute::ChildHostName), Nothing;
    ParentServiceName: Service(Attribute::ParentHostName), Nothing;
    RedundancyGroup: Text, Nothing;
    DisableChecks: Bool, Bool(false);
    DisableNotifications: Bool, Bool(true);
    IgnoreSoftStates: Bool, Bool(true);
    Period: Name(ObjectType::TimePeriod), Nothing;
    States: States, GoodStates;
};

static SCHEDULED_DOWNTIME: [SchemaRow; 8] = rows! {
    HostName: Name(ObjectType::Host), Missing;
    Author: Text, Missing;
    Comment: Text, Missing;
    Ranges: Ranges, Missing;
    ServiceName: Service(Attribute::HostName), Nothing;
    Fixed: Bool, Nothing;
    Duration: Seconds, Nothing;
    ChildOptions: Text, Nothing;
};

static TIME_PERIOD: [SchemaRow; 5] = rows! {
    DisplayName: Text, Nothing;
    Ranges: Ranges, Nothing;
    Includes: Names(ObjectType::TimePeriod), Nothing;
    Excludes: Names(ObjectType::TimePeriod), Nothing;
    PreferIncludes: Bool, Bool(true);
};

impl ObjectType {
    /// The attributes of the type alone, in the order in which missing ones are told. An inert type has none.
    pub fn schema(self) -> &'static [SchemaRow]
        ensures { result.now ≡ schema_of self }
    {
        match self {
            ObjectType::Host => &HOST,
            ObjectType::Service => &SERVICE,
            ObjectType::HostGroup => &HOST_GROUP,
            ObjectType::ServiceGroup => &SERVICE_GROUP,
            ObjectType::UserGroup => &USER_GROUP,
            ObjectType::CheckCommand => &COMMAND,
            ObjectType::NotificationCommand => &COMMAND,
            ObjectType::EventCommand => &COMMAND,
            ObjectType::User => &USER,
            ObjectType::Notification => &NOTIFICATION,
            ObjectType::Dependency => &DEPENDENCY,
            ObjectType::ScheduledDowntime => &SCHEDULED_DOWNTIME,
            ObjectType::TimePeriod => &TIME_PERIOD,
            _ => &[],
        }
    }
}

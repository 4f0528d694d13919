// What is remarked of a site that can be run.
ghost use Rattle.std.specs.Prelude.{◌≡◌, ◌++◌, map, length, is_some, IfOk, OnOk};
ghost use Rattle.std.specs.Arc.{arc_value};
ghost use Rattle.std.specs.List.{filter};
ghost use Rattle.site_base.specs.View.{view};
ghost use Rattle.object_values.specs.Attributes.{set_value};
ghost use Rattle.site_model.specs.PlainSite.{object_view, site_view};
ghost use Rattle.site_phases.specs.Phases.{answer_view};
ghost use Rattle.site_replies.specs.Remarks.{asks as object_asks, checkable_sets as sets_of_checkable, command_sets as sets_of_command, idle_remark, is_asking, is_listed_of, is_of as object_is_of, lack_remarks, lacks_remarked, remarks_in, remarks_of as remarks_for, sets as object_sets, zone_remarks};

use object_types::{Attribute, ObjectType};
use object_values::Attributes;
use site_base::{OutOfMemory, Place, Text, Tree};
use site_model::{Object, Site};
use site_phases::Answer;
use std::alloc::Global;
use std::fmt;
use std::fmt::{Display, Formatter, Write};

/// What objects may ask for that the program doesn't do.
#[derive(Clone, Copy)]
pub enum Lack {
    /// `env` of a command.
    Environment,
    /// `timeout` of a command.
    Timeout,
    /// `check_timeout` of a host or service.
    CheckTimeout,
    /// `command_endpoint` of a host or service.
    CommandEndpoint,
    /// `event_command` of a host or service.
    EventCommand,
    /// A `NotificationCommand`.
    NotificationCommand,
    /// A `ScheduledDowntime`, if downtimes don't recur.
    ScheduledDowntime,
}

/// What it never does, in the order in which it is remarked.
const LACKS: [Lack; 6] = [
    Lack::Environment,
    Lack::Timeout,
    Lack::CheckTimeout,
    Lack::CommandEndpoint,
    Lack::EventCommand,
    Lack::NotificationCommand,
];

/// What it does if downtimes recur.
const WITHOUT_RECUR: [Lack; 1] = [Lack::ScheduledDowntime];

/// What is remarked of a site.
#[derive(Drop)]
pub enum Remark {
    /// So many objects ask for what the program doesn't do.
    Lack { lack: Lack, objects: u64 },
    /// So many time periods are taken in UTC, since the site names no zone.
    InUtc { periods: u64 },
    /// An `apply` rule makes no object.
    IdleRule { file: Text, line: u32, col: u32 },
}

/// What is remarked of what a configuration comes to, whose apply rules at these places make no object; nothing if there is no site.
///
/// For each lack of the program how many objects ask for it, if some do, with `ScheduledDowntime` only if downtimes don't recur; how many
/// time periods there are, if there are some and no zone; and each of those rules. Objects of the built-in library aren't counted.
pub fn remarks_of(
    alloc: Global,
    recur: bool,
    answer: &Answer,
    idle: &[Place],
) -> Result<Vec<Remark>, OutOfMemory>
    ensures { IfOk result (λ remarks. remarks.items ≡ remarks_for recur (answer_view answer.now) idle.now) }
{
    match answer {
        Answer::Site(site) => site_remarks(alloc, recur, site, idle),
        Answer::Diags { .. } => Ok(Vec::new(alloc)),
    }
}

fn site_remarks(
    alloc: Global,
    recur: bool,
    site: &Site,
    idle: &[Place],
) -> Result<Vec<Remark>, OutOfMemory>
    ensures { IfOk result (λ remarks. remarks.items ≡ remarks_in recur (site_view site.now) idle.now) }
{
    let mut remarks = Vec::new(alloc);
    push_lacks(&mut remarks, recur, site.objects.as_slice())?;
    push_zone(&mut remarks, site)?;
    push_idle(alloc, &mut remarks, site.files.as_slice(), idle)?;
    Ok(remarks)
}

/// Adds each lack that some object asks for.
fn push_lacks(remarks: &mut Vec<Remark>, recur: bool, objects: &[Object]) -> Result<(), OutOfMemory>
    ensures { OnOk result (remarks.new.items ≡ remarks.old.items ++ lack_remarks recur (map object_view objects.now)) }
{
    push_those(remarks, &LACKS, objects)?;
    if recur {
        return Ok(());
    }
    push_those(remarks, &WITHOUT_RECUR, objects)
}

/// Adds each of these lacks that some object asks for.
fn push_those(
    remarks: &mut Vec<Remark>,
    lacks: &[Lack],
    objects: &[Object],
) -> Result<(), OutOfMemory>
    ensures { OnOk result (remarks.new.items ≡ remarks.old.items ++ lacks_remarked lacks.now (map object_view objects.now)) }
{
    for lack in lacks {
        let count = asking(*lack, objects);
        if count != 0 {
            remarks.push(Remark::Lack {
                lack: *lack,
                objects: count,
            })?;
        }
    }
    Ok(())
}

/// How many objects ask for something.
fn asking(lack: Lack, objects: &[Object]) -> u64
    ensures { result ≡ length (filter (is_asking lack) (map object_view objects.now)) }
{
    let mut count = 0;
    for object in objects {
        if !object.builtin && asks(lack, object) {
            count += 1;
        }
    }
    count
}

fn asks(lack: Lack, object: &Object) -> bool
    ensures { result ≡ object_asks lack (object_view object.now) }
{
    match lack {
        Lack::Environment => command_sets(Attribute::Env, object),
        Lack::Timeout => command_sets(Attribute::Timeout, object),
        Lack::CheckTimeout => checkable_sets(Attribute::CheckTimeout, object),
        Lack::CommandEndpoint => checkable_sets(Attribute::CommandEndpoint, object),
        Lack::EventCommand => checkable_sets(Attribute::EventCommand, object),
        Lack::NotificationCommand => is_of(ObjectType::NotificationCommand, object),
        Lack::ScheduledDowntime => is_of(ObjectType::ScheduledDowntime, object),
    }
}

fn checkable_sets(attribute: Attribute, object: &Object) -> bool
    ensures { result ≡ sets_of_checkable attribute (object_view object.now) }
{
    sets(ObjectType::Host, attribute, object) || sets(ObjectType::Service, attribute, object)
}

fn command_sets(attribute: Attribute, object: &Object) -> bool
    ensures { result ≡ sets_of_command attribute (object_view object.now) }
{
    sets(ObjectType::CheckCommand, attribute, object)
        || sets(ObjectType::NotificationCommand, attribute, object)
        || sets(ObjectType::EventCommand, attribute, object)
}

/// Whether an object is of a type and sets an attribute.
fn sets(kind: ObjectType, attribute: Attribute, object: &Object) -> bool
    ensures { result ≡ object_sets kind attribute (object_view object.now) }
{
    is_of(kind, object) && is_set(kind, attribute, object)
}

fn is_of(kind: ObjectType, object: &Object) -> bool
    ensures { result ≡ object_is_of kind (object_view object.now) }
{
    object.kind.as_str() == kind.name()
}

fn is_set(kind: ObjectType, attribute: Attribute, object: &Object) -> bool
    ensures { result ≡ is_some (set_value kind attribute (view (arc_value object.now.tree))) }
{
    let tree: &Tree = &object.tree;
    Attributes { kind, tree }.set(attribute).is_some()
}

/// Adds how many time periods there are, if the site names no zone.
fn push_zone(remarks: &mut Vec<Remark>, site: &Site) -> Result<(), OutOfMemory>
    ensures { OnOk result (remarks.new.items ≡ remarks.old.items ++ zone_remarks (site_view site.now)) }
{
    if site.zone.is_some() {
        return Ok(());
    }
    let periods = listed_of(ObjectType::TimePeriod, site.objects.as_slice());
    if periods != 0 {
        remarks.push(Remark::InUtc { periods })?;
    }
    Ok(())
}

/// How many objects there are of a type.
fn listed_of(kind: ObjectType, objects: &[Object]) -> u64
    ensures { result ≡ length (filter (is_listed_of kind) (map object_view objects.now)) }
{
    let mut count = 0;
    for object in objects {
        if !object.builtin && is_of(kind, object) {
            count += 1;
        }
    }
    count
}

/// Adds each of the rules at these places.
fn push_idle(
    alloc: Global,
    remarks: &mut Vec<Remark>,
    files: &[Text],
    idle: &[Place],
) -> Result<(), OutOfMemory>
    ensures { OnOk result (remarks.new.items ≡ remarks.old.items ++ map (idle_remark files.now) idle.now) }
{
    for place in idle {
        remarks.push(idle_rule(alloc, files, *place)?)?;
    }
    Ok(())
}

/// The name of a file is empty if there is none.
fn idle_rule(alloc: Global, files: &[Text], place: Place) -> Result<Remark, OutOfMemory>
    ensures { IfOk result (λ remark. remark ≡ idle_remark files.now place) }
{
    let file = match files.get(place.file as usize) {
        Some(name) => name.clone()?,
        None => Text::new(alloc),
    };
    Ok(Remark::IdleRule {
        file,
        line: place.line,
        col: place.col,
    })
}

impl Display for Remark {
    /// Writes what is remarked, without a newline.
    fn fmt<W: Write>(&self, f: &mut Formatter<W>) -> fmt::Result {
        match self {
            Remark::Lack { lack, objects } => write!(f, "{objects} {}", words_of(*lack)),
            Remark::InUtc { periods } => write!(
                f,
                "{periods} TimePeriod objects are taken in UTC, since SiteZone isn't set"
            ),
            Remark::IdleRule { file, line, col } => write!(
                f,
                "{}:{line}:{col}: this apply rule makes no object",
                file.as_str()
            ),
        }
    }
}

/// What follows the number of the objects.
fn words_of(lack: Lack) -> &'static str {
    match lack {
        Lack::Environment => "commands set env, which no check is given",
        Lack::Timeout => "commands set timeout, which ends none of them",
        Lack::CheckTimeout => "hosts and services set check_timeout, which ends no check",
        Lack::CommandEndpoint => {
            "hosts and services set command_endpoint, but their checks run here"
        }
        Lack::EventCommand => "hosts and services set event_command, which is never run",
        Lack::NotificationCommand => {
            "NotificationCommand objects are never run: the log alone tells who is notified"
        }
        Lack::ScheduledDowntime => "ScheduledDowntime objects do nothing without --recur",
    }
}

// What a load registers.
ghost use Rattle.std.specs.Prelude.{◌≡◌, ◌++◌, IfOk, OnOk, [], ◌∷◌, Some, None, option_map};
ghost use Rattle.std.specs.Arc.{arc_value};
ghost use Rattle.dsl_syntax.specs.SyntaxView.{block_view, stmts_view, maybe_each_view};
ghost use Rattle.dsl_value.specs.Pairs.{find};
ghost use Rattle.eval_meaning.specs.States.{gives};
ghost use Rattle.eval_meaning.specs.Registration.{constant_set, is_fixed as fixed_in, loading, with_loading, with_constant, lawful, item_registered, template_registered, lawful_rule, rule_registered, name_by, prefix_by, next_number as number_next, resolved_target as target_resolved, condition_in as first_condition, has_assign as assign_in, is_good_name as name_is_good, is_of_library as of_library, file_of, name_of_file, place_text, first_one as one_first};
ghost use Rattle.eval_meaning.specs.declared.flow.Flow.TheVariants.{On};
ghost use Rattle.eval_work.specs.Works.{state_of, view_of, plain_loading, plain_template, placed_name, Gives, IsFaultUnlessMemory};
ghost use Rattle.eval_work.specs.Kept.{Named, PairsNamed, IsFit, IsStill};

use crate::types::{is_group, is_type, takes_target};
use dsl_syntax::{Block, Each, Stmt, StmtKind};
use dsl_value::Value;
use eval_work::{Item, Loading, Locals, Rule, Stop, Task, Template, Work, WorldView, fault};
use name_work::{named_fault, put_member};
use site_base::{DiagKind, ItemNo, OutOfMemory, Place, TargetNo, Text, Tree, push_quoted};
use std::alloc::Global;
use std::sync::Arc;

/// Sets a constant.
pub fn set_constant(work: &mut Work, place: Place, name: &Text, value: Value) -> Result<(), Stop>
    requires fit { IsFit work.old }
    requires value { Named work.old.store value }
    ensures gives { Gives (λ _. On) result (state_of work.new) (constant_set place name.now value (state_of work.old)) }
    ensures kept { IfOk result (λ _. IsStill work.old work.new) }
{
    if is_fixed(work, name) {
        return Err(fault(work.alloc, place, DiagKind::ConstSet));
    }
    let key = Value::Str(name.clone()?);
    put_member(work, place, &Value::Ref(0), &key, value)?;
    add_constant(work, name)
}

fn is_fixed(work: &Work, name: &Text) -> bool
    ensures { result ≡ fixed_in (find name.now (loading (state_of work.now)).constants) }
{
    match &work.task {
        Task::Load(load) => {
            matches!(load.constants.get(name.as_str()), Some(Value::Bool(false)))
        }
        _ => false,
    }
}

fn add_constant(work: &mut Work, name: &Text) -> Result<(), Stop>
    requires { IsFit work.old }
    ensures gives { Gives (λ _. On) result (state_of work.new) (gives On (with_loading (with_constant name.now) (state_of work.old))) }
    ensures kept { IfOk result (λ _. IsStill work.old work.new) }
{
    if let Task::Load(load) = &mut work.task {
        load.constants.put(name, Value::Bool(false))?;
    }
    Ok(())
}

/// Registers an object.
#[tactic(auto, using(crate::proofs::Registrations::items_more))]
pub fn add_item(
    work: &mut Work,
    view: &WorldView,
    place: Place,
    kind: &Text,
    name: Text,
    captured: Locals,
    body: &Arc<Block>,
) -> Result<(), Stop>
    requires fit { IsFit work.old }
    requires captured { PairsNamed work.old.store captured }
    ensures gives { Gives (λ _. On) result (state_of work.new) (item_registered (view_of view.now) place kind.now name captured (block_view (arc_value body.now)) (state_of work.old)) }
    ensures kept { IfOk result (λ _. IsStill work.old work.new) }
{
    check_block(work, place, kind, body)?;
    let mut presets = Vec::new(work.alloc);
    presets.push((Text::copy_of(work.alloc, "name")?, Tree::Str(name.clone()?)))?;
    let names = Vec::new(work.alloc);
    let builtin = is_of_library(view, place);
    match &mut work.task {
        Task::Load(load) => {
            let item = Item {
                number: next_number(load)?,
                kind: kind.clone()?,
                name,
                place,
                presets,
                names,
                captured: captured.into_vec()?,
                body: body.clone()?,
                builtin,
            };
            Ok(load.items.push(item)?)
        }
        Task::Item { .. } => Ok(()),
        Task::Rule => Ok(()),
    }
}

/// Registers a template. A second one of a type and a name is a fault.
#[tactic(auto, using(crate::proofs::Registrations::templates_more))]
pub fn add_template(
    work: &mut Work,
    view: &WorldView,
    place: Place,
    kind: &Text,
    name: Text,
    captured: Locals,
    body: &Arc<Block>,
) -> Result<(), Stop>
    requires fit { IsFit work.old }
    requires captured { PairsNamed work.old.store captured }
    ensures gives { Gives (λ _. On) result (state_of work.new) (template_registered (view_of view.now) place kind.now name captured (block_view (arc_value body.now)) (state_of work.old)) }
    ensures kept { IfOk result (λ _. IsStill work.old work.new) }
{
    check_block(work, place, kind, body)?;
    match &mut work.task {
        Task::Load(load) => {
            if let Some(first) = load.templates.find(kind.as_str(), name.as_str()) {
                return Err(duplicate(view, place, first));
            }
            let template = Template {
                kind: kind.clone()?,
                name,
                place,
                captured: captured.into_vec()?,
                body: body.clone()?,
            };
            Ok(load.templates.add(template)?)
        }
        Task::Item { .. } => Ok(()),
        Task::Rule => Ok(()),
    }
}

/// Registers a rule.
#[tactic(auto, using(crate::proofs::Registrations::rules_more))]
pub fn add_rule(
    work: &mut Work,
    place: Place,
    kind: &Text,
    name: Option<(Text, Place)>,
    to: &Option<Text>,
    each: &Option<Arc<Each>>,
    captured: Locals,
    body: &Arc<Block>,
) -> Result<(), Stop>
    requires fit { IsFit work.old }
    requires captured { PairsNamed work.old.store captured }
    ensures gives { Gives (λ _. On) result (state_of work.new) (rule_registered place kind.now (option_map placed_name name) to.now (maybe_each_view each.now) captured (block_view (arc_value body.now)) (state_of work.old)) }
    ensures kept { IfOk result (λ _. IsStill work.old work.new) }
{
    let target = resolved_target(work.alloc, kind, to)?;
    check_applied(work, place, kind, &target, to, each, body)?;
    let each = shared_loop(each)?;
    match &mut work.task {
        Task::Load(load) => {
            let rule = Rule {
                number: next_number(load)?,
                place,
                kind: kind.clone()?,
                name,
                target,
                each,
                captured: captured.into_vec()?,
                body: body.clone()?,
            };
            Ok(load.rules.push(rule)?)
        }
        Task::Item { .. } => Ok(()),
        Task::Rule => Ok(()),
    }
}

/// The body of an object or a template is lawful.
fn check_block(work: &Work, place: Place, kind: &Text, body: &Block) -> Result<(), Stop>
    ensures { Gives (λ _. tt) result (state_of work.now) (lawful place kind.now (block_view body.now) (state_of work.now)) }
{
    check_body(work, place, kind, &body.statements)
}

/// The body of a rule is lawful.
fn check_applied(
    work: &Work,
    place: Place,
    kind: &Text,
    target: &Text,
    to: &Option<Text>,
    each: &Option<Arc<Each>>,
    body: &Block,
) -> Result<(), Stop>
    requires { target.now ≡ target_resolved kind.now to.now }
    ensures { Gives (λ _. tt) result (state_of work.now) (lawful_rule place kind.now to.now (maybe_each_view each.now) (block_view body.now) (state_of work.now)) }
{
    check_rule(work, place, kind, target, to, each, &body.statements)
}

/// The type is one, and conditions stand only if its objects take them.
#[tactic(auto, unfolding(eval_meaning::specs::Registration::lawful))]
fn check_body(work: &Work, place: Place, kind: &Text, body: &[Stmt]) -> Result<(), Stop>
    ensures { Gives (λ _. tt) result (state_of work.now) (lawful place kind.now (stmts_view body.now) (state_of work.now)) }
{
    if !is_type(kind) {
        return Err(named_fault(work.alloc, place, DiagKind::UnknownType, kind));
    }
    if is_group(kind) {
        return Ok(());
    }
    match condition_in(body) {
        Some(at) => Err(fault(work.alloc, at, DiagKind::NotHere)),
        None => Ok(()),
    }
}

/// The type is one, its rules go to the target, and there is an `assign` or a loop.
#[tactic(auto, unfolding(eval_meaning::specs::Registration::lawful_rule))]
fn check_rule(
    work: &Work,
    place: Place,
    kind: &Text,
    target: &Text,
    to: &Option<Text>,
    each: &Option<Arc<Each>>,
    body: &[Stmt],
) -> Result<(), Stop>
    requires { target.now ≡ target_resolved kind.now to.now }
    ensures { Gives (λ _. tt) result (state_of work.now) (lawful_rule place kind.now to.now (maybe_each_view each.now) (stmts_view body.now) (state_of work.now)) }
{
    if !is_type(kind) {
        return Err(named_fault(work.alloc, place, DiagKind::UnknownType, kind));
    }
    if !takes_target(kind, target) {
        let told = match to {
            Some(to) => to,
            None => kind,
        };
        return Err(named_fault(work.alloc, place, DiagKind::BadTarget, told));
    }
    if has_assign(body) || each.is_some() {
        Ok(())
    } else {
        Err(fault(work.alloc, place, DiagKind::NoAssign))
    }
}

/// The name of an object or a template.
pub fn object_name(work: &Work, place: Place, value: Value) -> Result<Text, Stop>
    ensures { Gives (λ n. n) result (state_of work.now) (name_by place value (state_of work.now)) }
{
    match value {
        Value::Str(name) => {
            if is_good_name(&name) {
                Ok(name)
            } else {
                Err(named_fault(work.alloc, place, DiagKind::BadName, &name))
            }
        }
        _ => Err(fault(work.alloc, place, DiagKind::BadName)),
    }
}

/// The name of a rule.
pub fn rule_name(work: &Work, place: Place, value: Value) -> Result<Option<(Text, Place)>, Stop>
    ensures { Gives (option_map placed_name) result (state_of work.now) (prefix_by place value (state_of work.now)) }
{
    match value {
        Value::Str(name) => Ok(Some((name, place))),
        _ => Err(fault(work.alloc, place, DiagKind::BadName)),
    }
}

/// Items and rules are numbered together, from 1. More than 4,294,967,295 of them are want of memory.
fn next_number(load: &Loading) -> Result<ItemNo, OutOfMemory>
    ensures { IfOk result (λ n. n ≡ number_next (plain_loading load.now)) }
{
    let Ok(item) = u32::try_from(1 + load.items.len() as u64 + load.rules.len() as u64) else {
        return Err(OutOfMemory);
    };
    Ok(ItemNo {
        item,
        target: TargetNo {
            item: 0,
            host: 0,
            key: 0,
        },
        key: 0,
    })
}

/// The target of a rule. A rule of services goes to hosts where it doesn't say so.
fn resolved_target(alloc: Global, kind: &Text, to: &Option<Text>) -> Result<Text, OutOfMemory>
    ensures { IfOk result (λ t. t ≡ target_resolved kind.now to.now) }
{
    match to {
        Some(to) => Ok(to.clone()?),
        None => {
            if kind.as_str() == "Service" {
                Text::copy_of(alloc, "Host")
            } else {
                Ok(Text::new(alloc))
            }
        }
    }
}

/// The first `assign` or `ignore` of a body.
fn condition_in(body: &[Stmt]) -> Option<Place>
    ensures { result ≡ first_condition (stmts_view body.now) }
{
    for statement in body {
        match &statement.kind {
            StmtKind::Assign { .. } | StmtKind::Ignore { .. } => return Some(statement.place),
            _ => {}
        }
    }
    None
}

/// Whether some `assign` stands in a body.
pub fn has_assign(body: &[Stmt]) -> bool
    ensures { result ≡ assign_in (stmts_view body.now) }
{
    for statement in body {
        if let StmtKind::Assign { .. } = &statement.kind {
            return true;
        }
    }
    false
}

/// A name isn't empty, and has neither a `!` nor a byte below 32.
pub fn is_good_name(name: &Text) -> bool
    ensures { result ≡ name_is_good name.now }
{
    !name.is_empty()
        && !name
            .as_bytes()
            .iter()
            .any(|byte| *byte < 32 || *byte == b'!')
}

fn is_of_library(view: &WorldView, place: Place) -> bool
    ensures { result ≡ of_library (file_of (view_of view.now) place) }
{
    match view.files.get(place.file as usize) {
        Some(file) => file.builtin,
        None => false,
    }
}

/// The fault of a second template: type, name and place of the first.
fn duplicate(view: &WorldView, place: Place, first: &Template) -> Stop
    ensures { IsFaultUnlessMemory result place DiagKind.Duplicate (one_first (view_of view.now) (plain_template first.now)) }
{
    match first_one(view, first) {
        Ok(text) => Stop::Fault {
            place,
            kind: DiagKind::Duplicate,
            text,
        },
        Err(_) => Stop::Memory,
    }
}

#[tactic(auto, using(std::proofs::Common::append_assoc))]
fn first_one(view: &WorldView, first: &Template) -> Result<Text, OutOfMemory>
    ensures { IfOk result (λ t. t ≡ one_first (view_of view.now) (plain_template first.now)) }
{
    let mut text = first.kind.clone()?;
    text.push(' ')?;
    push_quoted(&mut text, first.name.as_str())?;
    text.push(' ')?;
    push_place(&mut text, view, first.place)?;
    Ok(text)
}

/// Adds a place as it is printed.
#[tactic(auto, using(std::proofs::Common::append_assoc))]
fn push_place(out: &mut Text, view: &WorldView, place: Place) -> Result<(), OutOfMemory>
    ensures { OnOk result (out.new ≡ out.old ++ place_text (view_of view.now) place) }
{
    out.push_str(file_name(view, place))?;
    out.push(':')?;
    out.push_decimal(u64::from(place.line))?;
    out.push(':')?;
    out.push_decimal(u64::from(place.col))
}

/// The name of the file in which something stands.
fn file_name<'a>(view: &'a WorldView, place: Place) -> &'a str
    ensures { result.now ≡ name_of_file (file_of (view_of view.now) place) }
{
    match view.files.get(place.file as usize) {
        Some(file) => file.name.as_str(),
        None => "",
    }
}

fn shared_loop(each: &Option<Arc<Each>>) -> Result<Option<Arc<Each>>, OutOfMemory>
    ensures { IfOk result (λ e. maybe_each_view e ≡ maybe_each_view each.now) }
{
    match each {
        Some(each) => Ok(Some(each.clone()?)),
        None => Ok(None),
    }
}

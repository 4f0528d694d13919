// Names whose values were made once.
ghost use Rattle.std.specs.Prelude.{◌≡◌, IfOk, IfErr, OnOk};
ghost use Rattle.dsl_syntax.specs.SyntaxView.{expr_view};
ghost use Rattle.dsl_value.specs.PlainStores.{plain_store};
ghost use Rattle.eval_meaning.specs.Evaluation.{value_of};
ghost use Rattle.eval_meaning.specs.Load.{most_open};
ghost use Rattle.eval_meaning.specs.States.{rule as plain_rule_task};
ghost use Rattle.eval_work.specs.Kept.{HasGlobals, IsKept, IsTold, PairsNamed};
ghost use Rattle.eval_work.specs.Works.{state_of, view_of, Gives};
ghost use Rattle.commit_meaning.specs.Rules.{in_rule};
ghost use Rattle.commit_meaning.specs.Starts.{fresh};
ghost use Rattle.item_start.specs.Ready.{IsReady};
ghost use Rattle.rule_expressions.specs.Preparations.{IsPrepared};

use crate::{Subject, bind_subject};
use dsl_eval::eval_expr;
use dsl_syntax::Expr;
use dsl_value::{Store, Value};
use eval_meaning::Read;
use eval_work::{Locals, Stop, Task, Work, WorldView};
use item_start::{begin, enter_frame};
use site_base::{OutOfMemory, Text};
use std::alloc::Global;
use std::mem;

/// A subject, its names with their values, and the store that has these behind the load's cells. Each evaluation works on a fork
/// of it.
#[derive(Drop)]
pub struct Prepared<'a> {
    pub subject: Subject<'a>,
    pub store: Store,
    pub bound: Vec<(Text, Value)>,
}

/// Makes the values of a subject's names, in a fork of a store.
pub fn prepare<'a>(
    alloc: Global,
    store: &Store,
    subject: Subject<'a>,
) -> Result<Prepared<'a>, OutOfMemory>
    requires { HasGlobals store.now }
    ensures prepared { IfOk result (IsPrepared store.now) }
    ensures subject { IfOk result (λ p. p.subject ≡ subject.entry) }
{
    let mut store = store.fork()?;
    let mut bound = Vec::new(alloc);
    bind_subject(alloc, &mut store, &mut bound, &subject)?;
    Ok(Prepared {
        subject,
        store,
        bound,
    })
}

/// The same, for many forks: what is added to one of them copies none of those values.
pub fn prepare_for_many<'a>(
    alloc: Global,
    store: &Store,
    subject: Subject<'a>,
) -> Result<Prepared<'a>, OutOfMemory>
    requires { HasGlobals store.now }
    ensures prepared { IfOk result (IsPrepared store.now) }
    ensures subject { IfOk result (λ p. p.subject ≡ subject.entry) }
{
    let mut prepared = prepare(alloc, store, subject)?;
    prepared.store.lend();
    Ok(prepared)
}

/// The work on which expressions are evaluated: in a fork of the prepared store, with a whole budget, in the frame in which what was
/// captured and the prepared names are locals. So much was read before. The locals take the memory of the spare ones.
pub fn begin_expressions(
    alloc: Global,
    view: &WorldView,
    prepared: &Prepared,
    captured: &[(Text, Value)],
    reads: Vec<Read>,
    spare: &mut Locals,
) -> Result<Work, Stop>
    requires told { IsTold view.now prepared.now.store }
    requires globals { HasGlobals prepared.now.store }
    requires captured { PairsNamed prepared.now.store captured.now }
    requires bound { PairsNamed prepared.now.store prepared.now.bound.items }
    ensures state { IfOk result (λ w. state_of w ≡ in_rule captured.now prepared.now.bound.items (fresh (plain_store prepared.now.store) plain_rule_task reads.items)) }
    ensures ready { IfOk result (IsReady view.now) }
    ensures task { IfOk result (λ w. w.task ≡ Task.Rule) }
    ensures store { IfOk result (λ w. w.store ≡ prepared.now.store) }
    ensures memory { IfErr result (λ e. e ≡ Stop.Memory) }
{
    let store = prepared.store.fork()?;
    let mut work = begin(alloc, store, Task::Rule, reads);
    work.locals = mem::replace(spare, Locals::new(alloc)).cleared();
    enter_frame(&mut work, Value::Null, captured, &prepared.bound)?;
    Ok(work)
}

/// The value of an expression.
pub(crate) fn evaluate(view: &WorldView, expr: &Expr, work: &mut Work) -> Result<Value, Stop>
    requires { IsReady view.now work.old }
    ensures gives { Gives (λ v. v) result (state_of work.new) (value_of (view_of view.now) most_open (expr_view expr.now) (state_of work.old)) }
    ensures kept { IfOk result (IsKept work.old work.new) }
    ensures ready { OnOk result (IsReady view.now work.new) }
    ensures task { work.old.task ≡ Task.Rule → OnOk result (work.new.task ≡ Task.Rule) }
{
    eval_expr(view, work, expr)
}

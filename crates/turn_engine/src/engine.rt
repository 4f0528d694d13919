// The engine.
ghost use Rattle.std.specs.Prelude.{◌≡◌, ◌<◌, ◌≤◌, ◌-◌, ◌^◌, [], List, Bool, true, false, length, All, IfOk, IfSome, OnOk, OnErr, MatchOption};
ghost use Rattle.site_model.specs.PlainSite.{site_view};
ghost use Rattle.site_model.specs.Sound.{IsSound};
ghost use Rattle.depend_graph.specs.Cycles.{IsOnCycle};
ghost use Rattle.run_meaning.specs.Runs.{IsTurn, no_entries, stage_after, start};
ghost use Rattle.run_meaning.specs.Turns.{Begun};
ghost use Rattle.time_range.specs.Zone.{IsBadFile, IsTableOf};
ghost use Rattle.site_posts.specs.Books.{AreBooks, histories_of};
ghost use Rattle.turn_engine.specs.Stages.{Tells, TellsTurn, basis_of_run, log_alone, stage_from, stage_of, turn_as_read};
ghost use Rattle.turn_engine.specs.Checkables.{AreOf};
ghost use Rattle.turn_engine.specs.Ready.{IsZoneOf};
ghost use Rattle.turn_engine.specs.Told.{IsNoTurn, IsOnlyTurn};

use crate::books::books_of;
use crate::given::take_given;
use crate::moments::greatest_moment_of;
use crate::state::EngineState;
use crate::turn_out::TurnOut;
use crate::turns::{take_alone, take_by_many};
use check_plan::CheckPlan;
use checkable_core::Checkable;
use depend_graph::Graph;
use lasting_problems::Problems;
use post_turn::Gate;
use round_check::Told;
use site_base::{Moment, OutOfMemory};
use site_edge::Turn;
use site_model::Site;
use std::alloc::Global;
use std::marker::Model;
use std::sync::Wait;
use std::thread::Threads;
use time_range::Zone;

/// The engine of a run. Clauses see its site with its zone, and how far the run has come, and whether the engine is spent:
/// want of memory may leave a turn half taken.
#[derive(Drop)]
pub struct Engine {
    state: EngineState,
    spent: bool,
}

impl Model for Engine {
    ghost use Rattle.std.specs.Coded.{codes};
    ghost use Rattle.std.specs.Prelude.{◌≡◌, false};
    ghost use Rattle.site_base.specs.contracts.tree.Tree as tree;
    ghost use Rattle.turn_engine.specs.Ready.{EngineView, IsReady, running};

    ghost Value = { EngineView };

    ghost coded = { Prim.hlevel (codes, tree.the_row.coded) };

    ghost view = { λ e. record { run = running e.state; spent = e.spent } };

    ghost invariant = { λ e. e.spent ≡ false → IsReady e.state };
}

impl Engine {
    /// The engine of a site before its first turn. The site is sound and has no dependency on a cycle, and its zone, if it has one, is a file
    /// that the reader of `jiff` takes; every site that a configuration gives is such a one.
    ///
    /// # Errors
    ///
    /// `OutOfMemory` if there is too little memory for what is kept of the site.
    pub fn new(alloc: Global, site: Site) -> Result<Engine, OutOfMemory>
        requires sound { IsSound (site_view site) }
        requires few { length (site_view site).checkables < 2 ^ 32 - 1 }
        requires free { All (λ d. IsOnCycle (site_view site) d → ⊥) (site_view site).depends }
        requires zone { MatchOption (site_view site).zone (Unit {0}) (λ bytes. IsBadFile bytes → ⊥) }
        ensures site { IfOk result (λ e. e.run.site ≡ site) }
        ensures zone { IfOk result (λ e. IsZoneOf (site_view site).zone e.run.zone) }
        ensures start { IfOk result (λ e. stage_of e.run [] ≡ start (site_view site) (no_entries (site_view site))) }
        ensures fresh { IfOk result (λ e. e.spent ≡ false) }
    {
        let books = books_of(alloc, &site)?;
        Engine::resume(alloc, site, books)
    }

    /// The engine of a site whose checkables have entries already, before its first turn: its moment is the greatest of theirs, no check is
    /// ordered, and each is due. The site is one that `new` takes, and there is one checkable for each of its indices.
    ///
    /// It takes a time that grows with the site.
    ///
    /// # Errors
    ///
    /// `OutOfMemory` if there is too little memory for what is kept of the site.
    pub fn resume(alloc: Global, site: Site, books: Vec<Checkable>) -> Result<Engine, OutOfMemory>
        requires sound { IsSound (site_view site) }
        requires few { length (site_view site).checkables < 2 ^ 32 - 1 }
        requires free { All (λ d. IsOnCycle (site_view site) d → ⊥) (site_view site).depends }
        requires zone { MatchOption (site_view site).zone (Unit {0}) (λ bytes. IsBadFile bytes → ⊥) }
        requires books { AreOf (site_view site) books.items }
        ensures site { IfOk result (λ e. e.run.site ≡ site) }
        ensures zone { IfOk result (λ e. IsZoneOf (site_view site).zone e.run.zone) }
        ensures start { IfOk result (λ e. stage_of e.run [] ≡ start (site_view site) (histories_of books.items)) }
        ensures fresh { IfOk result (λ e. e.spent ≡ false) }
    {
        let Ok(graph) = Graph::build(alloc, &site) else {
            return Err(OutOfMemory);
        };
        let zone = zone_of(alloc, &site)?;
        let plan = CheckPlan::new(alloc, site.checkables.len() as u32)?;
        let problems = Problems::of(alloc, books.as_slice())?;
        let moment = greatest_moment_of(books.as_slice());
        Ok(Engine {
            state: EngineState {
                alloc,
                site,
                graph,
                zone,
                books,
                plan,
                problems,
                not_started: Vec::new(alloc),
                turns: 0,
                moment,
            },
            spent: false,
        })
    }

    /// The site and its checkables with their entries, with which another engine can go on. It takes no memory.
    pub fn retire(self) -> (Site, Vec<Checkable>)
        ensures site { result.0 ≡ self.run.site }
        ensures entries { histories_of result.1.items ≡ self.run.histories }
        ensures are { self.spent ≡ false → AreBooks (site_view self.run.site) self.run.moment result.1.items }
        ensures each { self.spent ≡ false → AreOf (site_view self.run.site) result.1.items }
    {
        self.state.into_parts()
    }

    /// Takes a turn, and gives what is refused of it, the entries that checkables get, and the checks that are to be started. Reports of orders
    /// whose macros are missing come first in the next turn.
    ///
    /// It takes a time that grows with the turn's lines, reports and entries, with the checkables that are due and with the problems that last,
    /// each times a logarithm; and for each entry with the ancestors of its checkable, and with the downtimes of it that aren't past.
    ///
    /// # Errors
    ///
    /// `OutOfMemory` if there is too little memory for what the turn gives. The engine is spent then.
    pub fn turn_one(&mut self, turn: &Turn) -> Result<TurnOut, OutOfMemory>
        requires fresh { self.old.spent ≡ false }
        requires few { self.old.run.turns < 2 ^ 40 }
        ensures tells { (begun : List Begun) →
            IfOk result (λ out. Tells out (log_alone self.old.run begun turn.now)) }
        ensures turn { (begun : List Begun) →
            OnOk result (IsTurn (basis_of_run self.old.run) 1 (stage_of self.old.run begun) (turn_as_read self.old.run turn.now)
            (log_alone self.old.run begun turn.now)) }
        ensures stage { (begun : List Begun) →
            OnOk result (stage_from self.old.run begun self.new.run
            ≡ stage_after (basis_of_run self.old.run) (stage_of self.old.run begun) (turn_as_read self.old.run turn.now)
            (log_alone self.old.run begun turn.now)) }
        ensures site { OnOk result (self.new.run.site ≡ self.old.run.site) }
        ensures zone { OnOk result (self.new.run.zone ≡ self.old.run.zone) }
        ensures fresh { OnOk result (self.new.spent ≡ false) }
        ensures spent { OnErr result (self.new.spent ≡ true) }
    {
        self.spent = true;
        let out = take_alone(&mut self.state, turn)?;
        self.spent = false;
        Ok(out)
    }

    /// Takes a turn by so many workers, from 1 to 64, and gives what `turn_one` gives of it. The first worker takes the lines; reports and the
    /// ticks of problems go round. All workers take theirs at the same time, and each enters the gate inside and outside of each event that it
    /// takes. With one worker no thread is made, and nobody enters the gate.
    ///
    /// # Errors
    ///
    /// `OutOfMemory` if there is too little memory for what the turn gives. The engine is spent then.
    pub fn turn<R: Wait + Threads + Sync, G: Gate + Sync>(
        &mut self,
        rt: &R,
        turn: &Turn,
        workers: u32,
        gate: &G,
    ) -> Result<TurnOut, OutOfMemory>
        requires fresh { self.old.spent ≡ false }
        requires few { self.old.run.turns < 2 ^ 40 }
        requires workers { (1 ≤ workers) × (workers ≤ 64) }
        ensures turn { (begun : List Begun) →
            IfOk result (λ out. TellsTurn (basis_of_run self.old.run) workers (stage_of self.old.run begun) (turn_as_read self.old.run turn.now) out
            (stage_from self.old.run begun self.new.run)) }
        ensures site { OnOk result (self.new.run.site ≡ self.old.run.site) }
        ensures zone { OnOk result (self.new.run.zone ≡ self.old.run.zone) }
        ensures fresh { OnOk result (self.new.spent ≡ false) }
        ensures spent { OnErr result (self.new.spent ≡ true) }
    {
        if workers == 1 {
            return self.turn_one(turn);
        }
        self.spent = true;
        let out = take_by_many(rt, &mut self.state, turn, workers, gate)?;
        self.spent = false;
        Ok(out)
    }

    /// Takes a turn of so many callers by what is told of its round: which checkables got entries, by ascending index and each its own by
    /// number, who made them, and how far their callers saw. Gives what the turn gives. `None` if such callers can't have made such a
    /// round; the engine is spent then.
    ///
    /// It takes a time that grows as that of [`Engine::turn_one`] does, and with what the entries saw, times a logarithm.
    ///
    /// # Errors
    ///
    /// `OutOfMemory` if there is too little memory for what the turn gives. The engine is spent then.
    pub fn turn_given(
        &mut self,
        turn: &Turn,
        callers: u32,
        told: Vec<Told>,
    ) -> Result<Option<TurnOut>, OutOfMemory>
        requires fresh { self.old.spent ≡ false }
        requires few { self.old.run.turns < 2 ^ 40 }
        requires callers { 1 ≤ callers }
        ensures turn { (begun : List Begun) →
            IfOk result (λ r. MatchOption r (IsNoTurn (basis_of_run self.old.run) callers (stage_of self.old.run begun) (turn_as_read self.old.run turn.now) told.items)
            (λ out. IsOnlyTurn (basis_of_run self.old.run) callers (stage_of self.old.run begun) (turn_as_read self.old.run turn.now) told.items out
            (stage_from self.old.run begun self.new.run))) }
        ensures site { OnOk result (self.new.run.site ≡ self.old.run.site) }
        ensures zone { OnOk result (self.new.run.zone ≡ self.old.run.zone) }
        ensures fresh { IfOk result (λ r. IfSome r (λ _. self.new.spent ≡ false)) }
    {
        self.spent = true;
        let Some(out) = take_given(&mut self.state, turn, callers, told)? else {
            return Ok(None);
        };
        self.spent = false;
        Ok(Some(out))
    }

    /// The site that it runs over.
    pub fn site(&self) -> &Site
        ensures { result.now ≡ self.now.run.site }
    {
        &self.state.site
    }

    /// The checkables with their entries, by index.
    pub fn books(&self) -> &[Checkable]
        ensures entries { histories_of result.now ≡ self.now.run.histories }
        ensures are { self.now.spent ≡ false → AreBooks (site_view self.now.run.site) self.now.run.moment result.now }
    {
        self.state.books.as_slice()
    }

    /// The moment of the last turn; 0 before the first.
    pub fn moment(&self) -> Moment
        ensures { result ≡ self.now.run.moment }
    {
        self.state.moment
    }

    /// How many orders have no report yet. There are never more than may be.
    pub fn outstanding(&self) -> usize
        ensures orders { result ≡ length self.now.run.plans.outstanding }
        ensures few { self.now.spent ≡ false → result ≤ (site_view self.now.run.site).max_orders }
    {
        self.state.plan.outstanding()
    }

    /// How many turns were taken.
    pub fn turns(&self) -> u64
        ensures { result ≡ self.now.run.turns }
    {
        self.state.turns
    }
}

/// The zone of a site; UTC if it has none. Its file, if it has one, is one that the reader of `jiff` takes.
///
/// # Errors
///
/// `OutOfMemory` if there is too little memory for the table of its file.
pub fn zone_of(alloc: Global, site: &Site) -> Result<Zone, OutOfMemory>
    requires { MatchOption (site_view site.now).zone (Unit {0}) (λ bytes. IsBadFile bytes → ⊥) }
    ensures { IfOk result (IsZoneOf (site_view site.now).zone) }
{
    let Some(bytes) = &site.zone else {
        return Ok(Zone::utc());
    };
    match Zone::of_file(alloc, bytes.as_slice()) {
        Ok(zone) => Ok(zone),
        Err(_) => Err(OutOfMemory),
    }
}

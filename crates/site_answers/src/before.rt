// The entries before the first turn of a run.
ghost use Rattle.std.specs.Prelude.{◌≡◌, ◌≢◌, ◌≤◌, ◌<◌, ◌^◌, Option, Some, Err, IfOk, IsErrOf, length, option_map};
ghost use Rattle.site_edge.specs.Told.{Rose};
ghost use Rattle.site_model.specs.PlainSite.{site_view};
ghost use Rattle.site_model.specs.Sound.{IsSound};
ghost use Rattle.site_posts.specs.Books.{histories_of};
ghost use Rattle.site_replies.specs.Replies.{bad_state as bad_state_of, no_file as no_file_of};
ghost use Rattle.site_run.specs.Ends.{HandsOn};
ghost use Rattle.site_run.specs.Logs.{EndsOutput};
ghost use Rattle.turn_engine.specs.Checkables.{AreOf};
ghost use Rattle.run_replies.specs.Runs.{Files as ToldFiles, replied};
ghost use Rattle.site_answers.specs.SiteAnswers.{absent, bad, before, before_in, has, name_of};

use checkable_core::Checkable;
use run_replies::write_made;
use site_base::Blob;
use site_edge::{FileFault, Files, Sink};
use site_keep::{KeepError, restore};
use site_model::Site;
use site_replies::{bad_state, no_file};
use site_run::Status;
use std::alloc::Global;
use turn_engine::books_of;

/// Why there are no checkables to begin with.
#[derive(Clone, Copy)]
pub(crate) enum Lost {
    /// The state file isn't there.
    NoFile,
    /// It is none, or none of the site.
    BadState,
    /// It could not be read.
    Failed,
    OutOfMemory,
}

/// The checkables of a site with the entries of a state file, if one is named, one each by index.
pub(crate) fn books_before<F: Files>(
    alloc: Global,
    state: Option<&str>,
    site: &Site,
    files: &mut F,
) -> Result<Vec<Checkable>, Lost>
    requires sound { IsSound (site_view site.now) }
    requires few { length site.now.checkables < 2 ^ 32 }
    ensures has { (all : ToldFiles) → F.told files.old ≡ Some all → IfOk result (λ books. before (option_map (λ name. name.now) state.entry) (site_view site.now) all ≡ has (histories_of books.items)) }
    ensures are { IfOk result (λ books. AreOf (site_view site.now) books.items) }
    ensures absent { (all : ToldFiles) → F.told files.old ≡ Some all → IsErrOf result Lost.NoFile → before (option_map (λ name. name.now) state.entry) (site_view site.now) all ≡ absent }
    ensures bad { (all : ToldFiles) → F.told files.old ≡ Some all → IsErrOf result Lost.BadState → before (option_map (λ name. name.now) state.entry) (site_view site.now) all ≡ bad }
    ensures same { F.told files.new ≡ F.told files.old }
    ensures cause { IsErrOf result Lost.Failed → Rose (F.faults files.old) (F.faults files.new) }
    ensures counts { F.faults files.old ≤ F.faults files.new }
    ensures calm { F.calm files.old → F.calm files.new }
    ensures unfailing { F.calm files.old → result ≢ Err Lost.Failed }
{
    match state {
        Some(name) => books_of_file(alloc, name, site, files),
        None => books_of(alloc, site).map_err(|_| Lost::OutOfMemory),
    }
}

/// The same of a state file that is named.
fn books_of_file<F: Files>(
    alloc: Global,
    name: &str,
    site: &Site,
    files: &mut F,
) -> Result<Vec<Checkable>, Lost>
    requires sound { IsSound (site_view site.now) }
    requires few { length site.now.checkables < 2 ^ 32 }
    ensures has { (all : ToldFiles) → F.told files.old ≡ Some all → IfOk result (λ books. before (Some name.now) (site_view site.now) all ≡ has (histories_of books.items)) }
    ensures are { IfOk result (λ books. AreOf (site_view site.now) books.items) }
    ensures absent { (all : ToldFiles) → F.told files.old ≡ Some all → IsErrOf result Lost.NoFile → before (Some name.now) (site_view site.now) all ≡ absent }
    ensures bad { (all : ToldFiles) → F.told files.old ≡ Some all → IsErrOf result Lost.BadState → before (Some name.now) (site_view site.now) all ≡ bad }
    ensures same { F.told files.new ≡ F.told files.old }
    ensures cause { IsErrOf result Lost.Failed → Rose (F.faults files.old) (F.faults files.new) }
    ensures counts { F.faults files.old ≤ F.faults files.new }
    ensures calm { F.calm files.old → F.calm files.new }
    ensures unfailing { F.calm files.old → result ≢ Err Lost.Failed }
{
    match files.read(name) {
        Ok(Some(bytes)) => books_of_bytes(alloc, &bytes, site),
        Ok(None) => Err(Lost::NoFile),
        Err(FileFault::Failed) => Err(Lost::Failed),
        Err(FileFault::OutOfMemory) => Err(Lost::OutOfMemory),
    }
}

/// The checkables of a site with the entries that the bytes of a state file tell.
fn books_of_bytes(alloc: Global, bytes: &Blob, site: &Site) -> Result<Vec<Checkable>, Lost>
    requires sound { IsSound (site_view site.now) }
    requires few { length site.now.checkables < 2 ^ 32 }
    ensures has { IfOk result (λ books. before_in (site_view site.now) (Some bytes.now) ≡ has (histories_of books.items)) }
    ensures are { IfOk result (λ books. AreOf (site_view site.now) books.items) }
    ensures bad { IsErrOf result Lost.BadState → before_in (site_view site.now) (Some bytes.now) ≡ bad }
    ensures found { result ≢ Err Lost.NoFile }
    ensures read { result ≢ Err Lost.Failed }
{
    match restore(alloc, bytes.as_slice(), site) {
        Ok(books) => Ok(books),
        Err(KeepError::BadState) => Err(Lost::BadState),
        Err(KeepError::OutOfMemory) => Err(Lost::OutOfMemory),
    }
}

/// Writes why there are no checkables to begin with, if that is told by a diagnostic of the state file.
pub(crate) fn write_lost<S: Sink>(
    alloc: Global,
    lost: Lost,
    state: Option<&str>,
    out: &mut S,
) -> Status
    ensures never_usage { result ≢ Status.Usage }
    ensures never_illegal { result ≢ Status.NotLegal }
    ensures no_file { lost ≡ Lost.NoFile → EndsOutput result (replied (no_file_of (name_of (option_map (λ name. name.now) state.entry)))) (S.written out.old) (S.written out.new) }
    ensures bad_state { lost ≡ Lost.BadState → EndsOutput result (replied (bad_state_of (name_of (option_map (λ name. name.now) state.entry)))) (S.written out.old) (S.written out.new) }
    ensures failed { lost ≡ Lost.Failed → (result ≡ Status.ReadFault) × (out.new ≡ out.old) }
    ensures memory { lost ≡ Lost.OutOfMemory → (result ≡ Status.OutOfMemory) × (out.new ≡ out.old) }
    ensures read { result ≡ Status.ReadFault → lost ≡ Lost.Failed }
    ensures through { HandsOn result (S.kept_back out.new) }
    ensures write_fault { result ≡ Status.WriteFault → Rose (S.faults out.old) (S.faults out.new) }
    ensures calm_sink { S.calm out.old → result ≢ Status.WriteFault }
    ensures no_world_fault { result ≢ Status.WorldFault }
{
    let name = state_name(state);
    match lost {
        Lost::NoFile => write_made(no_file(alloc, name), out),
        Lost::BadState => write_made(bad_state(alloc, name), out),
        Lost::Failed => Status::ReadFault,
        Lost::OutOfMemory => Status::OutOfMemory,
    }
}

/// The name of a state file; empty if none is named.
fn state_name(state: Option<&str>) -> &str
    ensures { result.now ≡ name_of (option_map (λ name. name.now) state.entry) }
{
    match state {
        Some(name) => name,
        None => "",
    }
}

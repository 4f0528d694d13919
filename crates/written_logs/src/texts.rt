// What is printed of a site in memory is UTF-8.
ghost use Rattle.std.specs.Prelude.{◌<◌, ◌^◌, ℕ, List, IfOk, length, map};
ghost use Rattle.std.specs.List.{AllByRecursion};
ghost use Rattle.std.specs.Str.{IsUtf8};
ghost use Rattle.audit_laws.specs.LegalLogs.{HasTexts};
ghost use Rattle.log_text.specs.EntryTwo.{AreTexts};
ghost use Rattle.log_text.specs.SiteNames.{names_of};
ghost use Rattle.run_replies.specs.Runs.{Files};
ghost use Rattle.site_audit.specs.LogLines.{IsOfTexts};
ghost use Rattle.site_model.specs.PlainSite.{check_view, site_view};
ghost use Rattle.site_phases.specs.Phases.{IsReady};
ghost use Rattle.site_program.specs.TaskAnswers.{IsSiteOf};
ghost use Rattle.turn_engine.specs.Orders.{command_of};
ghost use Rattle.written_logs.specs.Written.{IsSiteInMemory};

use command_macros::{MacroError, resolve};
use site_base::{OutOfMemory, Text};
use site_model::{CheckSpec, DependSpec, NotifySpec, Site, UserSpec};
use std::alloc::Global;

/// A site in memory with which a run may begin has all that the laws of this crate ask of the site that files make. It resolves each command of
/// the site, which takes memory.
pub fn ready_site_is_in_memory(alloc: Global, site: &Site) -> Result<(), OutOfMemory>
    requires { IsReady (site_view site.now) }
    ensures { IfOk result (λ _. (all : Files) (root : List ℕ) → IsSiteOf all root (site_view site.now) → IsSiteInMemory all root (site_view site.now)) }
{
    site_has_texts(alloc, site)
}

/// Whatever is printed of a site is UTF-8.
fn site_has_texts(alloc: Global, site: &Site) -> Result<(), OutOfMemory>
    requires { length (site_view site.now).checkables < 2 ^ 32 }
    ensures { IfOk result (λ _. HasTexts (site_view site.now)) }
{
    names_are_texts(site);
    commands_are_texts(alloc, site)
}

fn names_are_texts(site: &Site)
    ensures { AreTexts (names_of (site_view site.now)) }
{
    check_names_are_texts(site.checkables.as_slice());
    depend_names_are_texts(site.depends.as_slice());
    notify_names_are_texts(site.notifies.as_slice());
    user_names_are_texts(site.users.as_slice());
}

fn check_names_are_texts(checks: &[CheckSpec])
    ensures { AllByRecursion IsUtf8 (map (λ c. c.name) (map check_view checks.now)) }
{
    for check in checks {
        is_text(&check.name);
    }
}

fn depend_names_are_texts(depends: &[DependSpec])
    ensures { AllByRecursion IsUtf8 (map (λ d. d.name) depends.now) }
{
    for depend in depends {
        is_text(&depend.name);
    }
}

fn notify_names_are_texts(notifies: &[NotifySpec])
    ensures { AllByRecursion IsUtf8 (map (λ n. n.name) notifies.now) }
{
    for notify in notifies {
        is_text(&notify.name);
    }
}

fn user_names_are_texts(users: &[UserSpec])
    ensures { AllByRecursion IsUtf8 (map (λ u. u.name) users.now) }
{
    for user in users {
        is_text(&user.name);
    }
}

fn commands_are_texts(alloc: Global, site: &Site) -> Result<(), OutOfMemory>
    requires { length (site_view site.now).checkables < 2 ^ 32 }
    ensures { IfOk result (λ _. (k : ℕ) → IsOfTexts (command_of (site_view site.now) k)) }
{
    for checkable in 0..site.checkables.len() as u32 {
        command_is_of_texts(alloc, site, checkable)?;
    }
    Ok(())
}

/// Of the checkable at this place.
fn command_is_of_texts(alloc: Global, site: &Site, checkable: u32) -> Result<(), OutOfMemory>
    ensures { IfOk result (λ _. IsOfTexts (command_of (site_view site.now) checkable)) }
{
    match resolve(alloc, site, checkable) {
        Ok(words) => {
            are_texts(words.as_slice());
            Ok(())
        }
        Err(MacroError::MissingMacro { name }) => {
            is_text(&name);
            Ok(())
        }
        Err(MacroError::OutOfMemory) => Err(OutOfMemory),
    }
}

fn are_texts(texts: &[Text])
    ensures { AllByRecursion IsUtf8 texts.now }
{
    for text in texts {
        is_text(text);
    }
}

fn is_text(text: &Text)
    ensures { IsUtf8 text.now }
{
    let _text = text.as_str();
}

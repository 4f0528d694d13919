// Laws of command lines.
ghost use Rattle.std.specs.Prelude.{◌≡◌, ℕ, List, length};
ghost use Rattle.run_text.specs.declared.style.Style.{Style};
ghost use Rattle.site_model.specs.PlainSite.{PlainSite};
ghost use Rattle.site_model.specs.declared.event.Event.{Event};
ghost use Rattle.event_text.specs.Lines.{Answer, Has, told, faulty};
ghost use Rattle.event_text.specs.declared.line_fault.LineFault.{LineFault};
ghost use Rattle.audit_laws.specs.Askable.{CanBeAsked};
ghost use Rattle.run_meaning.specs.Turns.{Asked};
ghost use Rattle.audit_laws.specs.Names.{IsWellNamed};
ghost use Rattle.audit_laws.specs.Refilled.{asking_among, AreOfLines, AreRefilled, AskFor};
ghost use Rattle.audit_laws.specs.Telling.{IsToldAgain, IsRefusedAgain};
ghost use Rattle.audit_laws.specs.Versions.{told_event};

/// Whatever a line asks for can be asked for: its numbers are in their ranges, its texts are those of an output, and its checkable
/// has a name that stands in a line. So does what a log tells of it, in both versions. And the line that a log tells of an event that
/// can be asked for is read as this event on this checkable.
pub fn lines_are_read_again()
    ensures asked { (s : PlainSite) → IsWellNamed s → (line : List ℕ) (k : ℕ) (e : Event) → Has s line (told k e) → CanBeAsked s k e }
    ensures shown { (style : Style) (s : PlainSite) (k : ℕ) (e : Event) → CanBeAsked s k e → CanBeAsked s k (told_event style e) }
    ensures told { (s : PlainSite) → IsWellNamed s → (k : ℕ) (e : Event) → CanBeAsked s k e → IsToldAgain s k e }
{}

/// Whatever a line is refused for, a log tells a line of it that is refused for the same.
pub fn refusals_are_refused_again()
    ensures { (s : PlainSite) → IsWellNamed s → (line : List ℕ) (f : LineFault) → Has s line (faulty f) → IsRefusedAgain s f }
{}

/// The lines of a turn, told again: a line for each event that is asked for, in whatever order they are told, and each refused line at
/// its number. They ask for these events, and the same are refused.
pub fn lines_are_refused_again()
    ensures { (s : PlainSite) → IsWellNamed s → (answers : List Answer) (lines : List (List ℕ)) (asked : List Asked) → AreOfLines s answers → AskFor s lines asked → length lines ≡ asking_among answers → AreRefilled s answers lines asked }
{}

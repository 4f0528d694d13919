// Worked examples of what a log tells.
ghost use Rattle.std.specs.Prelude.{◌≡◌, true, false, codes, [], ◌∷◌, Some, None, length, map};
ghost use Rattle.event_text.specs.Lines.{told, faulty};
ghost use Rattle.event_text.specs.declared.line_fault.LineFault.TheVariants as fault;
ghost use Rattle.site_model.specs.declared.entry.Entry.{Entry};
ghost use Rattle.site_model.specs.declared.event.Event.TheVariants as event;
ghost use Rattle.site_audit.specs.Commands.{line_for, output_text, refused_text};
ghost use Rattle.audit_laws.specs.Examples.{one_log, one_open, one_order, one_turn, small_site, two_lines};
ghost use Rattle.audit_laws.specs.LegalLogs.{CanBeRun, IsRunInMemory};
ghost use Rattle.audit_laws.specs.Names.{IsWellNamed};
ghost use Rattle.audit_laws.specs.Refilled.{asking_among, refused_from};
ghost use Rattle.audit_laws.specs.Rereported.{refused_again, told_again};
ghost use Rattle.audit_laws.specs.Retaken.{lines_from};
ghost use Rattle.audit_laws.specs.ToldTurns.{IsTellable};

/// A host with a service are named well.
pub fn a_host_with_a_service()
    ensures { IsWellNamed small_site }
{}

/// The lines of a switch and of an acknowledgement; none for a name with a semicolon. The output of a check with performance text.
pub fn told_lines()
    ensures host { line_for (codes "h") (event.Checks true) ≡ Some (codes "[0] ENABLE_HOST_CHECK;h") }
    ensures service { line_for (codes "h!s") (event.Ack true false) ≡ Some (codes "[0] ACKNOWLEDGE_SVC_PROBLEM;h;s;2;0;0;;") }
    ensures unnamed { line_for (codes "h;s") (event.Checks true) ≡ None }
    ensures output { output_text (codes "fine") (codes "t=1") ≡ codes "fine|t=1" }
{}

/// The lines of faults that name a host.
pub fn refused_lines()
    ensures number { refused_text small_site fault.BadNumber ≡ Some (codes "[0] SCHEDULE_HOST_CHECK;h;x") }
    ensures span { refused_text small_site fault.BadSpan ≡ Some (codes "[0] SCHEDULE_HOST_DOWNTIME;h;1;1;1;0;0;;") }
{}

/// The entries of a round stand in its block by checkable and by number. Of four lines the second and the fourth are refused. Of three
/// reports, two of which are of the one order that is outstanding, the first is taken.
pub fn told_turns()
    ensures entries { (e f g : Entry) → lines_from 0 ((e ∷ []) ∷ [] ∷ (f ∷ g ∷ []) ∷ []) ≡ record { checkable = 0; entry = e } ∷ record { checkable = 2; entry = f } ∷ record { checkable = 2; entry = g } ∷ [] }
    ensures lines { refused_from 1 (told 0 event.Unack ∷ faulty fault.NoBracket ∷ told 1 event.Unack ∷ faulty fault.NotText ∷ []) ≡ record { number = 2; fault = fault.NoBracket } ∷ record { number = 4; fault = fault.NotText } ∷ [] }
    ensures asked { asking_among (told 0 event.Unack ∷ faulty fault.NoBracket ∷ told 1 event.Unack ∷ faulty fault.NotText ∷ []) ≡ 2 }
    ensures reports { told_again (record { order = 1; checkable = 5 } ∷ []) (refused_again 1 ∷ refused_again 1 ∷ refused_again 3 ∷ []) (record { order = 1; status = 2; output = codes "x" } ∷ []) ≡ record { order = 1; status = 2; output = codes "x" } ∷ refused_again 1 ∷ refused_again 3 ∷ [] }
{}

/// A turn of the small site can be told, before which an order of its service is outstanding, and which brings two lines.
pub fn a_turn_of_the_small_site()
    ensures { IsTellable small_site one_open one_order [] two_lines [] }
{}

/// The small site can be run, and over one turn, in which both of its checks are ordered, its run is one of which the log is legal.
pub fn a_run_of_the_small_site()
    ensures site { CanBeRun small_site }
    ensures run { IsRunInMemory 1 small_site None one_turn one_log }
    ensures orders { map (λ l. length l.orders) one_log ≡ 2 ∷ [] }
{}

// Laws of reports.
ghost use Rattle.std.specs.Prelude.{ℕ, List, IsPermutation};
ghost use Rattle.run_meaning.specs.Dealing.{taken_reports, Taken};
ghost use Rattle.run_meaning.specs.Turns.{Outstanding, Reported};
ghost use Rattle.run_text.specs.declared.style.Style.{Style};
ghost use Rattle.audit_laws.specs.Rereported.{orders_of, orders_taken, AreRereported, AreTakenAs};
ghost use Rattle.audit_laws.specs.Reports.{IsReadAgain, IsReportedAgain};

/// The output that a log tells of a check is read as what the check's own output was read as, and the report that it tells of a
/// result makes the event that it tells of the check's own report, in both versions.
pub fn reports_are_read_again()
    ensures read { (output : List ℕ) (status : ℕ) → IsReadAgain output status }
    ensures reported { (style : Style) (output : List ℕ) (status : ℕ) → IsReportedAgain style output status }
{}

/// The reports of a turn, told again: one for each that was taken, in whatever order they are told, and after them one for each that was
/// refused. They are taken as what they tell, the same are refused, and the same orders stay outstanding.
pub fn reports_are_refused_again()
    ensures { (os : List Outstanding) (reports told : List Reported) (takens : List Taken) → AreTakenAs os told takens → IsPermutation (orders_taken (taken_reports os reports)) (orders_of told) → AreRereported os reports told takens }
{}

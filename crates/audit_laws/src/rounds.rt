// Laws of rounds.
ghost use Rattle.std.specs.Prelude.{◌≡◌, ◌<◌, ◌≤◌, ◌++◌, ℕ, List, [], ◌∷◌, Option, Some, length, map};
ghost use Rattle.std.specs.List.{AllByRecursion};
ghost use Rattle.run_meaning.specs.Acts.{Rules};
ghost use Rattle.run_meaning.specs.Dealing.{dealt, line_events, taken_reports};
ghost use Rattle.run_meaning.specs.Rounds.{behind, IsRound};
ghost use Rattle.run_meaning.specs.Turns.{Asked, Histories, Outstanding, Reported};
ghost use Rattle.run_text.specs.TurnReading.{as_line};
ghost use Rattle.event_text.specs.Lines.{Answer};
ghost use Rattle.site_model.specs.PlainSite.{PlainSite};
ghost use Rattle.site_audit.specs.Tracks.{taken_in};
ghost use Rattle.audit_laws.specs.Types.{EntryLine, Open, OrderLine, Said};
ghost use Rattle.audit_laws.specs.Heard.{AllSay, AreHeard, HaveOneResult};
ghost use Rattle.audit_laws.specs.Names.{IsWellNamed};
ghost use Rattle.audit_laws.specs.ToldTurns.{events_of_turn, IsTellable, IsToldBy, IsToldSo};
ghost use Rattle.audit_laws.specs.Retaken.{all_events, lines_from, spots_from, AreInKinds, AreOthers, GoesByKinds, HaveRoom};

/// A round of whatever events is also one of the events that its entries tell, in the order in which they are taken from their spots.
pub fn told_rounds_are_rounds()
    ensures { (r : Rules) (moment : ℕ) (before : Histories) (events : List (List Asked)) (round : Histories) (said : List Said) (order : List ℕ) → IsRound r moment before events round → HaveRoom (length events) (behind before round) (length round) → length said ≡ length (lines_from 0 round) → taken_in (length said) (spots_from 0 (lines_from 0 round) said) ≡ Some order → IsRound r moment before (all_events (lines_from 0 round) (length events) order) round }
{}

/// What is taken goes by callers, and of one caller by kinds: lines first, then reports whose orders lacked a macro, by number, then other
/// reports, and then ticks, by checkable.
pub fn told_orders_go_by_kinds()
    ensures { (xs : List EntryLine) (said : List Said) (order : List ℕ) → taken_in (length said) (spots_from 0 xs said) ≡ Some order → GoesByKinds xs said order }
{}

/// If a round has events, and among those of each caller lines come first, then reports, and then ticks, some event can always be taken:
/// all that the entries say is taken in some order.
pub fn rounds_are_told()
    ensures { (r : Rules) (moment : ℕ) (before : Histories) (events : List (List Asked)) (round : Histories) (said : List Said) → IsRound r moment before events round → HaveRoom (length events) (behind before round) (length round) → length said ≡ length (lines_from 0 round) → AreOthers r → AreInKinds (lines_from 0 round) events round said → (order : List ℕ) × (taken_in (length said) (spots_from 0 (lines_from 0 round) said) ≡ Some order) }
{}

/// The entries of a block, of which no checkable has two results of orders, are heard as what each says by the order that its checkable had
/// before the block, and they stand on tracks as they say.
pub fn entries_are_heard()
    ensures { (callers : ℕ) (names : List (List ℕ)) (os : List (Option Open)) (xs : List EntryLine) (said : List Said) → AllByRecursion (λ x. x.entry.caller < callers) xs → AllSay names os xs said → HaveOneResult xs → AreHeard callers names os xs said }
{}

/// The block of one caller's turn tells a turn: at the moment of the block, with the same lines and reports refused, and the same orders
/// outstanding after it. What the caller takes of the told turn makes the same round.
pub fn blocks_tell_their_turns()
    ensures { (s : PlainSite) → IsWellNamed s → (opens : List (Option Open)) (os : List Outstanding) (due reports : List Reported) (answers : List Answer) (ticks : List Asked) (moment : ℕ) (orders : List OrderLine) (r : Rules) (before round : Histories) → IsTellable s opens os due answers ticks → IsRound r moment before (events_of_turn os (due ++ reports) (map as_line answers) ticks ∷ []) round → HaveRoom 1 (behind before round) (length round) → AreOthers r → IsToldSo s opens os due reports answers ticks moment orders r before round }
{}

/// The same of a turn of several callers, from 1 to 64: what they take of the told turn makes the same round too, as one of those that it
/// can make.
pub fn blocks_tell_turns_of_callers()
    ensures { (callers : ℕ) → 1 ≤ callers → (s : PlainSite) → IsWellNamed s → (opens : List (Option Open)) (os : List Outstanding) (due reports : List Reported) (answers : List Answer) (ticks : List Asked) (moment : ℕ) (orders : List OrderLine) (r : Rules) (before round : Histories) → IsTellable s opens os due answers ticks → IsRound r moment before (dealt callers (line_events (map as_line answers)) (taken_reports os (due ++ reports)) ticks) round → HaveRoom callers (behind before round) (length round) → AreOthers r → IsToldBy callers s opens os due reports answers ticks moment orders r before round }
{}

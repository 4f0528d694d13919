// Laws of two callers.
ghost use Rattle.std.specs.Prelude.{◌≡◌, ◌⊎◌, List, [], ◌∷◌, map};
ghost use Rattle.run_meaning.specs.Turns.{Histories, of_index};
ghost use Rattle.run_meaning.specs.Rounds.{IsRound};
ghost use Rattle.run_meaning.specs.Runs.{IsRun, TurnLog};
ghost use Rattle.run_meaning.specs.TwoCallers.{events, nothing, rules, sight};
ghost use Rattle.caller_examples.specs.Callers.{b, first, line_first, report_first, turns};
ghost use Rattle.caller_examples.specs.Orders.{host_first, service_first};

/// One caller takes an event of a host and another one of its service: the service's entry has seen the host's where the
/// host came first, and else nothing of it. There is no other round of these events.
pub fn a_host_and_its_service_in_either_order()
    ensures host { IsRound rules 10 nothing events host_first }
    ensures service { IsRound rules 10 nothing events service_first }
    ensures seen { map (λ e. e.sights) (of_index 1 host_first) ≡ sight 1 ∷ [] }
    ensures unseen { map (λ e. e.sights) (of_index 1 service_first) ≡ sight 0 ∷ [] }
    ensures only { (round : Histories) → IsRound rules 10 nothing events round → (round ≡ host_first) ⊎ (round ≡ service_first) }
{}

/// One caller takes a passive problem of a service and another one the report of its order: a run of these turns has the log in
/// which the line came first or the one in which the report did, and no other.
pub fn a_line_and_a_report_in_either_order()
    ensures { (ls : List TurnLog) → IsRun b 2 first turns ls → (ls ≡ line_first) ⊎ (ls ≡ report_first) }
{}

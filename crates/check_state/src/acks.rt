// How long acknowledgements last.
ghost use Rattle.std.specs.Prelude.{◌≡◌};
ghost use Rattle.run_meaning.specs.View.{ack_after as after_result, is_on as on};

use crate::states::{is_problem, is_same};
use site_model::{Ack, State};

/// An acknowledgement after a result: a normal one lasts while the state stays, a sticky one while
/// there is a problem (Icinga 2 documentation, Monitoring Basics, "Acknowledgements").
pub(crate) fn ack_after(before: State, after: State, ack: Ack) -> Ack
    ensures { result ≡ after_result before after ack }
{
    match ack {
        Ack::Normal if is_problem(after) && is_same(before, after) => Ack::Normal,
        Ack::Sticky if is_problem(after) => Ack::Sticky,
        _ => Ack::Off,
    }
}

pub(crate) fn is_on(ack: Ack) -> bool
    ensures { result ≡ on ack }
{
    !matches!(ack, Ack::Off)
}

// What is stepped by the callers of a post.
ghost use Rattle.std.specs.Prelude.{◌≡◌, ℕ, IfOk, IfErr};

/// A machine: a state, which each event of a caller changes by one entry of the history.
///
/// The clauses below are a machine's law. They say what `step` and `glance` give, by six meanings
/// that each machine defines, and all that a [`crate::Post`] promises is said in these.
pub trait Machine: Drop + Send + Sync {
    /// What the entries have made of the start.
    type State: Drop + Send;

    /// What a caller brings.
    type Event: Drop + Send;

    /// What the history keeps of an event.
    type Entry: Drop + Send;

    /// What a caller is shown of a state.
    type Glance: Copy + Send;

    /// Which states are fit.
    ghost fit: { Self → Self.State → Type 0 };

    /// Which events are lawful.
    ghost lawful: { Self → Self.Event → Type 0 };

    /// The entry that an event of a caller gives in a state.
    ghost entry_of: { Self → Self.State → ℕ → Self.Event → Self.Entry };

    /// The caller of an entry.
    ghost caller_of: { Self.Entry → ℕ };

    /// The state that an entry makes of a state.
    ghost after: { Self → Self.State → Self.Entry → Self.State };

    /// The glance of a state.
    ghost glance_of: { Self → Self.State → Self.Glance };

    /// Makes one step. Hands the event back for want of memory alone, with the state as before.
    fn step(
        &self,
        state: &mut Self::State,
        caller: u32,
        event: Self::Event,
    ) -> Result<Self::Entry, Self::Event>
        requires fit { fit self.now state.old }
        requires lawful { lawful self.now event }
        ensures entry { IfOk result (λ e. (e ≡ entry_of self.now state.old caller event) × (caller_of e ≡ caller)) }
        ensures state { IfOk result (λ e. (state.new ≡ after self.now state.old e) × fit self.now state.new) }
        ensures refused { IfErr result (λ e. (e ≡ event) × (state.new ≡ state.old)) };

    /// What a caller sees of a state.
    fn glance(&self, state: &Self::State) -> Self::Glance
        ensures { result ≡ glance_of self.now state.now };
}

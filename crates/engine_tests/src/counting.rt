// A machine that counts its entries, and refuses the events that it was told to.
ghost use Rattle.std.specs.Prelude.{◌≡◌, ℕ, ◌+◌, ◌%◌, ◌^◌};

use post_turn::Machine;

/// What one call adds: whose it is, and the caller's own count of its calls.
#[derive(Clone, Copy)]
pub struct Call {
    pub caller: u32,
    pub serial: u32,
}

/// Counts calls modulo 2^64, and refuses the ones with the serial number that is set.
#[derive(Clone, Copy)]
pub struct Counting {
    pub refused: Option<u32>,
}

impl Machine for Counting {
    ghost use Rattle.engine_tests.specs.declared.counting.Call.{Call};

    type State = u64;

    type Event = u32;

    type Entry = Call;

    type Glance = u64;

    ghost fit = { λ _ _. Unit {0} };

    ghost lawful = { λ _ _. Unit {0} };

    ghost entry_of = { λ _ _ k n. record { caller = k; serial = n } };

    ghost caller_of = { λ e. e.caller };

    ghost after = { λ _ n _. (n + 1) % 2 ^ 64 };

    ghost glance_of = { λ _ n. n };

    fn step(&self, state: &mut u64, caller: u32, event: u32) -> Result<Call, u32> {
        if self.refused == Some(event) {
            return Err(event);
        }
        *state = state.wrapping_add(1);
        Ok(Call {
            caller,
            serial: event,
        })
    }

    fn glance(&self, state: &u64) -> u64 {
        *state
    }
}

/// The count of a caller's calls in a history, if their serial numbers are 0, 1, 2 .. in order.
pub fn in_order(history: &[Call], caller: u32) -> Option<u32> {
    let mut count = 0u32;
    for call in history {
        if call.caller == caller {
            if call.serial != count {
                return None;
            }
            count = count.checked_add(1)?;
        }
    }
    Some(count)
}

// A law of boards.
ghost use Rattle.std.specs.Prelude.{◌≡◌, false, true};
ghost use Rattle.commit_board.specs.Boards.{Contents, IsLeft, is_answered};

/// Until a wave has all of its answers, one of its tasks is open, or a worker has it. So no task is left for good.
pub fn a_task_is_left<T, A>()
    ensures { (board : Contents T A) → board.is_running ≡ true → is_answered board ≡ false → IsLeft board.slots }
{}

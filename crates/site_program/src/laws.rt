// What is known of what the program writes.
ghost use Rattle.std.specs.Prelude.{◌≡◌, ◌⊎◌, ℕ, List, Option, Some};
ghost use Rattle.site_edge.specs.declared.turn.Turn.{Turn};
ghost use Rattle.run_replies.specs.Runs.{Files};
ghost use Rattle.site_program.specs.TaskAnswers.{Answers};
ghost use Rattle.site_run.specs.Logs.{EndsRun, EndsOutput, Output};
ghost use Rattle.site_run.specs.declared.status.Status.{Status};
ghost use Rattle.site_run.specs.declared.status.Status.TheVariants as status;
ghost use Rattle.site_words.specs.Tasks.{Task};

/// What answers to a task over files and turns with one worker is one: its text, and with what the run ends in which nothing fails.
pub fn answers_are_one()
    ensures { (t : Task) (files : Files) (turns : List Turn) (v w : Output) → Answers 1 t (Some files) (Some turns) v → Answers 1 t (Some files) (Some turns) w → v ≡ w }
{}

/// So a run that no fault of files, world or output ended wrote the whole answer and ended with its status, or there was
/// no memory for it. If the answer is diagnostics, these were written.
pub fn calm_runs_write_their_answer()
    ensures { (s : Status) (t : Task) (files : Files) (turns : List Turn) (old new : Option (List ℕ)) (w : Output) → EndsRun s (Answers 1 t (Some files) (Some turns)) old new
        → (s ≡ status.ReadFault → ⊥) → (s ≡ status.WriteFault → ⊥) → (s ≡ status.WorldFault → ⊥)
        → Answers 1 t (Some files) (Some turns) w → (s ≡ status.OutOfMemory) ⊎ EndsOutput s w old new }
{}

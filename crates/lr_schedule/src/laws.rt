ghost use Rattle.std.specs.Prelude.{◌≡◌, ℕ, List};
ghost use Rattle.lr_machine.specs.declared.schedule_line.ScheduleLine.{ScheduleLine};
ghost use Rattle.lr_machine.specs.Transcript.{IsLine};

/// A line of a schedule is only one thing: no two events have one text.
#[tactic(auto, using(crate::proofs::EventLaws::one_kind))]
pub fn one_reading()
    ensures { (number : ℕ) (line : List ℕ) (a b : ScheduleLine) → IsLine number line a
        → IsLine number line b → a ≡ b }
{}

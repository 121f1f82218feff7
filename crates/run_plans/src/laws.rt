//! Laws of the definitions. Each function is empty: what it ensures is the law.
ghost use Rattle.std.specs.Prelude.{◌≡◌, ℕ, ◌+◌, ◌<◌, List, [], length, Some, slice_get};
ghost use Rattle.run_plans.specs.Schedules.{picked, repeated};

/// A run has as many numbers as steps. They begin with those of the schedule, and come again behind its end; those of an empty
/// schedule are zeros.
pub fn schedules_repeat()
    ensures steps { (schedule : List ℕ) (steps : ℕ) → length (repeated schedule steps) ≡ steps }
    ensures begins { (schedule : List ℕ) (step : ℕ) → step < length schedule → slice_get schedule step ≡ Some (picked schedule step) }
    ensures again { (schedule : List ℕ) (step : ℕ) → picked schedule (step + length schedule) ≡ picked schedule step }
    ensures zeros { (step : ℕ) → picked [] step ≡ 0 }
{}

// What holds of all texts of runs.
ghost use Rattle.std.specs.Prelude.{◌≡◌, ◌⊎◌, ℕ, List};
ghost use Rattle.cp_trace.specs.declared.trace.Trace.{Trace as AnyTrace};
ghost use Rattle.cp_trace.specs.Faults.{IsFaultAt};
ghost use Rattle.cp_trace.specs.Traces.{IsTextOf};

/// A law, with nothing to run. Bytes are the text of at most one run, and a run has at most one text: so what is written
/// is read as the same run, and what is read is written as the same bytes. The text of a run is at no fault. Bytes that
/// are at fault are so at one line. No bytes are without both.
pub fn one_run()
    ensures runs { (bytes : List ℕ) (t s : AnyTrace) → IsTextOf bytes t → IsTextOf bytes s → t ≡ s }
    ensures texts { (a b : List ℕ) (t : AnyTrace) → IsTextOf a t → IsTextOf b t → a ≡ b }
    ensures apart { (bytes : List ℕ) (t : AnyTrace) (line : ℕ) → IsTextOf bytes t → IsFaultAt bytes line → ⊥ }
    ensures faults { (bytes : List ℕ) (a b : ℕ) → IsFaultAt bytes a → IsFaultAt bytes b → a ≡ b }
    ensures some { (bytes : List ℕ) → ¬ (((t : AnyTrace) × IsTextOf bytes t) ⊎ ((line : ℕ) × IsFaultAt bytes line)) → ⊥ }
{}

// What holds of all texts of reports.
ghost use Rattle.std.specs.Prelude.{◌≡◌, ◌⊎◌, ◌++◌, ℕ, List};
ghost use Rattle.cp_report.specs.declared.report.Report.{Report as AnyReport};
ghost use Rattle.cp_report.specs.declared.kind.ReportKind.{ReportKind as AnyKind};
ghost use Rattle.cp_report.specs.Faults.{IsFaultOf};
ghost use Rattle.cp_report.specs.Texts.{BeginsWith, IsWithinLimits, report_text};

/// A law, with nothing to run. Bytes begin with the text of at most one report, with one rest behind
/// it. Bytes that begin with one have no fault. Bytes that have a fault have one kind and one line of
/// it. No bytes are without both. So where reading answers a fault, no report within the limits has its text
/// at the front.
pub fn one_reading()
    ensures reports { (r s : AnyReport) (a b : List ℕ) → IsWithinLimits r → IsWithinLimits s → report_text r ++ a ≡ report_text s ++ b → (r ≡ s) × (a ≡ b) }
    ensures apart { (r : AnyReport) (a bytes : List ℕ) (kind : AnyKind) (line : ℕ) → IsWithinLimits r → bytes ≡ report_text r ++ a → IsFaultOf bytes kind line → ⊥ }
    ensures some { (bytes : List ℕ) → ¬ (((r : AnyReport) × (n : ℕ) × BeginsWith bytes r n) ⊎ ((kind : AnyKind) × (line : ℕ) × IsFaultOf bytes kind line)) → ⊥ }
    ensures faults { (bytes : List ℕ) (k : AnyKind) (a : ℕ) (l : AnyKind) (b : ℕ) → IsFaultOf bytes k a → IsFaultOf bytes l b → (k ≡ l) × (a ≡ b) }
{}

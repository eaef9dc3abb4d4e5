// What holds of all answers.
ghost use Rattle.std.specs.Prelude.{◌≡◌, ◌≢◌, ℕ, List};
ghost use Rattle.cp_cgraph.specs.Clustered.{Clustered};
ghost use Rattle.cp_cgraph.specs.GraphTexts.{IsGraphText};
ghost use Rattle.cp_app.specs.Answer.{Answer, IsTrace, IsTraceOf, Solved};
ghost use Rattle.cp_app.specs.YesLayouts.{TellsDrawing};
ghost use Rattle.cp_app.specs.declared.end.End.{End as AnyEnd};
ghost use Rattle.cp_app.specs.declared.end.End.TheVariants.{Done, Yes};

/// A law, with nothing to run. For given words and bytes there is one end: what is accepted is not rejected, a
/// rejection has one reason, and what has a layout is not said to have none. Its text is one, too, but for a layout that
/// was found and for the run that `trace` tells, of which there may be several. And it cannot be that there is no end,
/// where for `trace` it cannot be that the graph has no run.
pub fn one_answer()
    ensures one { (words : List (List ℕ)) (bytes : List ℕ) (e f : AnyEnd) (s t : List ℕ) → Answer words bytes e s → Answer words bytes f t → (e ≡ f) × (e ≢ Yes → e ≢ Done → s ≡ t) }
    ensures some { (words : List (List ℕ)) (bytes : List ℕ) → (IsTrace words → (g : Clustered) → IsGraphText bytes g → ¬ ((lines : List ℕ) × IsTraceOf g lines) → ⊥) → ¬ ((e : AnyEnd) × (s : List ℕ) × Answer words bytes e s) → ⊥ }
{}

/// A law, with nothing to run. A yes of `solve` is the text of a layout that draws the graph: round each node stand its
/// ends of edges, the border of each cluster is crossed once by each edge that leaves the cluster and by nothing else,
/// and graph and borders together have Euler genus zero (Feng, Cohen, Eades 1995).
pub fn yes_tells_a_layout()
    ensures { (bytes text : List ℕ) → Solved bytes Yes text → TellsDrawing bytes text }
{}

// Laws of skeletons, as contracts of functions that do nothing.
ghost use Rattle.std.specs.Prelude.{◌↔◌, ℕ, List};
ghost use Rattle.cp_cgraph.specs.Clustered.{Clustered, IsClustered};
ghost use Rattle.cp_cgraph.specs.declared.layout.Layout.{Layout};
ghost use Rattle.cp_border.specs.Good.{IsGood, IsCPlanar};
ghost use Rattle.cp_board.specs.Solutions.{Solves, IsSolvable};
ghost use Rattle.cp_skel.specs.Skeletons.{skeletons};
ghost use Rattle.cp_skel.specs.SolutionLayouts.{solution_layout};
ghost use Rattle.cp_skel.specs.VertexLists.{layout_list};

/// A clustered graph is c-planar exactly where its skeletons, as one instance of synchronized
/// planarity, can be solved (Bläsius, Rutter 2016; Bläsius, Fink, Rutter 2021). Constant time.
pub fn solvable_exactly_where_planar()
    ensures { (g : Clustered) → IsClustered g → IsCPlanar g ↔ IsSolvable (skeletons g) }
{}

/// A good layout gives a solution of the skeletons, and a solution a good layout. Constant time.
pub fn solutions_and_layouts()
    ensures solution { (g : Clustered) → IsClustered g → (l : Layout) → IsGood g l → Solves (skeletons g) (layout_list g l) }
    ensures layout { (g : Clustered) → IsClustered g → (s : ℕ → List ℕ) → Solves (skeletons g) s → IsGood g (solution_layout g s) }
{}

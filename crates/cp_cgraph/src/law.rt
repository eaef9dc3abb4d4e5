// What the definitions say of every list.
ghost use Rattle.std.specs.Prelude.{◌≡◌, ◌⊎◌, ℕ, List, length};
ghost use Rattle.cp_gml.specs.declared.tree.Entry.{Entry};
ghost use Rattle.cp_cgraph.specs.declared.kind.GraphKind.{GraphKind as AnyKind};
ghost use Rattle.cp_cgraph.specs.Clustered.{Clustered};
ghost use Rattle.cp_cgraph.specs.GraphFaults.{IsFaultOf, node_entries, edge_entries};
ghost use Rattle.cp_cgraph.specs.GraphOf.{IsGraphOf};

/// The law that the answer of `build` is the only one: a list says one graph or has one first
/// fault, and never both. The graph has a node for each `node` entry of the graph list and an edge
/// for each `edge` entry. It does nothing.
pub fn one_graph()
    ensures graphs { (end : ℕ) (es : List Entry) (g h : Clustered) → IsGraphOf end es g → IsGraphOf end es h → g ≡ h }
    ensures apart { (end : ℕ) (es : List Entry) (g : Clustered) (kind : AnyKind) (at : ℕ) → IsGraphOf end es g → IsFaultOf end es kind at → ⊥ }
    ensures some { (end : ℕ) (es : List Entry) → ((g : Clustered) × IsGraphOf end es g) ⊎ ((kind : AnyKind) × (at : ℕ) × IsFaultOf end es kind at) }
    ensures faults { (end : ℕ) (es : List Entry) (k : AnyKind) (a : ℕ) (l : AnyKind) (b : ℕ) → IsFaultOf end es k a → IsFaultOf end es l b → (k ≡ l) × (a ≡ b) }
    ensures nodes { (end : ℕ) (es : List Entry) (g : Clustered) → IsGraphOf end es g → length g.ids ≡ length (node_entries es) }
    ensures edges { (end : ℕ) (es : List Entry) (g : Clustered) → IsGraphOf end es g → length g.ends ≡ length (edge_entries es) }
{}

// What the definitions say of every text.
ghost use Rattle.std.specs.Prelude.{◌≡◌, ◌≤◌, ◌↔◌, ◌⊎◌, ◌-◌, ℕ, List, drop, take};
ghost use Rattle.cp_gml.specs.Lists.{deepest, IsListOf, IsFaultOf};
ghost use Rattle.cp_gml.specs.Rows.{IsGap, IsRow, IsRowUpTo};
ghost use Rattle.cp_gml.specs.Tokens.{Front, Token, place, start};
ghost use Rattle.cp_gml.specs.declared.kind.GrammarKind.{GrammarKind as AnyKind};
ghost use Rattle.cp_gml.specs.declared.tree.Entry.{Entry};
ghost use Rattle.cp_gml.specs.Trees.{Tree, spelled, depth, tree};

/// The law that the answer of `parse` is the only one: a text has one list or one first fault, and never both. The tree of a list, of which the contracts speak, is that of no other entries.
/// And a text has a list exactly where it consists, behind a byte order mark, of
/// blanks, comments and the tokens of that list laid end to end, each word and each number as long as
/// it can be. It does nothing.
pub fn one_answer()
    ensures lists { (text : List ℕ) (t u : Tree) → IsListOf text t → IsListOf text u → t ≡ u }
    ensures entries { (es fs : List Entry) → tree es ≡ tree fs → es ≡ fs }
    ensures apart { (text : List ℕ) (t : Tree) (kind : AnyKind) (at : ℕ) → IsListOf text t → IsFaultOf text kind at → ⊥ }
    ensures some { (text : List ℕ) → ((es : List Entry) × IsListOf text (tree es)) ⊎ ((kind : AnyKind) × (at : ℕ) × IsFaultOf text kind at) }
    ensures faults { (text : List ℕ) (k : AnyKind) (a : ℕ) (l : AnyKind) (b : ℕ) → IsFaultOf text k a → IsFaultOf text l b → (k ≡ l) × (a ≡ b) }

    // The whole row of tokens, both ways.
    ensures laid_out { (text : List ℕ) (t : Tree) → IsListOf text t →
        IsRow (start text) (drop (start text) text) (spelled t) × (depth t ≤ deepest) }
    ensures found { (text : List ℕ) (t : Tree) → IsRow (start text) (drop (start text) text) (spelled t) →
        depth t ≤ deepest → IsListOf text t }

    // The tokens before a fault: those that are laid end to end before it, and a fault stands behind the blanks and
    // comments that follow them.
    ensures cut { (text : List ℕ) (ts : List Token) (to : ℕ) → Front text (start text) ts to ↔
        IsRowUpTo (start text) (drop (start text) text) ts to (drop to text) }
    ensures passed { (text : List ℕ) (at : ℕ) → IsGap (drop (place text at) text) (take (place text at - at) (drop at text)) }
{}

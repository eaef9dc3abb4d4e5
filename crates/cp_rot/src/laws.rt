// Laws of all rotation systems, as contracts of functions that do nothing.
ghost use Rattle.std.specs.Prelude.{◌≡◌, ◌⊎◌, ◌↔◌, ℕ, Bool, not, ◌+◌, ◌*◌, ◌<◌};
ghost use Rattle.cp_rot.specs.Systems.{System, IsRotation, edges, next};
ghost use Rattle.cp_rot.specs.Genus.{FaceCount, ComponentCount, HasGenusZero};
ghost use Rattle.cp_rot.specs.Rewrites.{deleted};
ghost use Rattle.cp_rot.specs.Laws.{IsRenamed, IsSideBySide};

/// Euler's inequality V - E + F <= 2C, for every rotation system: some number g, the sum of the
/// genera of its components, has V + F + 2g = E + 2C (Euler 1758, Lhuilier 1813). Constant time.
pub fn euler_bound()
    ensures { (r : System) → IsRotation r → (f c : ℕ) → FaceCount r f → ComponentCount r c
        → (g : ℕ) × (r.vertices + f + 2 * g ≡ edges r + 2 * c) }
{}

/// New numbers for the vertices and darts of a rotation system, which keep edges, vertices and
/// cyclic orders, change neither the number of faces nor that of components. Constant time.
pub fn renaming_keeps_counts()
    ensures { (r s : System) → (h back k undo : ℕ → ℕ) → IsRotation r → IsRotation s → IsRenamed r s h back k undo
        → (f c g b : ℕ) → FaceCount r f → ComponentCount r c → FaceCount s g → ComponentCount s b
        → (g ≡ f) × (b ≡ c) }
{}

/// The numbers of faces and of components of two rotation systems side by side add up. Constant
/// time.
pub fn counts_add_up()
    ensures { (r s t : System) → IsRotation r → IsRotation s → IsRotation t → IsSideBySide r s t
        → (f c g b h a : ℕ) → FaceCount r f → ComponentCount r c → FaceCount s g → ComponentCount s b
        → FaceCount t h → ComponentCount t a → (h ≡ f + g) × (a ≡ c + b) }
{}

/// An edge whose two darts stand side by side in the list of a vertex, which is a loop, adds one face
/// and joins no components, at any place of any list, also where it stands alone. So it keeps the
/// genus. Constant time.
pub fn loop_adds_one_face()
    ensures { (r : System) → IsRotation r → (e : ℕ) → e < edges r
        → (next r (2 * e) ≡ 2 * e + 1) ⊎ (next r (2 * e + 1) ≡ 2 * e)
        → (f c g b : ℕ) → FaceCount r f → ComponentCount r c → FaceCount (deleted r e) g → ComponentCount (deleted r e) b
        → (f ≡ g + 1) × (c ≡ b) }
{}

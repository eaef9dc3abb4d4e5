// Laws of restricted and split rotation systems, as contracts of functions that do nothing.
ghost use Rattle.std.specs.Prelude.{◌≡◌, ◌↔◌, ℕ, Bool, not, ◌<◌};
ghost use Rattle.cp_rot.specs.Systems.{System, IsRotation, edges};
ghost use Rattle.cp_rot.specs.Genus.{HasGenusZero};
ghost use Rattle.cp_rotlaw.specs.Restrictions.{restricted, IsRestricted, MeetAt, IsRunAtVertex, split_off};

/// A rotation system of genus zero, restricted to some of its edges, has genus zero, whatever new
/// numbers the edges have. There is a restriction for every test of edges: what is left where the
/// other edges are deleted one after another. Constant time.
pub fn restriction_keeps_genus_zero()
    ensures edges_deleted { (r : System) → IsRotation r → HasGenusZero r → (keeps : ℕ → Bool)
        → IsRotation (restricted (edges r) keeps r) × HasGenusZero (restricted (edges r) keeps r) }
    ensures exists { (r : System) → IsRotation r → (keeps : ℕ → Bool)
        → IsRotation (restricted (edges r) keeps r)
        × ((number : ℕ → ℕ) × (original : ℕ → ℕ) × IsRestricted r (restricted (edges r) keeps r) keeps number original) }
    ensures each { (r s : System) → IsRotation r → IsRotation s → (keeps : ℕ → Bool) → (number original : ℕ → ℕ)
        → IsRestricted r s keeps number original → HasGenusZero r → HasGenusZero s }
{}

/// Two sets of edges of a rotation system that meet at one vertex alone: where the darts there of the
/// one set are moved to a new vertex, in the order that they had, genus zero stays. Either set may be
/// empty, and the list of the vertex may change from the one to the other any number of times.
/// Constant time.
pub fn split_off_keeps_genus_zero()
    ensures { (r : System) → IsRotation r → (u : ℕ) → u < r.vertices → (takes : ℕ → Bool) → MeetAt r u takes
        → IsRotation (split_off r u takes) × (HasGenusZero r → HasGenusZero (split_off r u takes)) }
{}

/// The same split has genus zero exactly where the restrictions to each of the two sets of edges have.
/// Constant time.
pub fn split_off_has_genus_of_parts()
    ensures { (r a b : System) → IsRotation r → IsRotation a → IsRotation b
        → (u : ℕ) → u < r.vertices → (takes : ℕ → Bool) → MeetAt r u takes
        → (number_left original_left number_taken original_taken : ℕ → ℕ)
        → IsRestricted r a (λ e. not (takes e)) number_left original_left
        → IsRestricted r b takes number_taken original_taken
        → (HasGenusZero (split_off r u takes) ↔ (HasGenusZero a × HasGenusZero b)) }
{}

/// Where moreover the darts of the one set stand one behind the other at the vertex at which the two
/// sets meet, the split has genus zero exactly where the system has, so that the system has genus zero
/// exactly where its restrictions to each of the two sets have. Constant time.
pub fn run_keeps_genus()
    ensures split { (r : System) → IsRotation r → (u : ℕ) → u < r.vertices → (takes : ℕ → Bool) → MeetAt r u takes → IsRunAtVertex r u takes
        → (HasGenusZero r ↔ HasGenusZero (split_off r u takes)) }
    ensures parts { (r a b : System) → IsRotation r → IsRotation a → IsRotation b
        → (u : ℕ) → u < r.vertices → (takes : ℕ → Bool) → MeetAt r u takes → IsRunAtVertex r u takes
        → (number_left original_left number_taken original_taken : ℕ → ℕ)
        → IsRestricted r a (λ e. not (takes e)) number_left original_left
        → IsRestricted r b takes number_taken original_taken
        → (HasGenusZero r ↔ (HasGenusZero a × HasGenusZero b)) }
{}

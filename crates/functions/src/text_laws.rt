//! Laws over the functions on texts, each the contract of a function without a body.
ghost use Rattle.std.specs.Prelude.{◌≡◌, ℕ, pos, ◌+◌, ◌≤◌, ◌<◌, IsTrue, List, [], ◌∷◌, length};
ghost use Rattle.std.specs.Str.{chars};
ghost use Rattle.cell_values.specs.Coercion.{join_of};
ghost use Rattle.cell_values.specs.Text.{is_text};
ghost use Rattle.cell_values.specs.declared.errors.ErrorKind.TheVariants as errors;
ghost use Rattle.cell_values.specs.declared.values.Value.TheVariants as values;
ghost use Rattle.functions.specs.declared.arguments.Arg.TheVariants.{Direct};
ghost use Rattle.functions.specs.TextLaws.{text_argument, number_argument, StandsIn, IsLeastPlace};
ghost use Rattle.functions.specs.Texts.{left_of, mid_of, trim_of, find_of};

/// LEFT gives the front of a text, and MID from there on the rest.
pub fn left_and_mid_join_to_the_text()
    ensures { (t : List ℕ) (n k : ℕ) → IsTrue (is_text t) → length (chars t) ≤ n + k
        → join_of (left_of (text_argument t ∷ number_argument n ∷ []))
        (mid_of (text_argument t ∷ number_argument (n + 1) ∷ number_argument k ∷ []))
        ≡ values.Text t }
{}

/// TRIM leaves what it gave as it is.
pub fn trim_is_idempotent()
    ensures { (t : List ℕ) → IsTrue (is_text t)
        → trim_of (Direct (trim_of (text_argument t ∷ [])) ∷ []) ≡ trim_of (text_argument t ∷ []) }
{}

/// FIND gives the least place, and `#VALUE!` only where there is none.
pub fn find_gives_the_least_place()
    ensures least { (p t : List ℕ) (n place : ℕ) → IsTrue (is_text t)
        → find_of (text_argument p ∷ text_argument t ∷ number_argument n ∷ [])
        ≡ values.Num (pos place) → IsLeastPlace p t n place }
    ensures none { (p t : List ℕ) (n place : ℕ) → IsTrue (is_text t) → 0 < n
        → find_of (text_argument p ∷ text_argument t ∷ number_argument n ∷ [])
        ≡ values.Error errors.Value → n ≤ place → ¬ (StandsIn p t place) }
{}

//! Laws over the definitions, each the contract of a function without a body.

ghost use Rattle.std.specs.Prelude.{◌≡◌, ◌↔◌, ℕ, List, Ok, Err};
ghost use Rattle.addin_types.specs.declared.registrations.Registration.{Registration};
ghost use Rattle.addin_types.specs.declared.type_faults.TypeFault.{TypeFault};
ghost use Rattle.addin_types.specs.TypeText.{IsFaultOf, IsRegistration, registration_in, type_text};

/// A registration that is written reads back, whatever is read is one with this text, and no two are written alike.
pub fn each_registration_has_its_text()
    ensures back { (r : Registration) → IsRegistration r → registration_in (type_text r) ≡ Ok r }
    ensures read { (text : List ℕ) (r : Registration) → registration_in text ≡ Ok r
        → (text ≡ type_text r) × IsRegistration r }
    ensures one { (a b : Registration) → IsRegistration a → IsRegistration b
        → type_text a ≡ type_text b → a ≡ b }
{}

/// Each fault stands exactly where its cause does.
pub fn each_fault_has_its_cause()
    ensures { (text : List ℕ) (fault : TypeFault)
        → (registration_in text ≡ Err fault) ↔ IsFaultOf fault text }
{}

//! Laws of payloads. Each function does nothing: its contract is the law.

ghost use Rattle.std.specs.Prelude.{◌≡◌, ◌↔◌, IsTrue};
ghost use Rattle.strm_codes.specs.Sameness.{same_payload};
ghost use Rattle.strm_codes.specs.declared.payloads.Payload.{Payload};

/// Two payloads are one type exactly where they are equal.
pub fn same_payloads_are_equal()
    ensures { (a b : Payload) → IsTrue (same_payload a b) ↔ a ≡ b }
{}

//! What holds of the text of every certificate.
ghost use Rattle.std.specs.Prelude.{◌≡◌, ℕ, List, None};
ghost use Rattle.certificate.specs.Parts.{first_wrong, text_parts};
ghost use Rattle.certificate.specs.Text.{json};
ghost use Rattle.certificate.specs.Holds.{Holds};
ghost use Rattle.certificate.specs.Limits.{IsWithin};
ghost use Rattle.certificate.specs.declared.types.Certificate.{Certificate};

/// The text of a certificate whose amounts are below 2^120 and whose other numbers are below 2^32 holds it.
pub fn text_holds_its_certificate()
    ensures { (certificate : Certificate) → IsWithin certificate
        → Holds (json certificate) certificate }
{}

/// A text holds one certificate at most, and a text that holds one has no wrong part.
pub fn one_answer()
    ensures one { (bytes : List ℕ) (one other : Certificate) → Holds bytes one → Holds bytes other → one ≡ other }
    ensures right { (bytes : List ℕ) (certificate : Certificate) → Holds bytes certificate → first_wrong (text_parts bytes) ≡ None }
{}

// Laws on the grammar.
ghost use Rattle.std.specs.Prelude.{◌≡◌, ◌↔◌, List, ℕ, Ok, None};
ghost use Rattle.cert_text.specs.CertReading.{cert_at, first_fault};
ghost use Rattle.cert_text.specs.CertText.{CertText};
ghost use Rattle.cert_text.specs.declared.cert.Cert.{Cert};

/// A text is that of at most one certificate, and a certificate has at most one text. Reading answers the certificate exactly
/// where the text is in the grammar, and a text without a fault is in it.
pub fn a_certificate_has_one_text()
    ensures cert { (text : List ℕ) (x y : Cert) → CertText text x → CertText text y → x ≡ y }
    ensures text { (s t : List ℕ) (x : Cert) → CertText s x → CertText t x → s ≡ t }
    ensures read { (text : List ℕ) (x : Cert) → (cert_at text ≡ Ok x) ↔ CertText text x }
    ensures fault { (text : List ℕ) → (first_fault text ≡ None) ↔ ((x : Cert) × CertText text x) }
{}

// The verdict on a certificate.
ghost use Rattle.std.specs.Prelude.{◌≡◌, ◌↔◌, ℕ, IfOk};
ghost use Rattle.cert_text.specs.CertText.{IsPrintable};
ghost use Rattle.margin_check.specs.Meanings.{ClaimIsTrue};
ghost use Rattle.margin_check.specs.Validity.{IsValidCert};
ghost use Rattle.margin_check.specs.Verdicts.{IsRefusal};
ghost use Rattle.margin_check.specs.declared.verdict.Reason.{Reason as AReason};
ghost use Rattle.margin_check.specs.declared.verdict.Verdict.TheVariants.{No, Valid};

use crate::judge::judge;
use crate::verdict::Verdict;
use ballot_form::Contest;
use cert_text::Cert;
use mov_base::Memory;
use std::alloc::Global;

/// The verdict on a certificate for a contest, whoever made it. It is valid where all parts of validity hold, and what
/// it claims is then so; otherwise the first part that fails is told with its line, from 1.
pub fn check(alloc: Global, contest: &Contest, cert: &Cert) -> Result<Verdict, Memory>
    requires printable { IsPrintable cert.now }
    ensures valid { IfOk result (λ verdict. (verdict ≡ Valid) ↔ IsValidCert contest.now.roll cert.now) }
    ensures refused { IfOk result (λ verdict. (reason : AReason) (line : ℕ) →
        (verdict ≡ No reason line) ↔ IsRefusal contest.now.roll cert.now reason line) }
    ensures claim { IfOk result (λ verdict. verdict ≡ Valid → ClaimIsTrue contest.now.roll cert.now) }
{
    let _ = contest.roll.candidates();
    judge(alloc, &contest.roll, cert)
}

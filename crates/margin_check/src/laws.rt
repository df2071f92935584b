// What follows from the definitions.
ghost use Rattle.std.specs.Prelude.{◌≡◌, ◌↔◌, ℕ, All, map, slice_get};
ghost use Rattle.ballot_form.specs.Ballots.{IsPoll, Poll};
ghost use Rattle.bound_tree.specs.Nodes.{nodes_of};
ghost use Rattle.bound_tree.specs.Plain.{Plain};
ghost use Rattle.goal_rows.specs.Elections.{Election, Node};
ghost use Rattle.cert_text.specs.CertText.{IsPrintable};
ghost use Rattle.cert_text.specs.declared.cert.Cert.{Cert as ACert};
ghost use Rattle.margin_check.specs.Meanings.{ClaimIsTrue};
ghost use Rattle.tree_proofs.specs.Proving.{Proves};
ghost use Rattle.margin_check.specs.Proving.{IsProof, IsShaped};
ghost use Rattle.margin_check.specs.Validity.{IsValidCert};
ghost use Rattle.margin_check.specs.Verdicts.{IsFirstWithout, Judges};
ghost use Rattle.margin_check.specs.Visits.{visits};
ghost use Rattle.margin_check.specs.declared.verdict.Verdict.{Verdict as AVerdict};

/// The nodes of a tree have their shapes and its cuts pass at `t` exactly where it proves `t`.
pub fn shape_and_cuts_are_a_proof()
    ensures { (e : Election) (t : ℕ) (node : Node) (tree : Plain) → IsProof e t node tree ↔ Proves e t node tree }
{}

/// The nodes that are judged are those of the tree in preorder, up to the first one that hasn't its shape: its place
/// among them is its number in the tree, and where all have their shape they are all of its nodes.
pub fn visits_are_the_nodes_in_preorder()
    ensures all { (e : Election) (node : Node) (tree : Plain) →
        All (λ visit. IsShaped e visit.node visit.tree) (visits e node tree) →
        map (λ visit. visit.tree) (visits e node tree) ≡ nodes_of tree }
    ensures first { (e : Election) (node : Node) (tree : Plain) (place : ℕ) →
        IsFirstWithout (λ visit. IsShaped e visit.node visit.tree) (visits e node tree) place →
        slice_get (map (λ visit. visit.tree) (visits e node tree)) place ≡ slice_get (nodes_of tree) place }
{}

/// There is one verdict on a certificate: it is valid, or refused for one reason, in one line.
pub fn a_verdict_is_one()
    ensures { (p : Poll) (cert : ACert) (verdict other : AVerdict) →
        Judges p cert verdict → Judges p cert other → verdict ≡ other }
{}

/// What a valid certificate claims is so, whoever made it.
pub fn a_valid_certificate_is_true()
    ensures { (p : Poll) (cert : ACert) → IsPoll p → IsPrintable cert → IsValidCert p cert → ClaimIsTrue p cert }
{}

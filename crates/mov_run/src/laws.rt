// What follows from the definitions.
ghost use Rattle.std.specs.Prelude.{◌≡◌, ℕ, List};
ghost use Rattle.ballot_csv.specs.BallotFile.{NamedPoll};
ghost use Rattle.ballot_form.specs.declared.rule.Rule.{Rule as ARule};
ghost use Rattle.mov_run.specs.Tally.{IsTally};

/// A contest has one tally under a rule.
pub fn a_tally_is_one_text()
    ensures { (rule : ARule) (k : NamedPoll) (text other : List ℕ) → IsTally rule k text → IsTally rule k other →
        text ≡ other }
{}

// The rules, and their names.
ghost use Rattle.std.specs.Prelude.{◌≡◌, bytes_eq};
ghost use Rattle.ballot_form.specs.Rules.{name_of_rule, name_of_text, text_of_name};

/// A voting rule.
#[derive(Clone, Copy, Debug, PartialEq, Eq)]
pub enum Rule {
    /// The most first preferences win.
    Plurality,
    /// The greatest sum of points by place wins.
    Borda,
    /// Who beats all others one by one wins.
    Condorcet,
    /// So many seats, 1 to 500, go to the highest quotients.
    Dhondt(u16),
    /// The candidate with the least count goes out, round by round.
    Irv,
}

/// The name of a rule, without a number of seats.
#[derive(Clone, Copy, Debug, PartialEq, Eq)]
pub enum RuleName {
    /// `plurality`
    Plurality,
    /// `borda`
    Borda,
    /// `condorcet`
    Condorcet,
    /// `dhondt`
    Dhondt,
    /// `irv`
    Irv,
}

impl Rule {
    /// The name of the rule.
    pub fn name(self) -> RuleName
        ensures { result ≡ name_of_rule self }
    {
        match self {
            Rule::Plurality => RuleName::Plurality,
            Rule::Borda => RuleName::Borda,
            Rule::Condorcet => RuleName::Condorcet,
            Rule::Dhondt(_) => RuleName::Dhondt,
            Rule::Irv => RuleName::Irv,
        }
    }
}

impl RuleName {
    /// The text that stands for the rule.
    pub fn text(self) -> &'static str
        ensures { result.now ≡ text_of_name self }
    {
        match self {
            RuleName::Plurality => "plurality",
            RuleName::Borda => "borda",
            RuleName::Condorcet => "condorcet",
            RuleName::Dhondt => "dhondt",
            RuleName::Irv => "irv",
        }
    }

    /// The rule that the text names, if it names one.
    pub fn named(text: &[u8]) -> Option<RuleName>
        ensures { result ≡ name_of_text text.now }
    {
        if RuleName::Plurality.is_text(text) {
            Some(RuleName::Plurality)
        } else if RuleName::Borda.is_text(text) {
            Some(RuleName::Borda)
        } else if RuleName::Condorcet.is_text(text) {
            Some(RuleName::Condorcet)
        } else if RuleName::Dhondt.is_text(text) {
            Some(RuleName::Dhondt)
        } else if RuleName::Irv.is_text(text) {
            Some(RuleName::Irv)
        } else {
            None
        }
    }

    /// Whether the text stands for the rule.
    fn is_text(self, text: &[u8]) -> bool
        ensures { result ≡ bytes_eq text.now (text_of_name self) }
    {
        text == self.text().as_bytes()
    }
}

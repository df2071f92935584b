// Rules as the words name them.
ghost use Rattle.std.specs.Prelude.{◌≡◌, IfOk, option_map};
ghost use Rattle.ballot_form.specs.Rules.{IsRule, name_of_text};
ghost use Rattle.mov_words.specs.Numbers as numbers;
ghost use Rattle.mov_words.specs.Words as words;

use crate::fault::WordFault;
use crate::numbers::seats_named;
use ballot_form::{Rule, RuleName};

/// The rule that a text names, with the seats that another names, if there is one.
pub(crate) fn rule_of(name: &str, seats: Option<&str>) -> Result<Rule, WordFault>
    ensures value { result ≡ words.rule_of (name_of_text name.now) (option_map (λ s. s.now) seats.entry) }
    ensures lawful { IfOk result IsRule }
{
    let name = RuleName::named(name.as_bytes());
    match seats {
        Some(seats) => rule_with(name, seats),
        None => rule_alone(name),
    }
}

/// The rule of this name, where no seats are named.
fn rule_alone(name: Option<RuleName>) -> Result<Rule, WordFault>
    ensures value { result ≡ words.rule_alone name }
    ensures lawful { IfOk result IsRule }
{
    match name {
        Some(RuleName::Plurality) => Ok(Rule::Plurality),
        Some(RuleName::Borda) => Ok(Rule::Borda),
        Some(RuleName::Condorcet) => Ok(Rule::Condorcet),
        Some(RuleName::Dhondt) => Err(WordFault::SeatsMissing),
        Some(RuleName::Irv) => Ok(Rule::Irv),
        None => Err(WordFault::UnknownRule),
    }
}

/// The rule of this name with the seats that are named.
fn rule_with(name: Option<RuleName>, seats: &str) -> Result<Rule, WordFault>
    ensures value { result ≡ words.rule_with name (numbers.seats_named seats.now) }
    ensures lawful { IfOk result IsRule }
{
    match (name, seats_named(seats)) {
        (None, _) => Err(WordFault::UnknownRule),
        (Some(_), None) => Err(WordFault::BadSeats),
        (Some(RuleName::Dhondt), Some(seats)) => Ok(Rule::Dhondt(seats)),
        (Some(_), Some(_)) => Err(WordFault::SeatsUnwanted),
    }
}

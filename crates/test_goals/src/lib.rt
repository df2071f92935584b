//! Tests of goals, their rows, the cut test and the replacements with which a search begins, on small contests. It has no
//! code of its own.
#![tactic(auto)]

#[cfg(test)]
mod cells;
#[cfg(test)]
mod cuts;
#[cfg(test)]
mod goals;
#[cfg(test)]
mod rolls;
#[cfg(test)]
mod starts;

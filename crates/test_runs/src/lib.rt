//! Tests of whole runs: words, a ballot file and perhaps a certificate in, a text and a status out, byte for byte. It has no code of
//! its own.
#![tactic(auto)]

#[cfg(test)]
mod checks;
#[cfg(test)]
mod margins;
#[cfg(test)]
mod runs;
#[cfg(test)]
mod tallies;

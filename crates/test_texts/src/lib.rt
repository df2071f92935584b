//! Tests of the crates of texts: the ballot file, lines, certificates and the words of the command line. Worked
//! texts, tables of what is read and of what is wrong with it, and each public call once on its happy path. It has no
//! code of its own.
#![tactic(auto)]

#[cfg(test)]
mod ballot_files;
#[cfg(test)]
mod certificates;
#[cfg(test)]
mod fault_texts;
#[cfg(test)]
mod lines;
#[cfg(test)]
mod made;
#[cfg(test)]
mod words;

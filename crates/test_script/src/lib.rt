//! Each line form in each spelling with its canonical text, lines outside the grammar, and a script that is cut at each byte.
#![tactic(auto)]

#[cfg(test)]
mod generated;
#[cfg(test)]
mod lines;
#[cfg(test)]
mod text;

//! Both boards: the one in memory against rows that were worked by hand and against a plain model, and the one over files
//! against fresh files, files that are no board, and files that are opened again.
#![tactic(auto)]

#[cfg(test)]
mod file;
#[cfg(test)]
mod loss;
#[cfg(test)]
mod memory;
#[cfg(test)]
mod rows;

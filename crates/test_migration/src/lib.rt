//! Openings of boards that hold an image of the first version: what is found behind one, each of its calls stopped, and what is
//! refused. The images are written by `test_old_image`.
#![tactic(auto)]

#[cfg(test)]
mod images;
#[cfg(test)]
mod kept;
#[cfg(test)]
mod migrated;
#[cfg(test)]
mod refused;
#[cfg(test)]
mod reopened;

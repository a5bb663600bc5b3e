//! Headers on boards in memory, against what an independent implementation of HMAC computed, and each answer of the
//! opening rule.
#![tactic(auto)]

#[cfg(test)]
mod counters;
#[cfg(test)]
mod headers;

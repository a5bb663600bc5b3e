//! The names of regions.

use tee_base::limits::MAX_HOSTS;

/// What each region is called: by the host that has it, or by its number. These are the hosts that `teectl` hands in.
const NAMES: [&str; MAX_HOSTS] = [
    "vault", "twin", "keep", "tally", "cipher", "rogue", "6", "7", "8", "9", "10", "11", "12",
    "13", "14", "15",
];

/// What a region is called.
pub fn name_of(region: u64) -> &'static str {
    match NAMES.get(region as usize) {
        Some(name) => name,
        None => "none",
    }
}

/// The region of this name or number, below 16.
pub fn region_of(word: &str) -> Option<u8> {
    for (region, name) in NAMES.iter().enumerate() {
        if *name == word {
            return Some(region as u8);
        }
    }
    word.parse::<u8>().ok()
}

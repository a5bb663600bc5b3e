//! The blocks of the two slots, and their gates.
ghost use Rattle.std.specs.Prelude.{◌≡◌, ◌<◌, ◌%◌, ◌==◌};
ghost use Rattle.std.specs.List.{list_all};
ghost use Rattle.epoch.specs.Gates.{gate_at, header_at, gate_open};

use board::BLOCK;

/// The byte that an open gate is full of.
pub const OPEN: u8 = 0xA5;

/// The block of an open gate.
pub const OPEN_GATE: [u8; BLOCK] = [OPEN; BLOCK];

/// The block of a gate that was shut.
pub const SHUT_GATE: [u8; BLOCK] = [0; BLOCK];

/// The slot of a sequence.
pub fn slot_for(sequence: u64) -> u8
    ensures slot { result ≡ sequence % 2 }
    ensures below { result < 2 }
{
    (sequence % 2) as u8
}

/// The block of a slot's gate.
pub fn gate_block(slot: u8) -> u64
    requires { slot < 2 }
    ensures { result ≡ gate_at slot }
{
    2 * u64::from(slot)
}

/// The block of a slot's header.
pub fn header_block(slot: u8) -> u64
    requires { slot < 2 }
    ensures { result ≡ header_at slot }
{
    2 * u64::from(slot) + 1
}

/// Whether a gate block is open.
pub fn is_open(gate: &[u8; 1024]) -> bool
    ensures { result ≡ gate_open gate.now }
{
    all_open(gate)
}

fn all_open(bytes: &[u8]) -> bool
    ensures { result ≡ list_all (λ byte. byte == OPEN) bytes.now }
{
    bytes.iter().all(|byte| *byte == OPEN)
}

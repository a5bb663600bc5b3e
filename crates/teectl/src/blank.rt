//! A blank board in memory.

ghost use Rattle.std.specs.Prelude.{◌≤◌, ℕ, IfOk, replicate};
ghost use Rattle.tee_base.specs.declared.limits.TheConstants.{BOARD_BLOCKS, MAX_HOSTS};
ghost use Rattle.boards.specs.Memory.{IsNew};
ghost use Rattle.boards.specs.MemoryBoard.{memory_of, view_of};
ghost use Rattle.store_api.specs.Stores.{empty_store};
ghost use Rattle.tee_core.specs.InUse.{form_in_use};
ghost use Rattle.run_board.specs.Boards.{BeginsWith};

use boards::MemBoard;
use std::alloc::Global;
use tee_base::{NoMemory, limits};
use tee_top::blank_boards_begin;

/// The key of a blank board.
const BLANK_KEY: [u8; 32] = [0; 32];

/// The seed of random bytes over a blank board.
pub const BLANK_SEED: [u8; 32] = [0; 32];

/// A blank board in memory, of the size of a volume: over it a run and a race have what they say over a sound board with empty stores.
pub fn blank_board(alloc: Global) -> Result<MemBoard, NoMemory>
    ensures begins { IfOk result (λ board. (hosts : ℕ) → hosts ≤ MAX_HOSTS
        → BeginsWith form_in_use (view_of board) hosts (λ app. empty_store)) }
    ensures zeros { IfOk result (λ board. IsNew (replicate 32 0) BOARD_BLOCKS 0 (memory_of board)) }
{
    blank_boards_begin();
    MemBoard::blank(alloc, BLANK_KEY, limits::BOARD_BLOCKS)
}

//! Boards that nothing was written to.

ghost use Rattle.std.specs.Prelude.{◌≡◌, ◌≤◌, ◌<◌, ℕ, replicate};
ghost use Rattle.tee_base.specs.declared.limits.TheConstants.{BLOCK_BYTES, BOARD_BLOCKS, MAX_HOSTS};
ghost use Rattle.board.specs.Moment.{View};
ghost use Rattle.board.specs.Runs.{Rests};
ghost use Rattle.store_api.specs.Stores.{empty_store};
ghost use Rattle.tee_core.specs.InUse.{form_in_use};
ghost use Rattle.run_board.specs.Boards.{BeginsWith};

use region_plan::region_laws;

/// A board at rest with the blocks of a volume, all of them zeros, and with the counter 0 is one over which a run begins with
/// empty stores. It does nothing.
pub fn blank_boards_begin()
    ensures { (view : View) (hosts : ℕ) → Rests 0 view.state → BOARD_BLOCKS ≤ view.size
        → ((k : ℕ) → k < BOARD_BLOCKS → view.state.reads k ≡ replicate BLOCK_BYTES 0)
        → hosts ≤ MAX_HOSTS → BeginsWith form_in_use view hosts (λ app. empty_store) }
{
    region_laws();
}

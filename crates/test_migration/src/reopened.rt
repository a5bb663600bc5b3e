//! Reopenings and losses of power of a board that lost what it acknowledged: they find an image of the first version again, and
//! take it over.

use super::images::{BLOCKS, SEQUENCE, board_of, sixteen};
use super::migrated::{PICK, is_taken_over};
use boards::MemBoard;
use epoch::{BoardVolume, OpenAnswer, Reopened};
use std::alloc::Global;
use std::process::Abort;
use std::test::Fail;
use test_old_image::Forgetful;
use tree_volume::TreeVolume;

/// A volume over a board that forgets.
type OnForgetful = TreeVolume<Forgetful<MemBoard>>;

/// More calls than a test makes.
const MANY: u32 = 1_000_000;

/// What is told of the image where it is found, and where it was taken over before.
const OLD: Result<Reopened, OpenAnswer> = Ok(Reopened {
    sequence: SEQUENCE,
    rewritten: true,
});

const NEXT: Result<Reopened, OpenAnswer> = Ok(Reopened {
    sequence: SEQUENCE + 1,
    rewritten: false,
});

/// A board with the image of sixteen objects.
fn old_board(alloc: Global) -> Result<MemBoard, Fail> {
    board_of(alloc, &sixteen(alloc)?, BLOCKS, SEQUENCE)
}

/// The board, opened.
fn opened(alloc: Global, board: Forgetful<MemBoard>) -> Result<OnForgetful, Fail> {
    match TreeVolume::open(alloc, board) {
        Ok(volume) => Ok(volume),
        Err(unopened) => {
            let why = unopened.why;
            drop(unopened);
            Err(why.into())
        }
    }
}

/// A volume that took the image over, and whose board then has it again.
fn forgotten(rt: &impl Abort, alloc: Global) -> Result<OnForgetful, Fail> {
    let board = Forgetful::of(old_board(alloc)?, old_board(alloc)?);
    let mut volume = opened(alloc, board)?;
    assert!(rt; volume.reopen() == NEXT);
    volume.fuse(MANY);
    Ok(volume)
}

#[test]
fn a_reopening_takes_an_image_over(rt: HostRuntime) -> Result<(), Fail> {
    let mut volume = forgotten(&rt, rt.alloc())?;
    assert!(&rt; volume.reopen() == OLD);
    assert!(&rt; volume.reopen() == NEXT);
    drop(is_taken_over(&rt, rt.alloc(), volume, 16));
    Ok(())
}

#[test]
fn a_loss_of_power_takes_an_image_over(rt: HostRuntime) -> Result<(), Fail> {
    let mut volume = forgotten(&rt, rt.alloc())?;
    assert!(&rt; volume.power(PICK) == OLD);
    assert!(&rt; volume.power(PICK) == NEXT);
    drop(is_taken_over(&rt, rt.alloc(), volume, 16));
    Ok(())
}

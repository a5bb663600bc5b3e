//! How the runtime is opened over a board.

ghost use Rattle.std.specs.Prelude.{◌≡◌, ◌<◌, ◌≤◌, ◌⊎◌, ℕ, IfErr, IfOk, IsTrue, Some, length};
ghost use Rattle.app_api.specs.Hosts.{HostsFit};
ghost use Rattle.store_api.specs.Volumes.{Held};
ghost use Rattle.board.specs.Moment.{IsCounter};
ghost use Rattle.board.specs.Runs.{Rests};
ghost use Rattle.epoch.specs.Forms.{held_in};
ghost use Rattle.epoch.specs.Mounts.{HandsBack, HandsBackByRule, IsAdmitted, IsFound, IsKeptFromOpening, IsRefusal, IsRefusalOver, LeavesOpening};
ghost use Rattle.epoch.specs.declared.mounts.TheConstants.{FORMATTED};
ghost use Rattle.shared_tee.specs.Making.{BeginsOver, ComesOut, IsOpenedOn};

use crate::beginning::Room;
use crate::making::begin_over;
use crate::pass::Pass;
use crate::shared::SharedTeeOver;
use app_api::{Application, Host};
use board::Board;
use epoch::{BoardVolume, OpenAnswer, Unopened};
use std::alloc::Global;
use store_api::Volume;
use tee_core::VolumeInUse;

/// The runtime over the volume in use.
pub type SharedTee<B, A> = SharedTeeOver<VolumeInUse<B>, A>;

impl<V: Volume, A: Application> SharedTeeOver<V, A> {
    /// Applications that have run nothing, over the objects of a board; one that is blank is formatted, and a volume of an older
    /// version is taken over with its objects. The passes are by application and then by client, of whom each application has
    /// eight.
    ///
    /// # Errors
    ///
    /// As the opening of the volume, and `NoMemory`. The board is handed back, and the hosts are dropped. Where memory lacked
    /// for the cells, the board was opened already: then it may have been formatted, and where its image was sound, each thing
    /// that a crash may leave of it still has the stores that were opened.
    pub fn new<B: Board>(
        alloc: Global,
        board: B,
        hosts: Vec<Host<A>>,
        seed: [u8; 32],
    ) -> Result<(SharedTeeOver<V, A>, Vec<Pass<V, A>>), Unopened<B>>
    where
        V: BoardVolume<B>,
        requires { HostsFit hosts.items }
        // each application begins over the store of its region, and the mark is set over a sound image of an honest board at rest
        ensures begun { IfOk result (λ made. (volume : V)
            × BeginsOver V.keeper hosts.items seed made.0 made.1.items volume
            × IsOpenedOn V.keeper V.form (λ k. (3 < k) × V.untouched k) B.honest B.view V.board_of
            board (length hosts.items) volume) }
        // a refusal hands the board back, as its calls left it; or the board was opened, and there was no memory for cells
        ensures back { IfErr result (λ u. HandsBack u.why (B.view board) (B.view u.board)
            ⊎ ComesOut V.keeper V.form (λ k. (3 < k) × V.untouched k) B.honest B.view V.board_of A
            board (length hosts.items) u.why u.board) }
        ensures honest_back { B.honest board → IfErr result (λ u. B.honest u.board
            × (HandsBackByRule V.form (λ k. (3 < k) × V.untouched k) u.why
            (B.view board) (B.view u.board)
            ⊎ ComesOut V.keeper V.form (λ k. (3 < k) × V.untouched k) B.honest B.view V.board_of A
            board (length hosts.items) u.why u.board)) }
        // whatever the board: by the rule over what it tells, at some counter; what is refused of the leaves behind the
        // header is by what the board that is handed back tells
        ensures rule { IsTrue B.tells_reads → (counter : ℕ)
            × IfErr result (λ u. IsRefusalOver V.form (B.view board)
            (B.view u.board).state.reads counter u.why)
            × IfOk result (λ made. (volume : V)
            × BeginsOver V.keeper hosts.items seed made.0 made.1.items volume
            × IsFound V.form (B.view board) (B.view board).state.reads counter FORMATTED
            (V.keeper.held volume).sequence (V.root volume)) }
        ensures exact { B.honest board → (counter : ℕ) × IsCounter (B.view board).state counter
            × IfErr result (λ u. IsRefusal V.form (B.view board)
            (B.view board).state.reads counter u.why)
            × IfOk result (λ made. (volume : V)
            × BeginsOver V.keeper hosts.items seed made.0 made.1.items volume
            × IsAdmitted V.form (B.view board) (B.view board).state.reads counter FORMATTED
            (V.keeper.held volume).sequence (V.root volume)) }
        ensures unopened { B.honest board → (n : ℕ) (h : Held) → Rests n (B.view board).state
            → V.form.blocks ≤ (B.view board).size
            → held_in V.form (B.view board).key (B.view board).state.reads n ≡ Some h
            → IfErr result (λ u. IsKeptFromOpening u.why
            × (LeavesOpening V.form h (B.view board) (B.view u.board)
            ⊎ ComesOut V.keeper V.form (λ k. (3 < k) × V.untouched k) B.honest B.view V.board_of A
            board (length hosts.items) u.why u.board)) }
    {
        let Ok(room) = Room::new(alloc, hosts, seed) else {
            return Err(Unopened {
                board,
                why: OpenAnswer::NoMemory,
            });
        };
        let volume = V::open(alloc, board)?;
        match begin_over(alloc, volume, room) {
            Ok(made) => Ok(made),
            Err(volume) => Err(Unopened {
                board: volume.into_board(),
                why: OpenAnswer::NoMemory,
            }),
        }
    }
}

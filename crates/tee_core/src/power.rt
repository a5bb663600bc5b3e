//! The board beside the applications: opening, a fuse, a loss of power, and the board handed back.

ghost use Rattle.std.specs.Prelude.{◌≡◌, ◌≢◌, ◌≤◌, ◌<◌, ◌+◌, ◌-◌, ◌^◌, ℕ, Err, IfErr, IfOk, IsTrue, OnErr, OnOk, Some, false, true, length};
ghost use Rattle.app_api.specs.Hosts.{HostsFit};
ghost use Rattle.tee_base.specs.Crash.{LeavesOnly};
ghost use Rattle.tee_base.specs.Faults.{Rose};
ghost use Rattle.tee_base.specs.declared.limits.TheConstants.{MAX_HOSTS};
ghost use Rattle.store_api.specs.Stores.{Store};
ghost use Rattle.store_api.specs.Volumes.{Held};
ghost use Rattle.board.specs.Moment.{IsCounter};
ghost use Rattle.board.specs.Runs.{Rests};
ghost use Rattle.board.specs.Fuse.{fuse_after_set};
ghost use Rattle.board.specs.Steps.{Passes, SameBlocks, Unchanged};
ghost use Rattle.epoch.specs.Forms.{held_in};
ghost use Rattle.epoch.specs.Mounts.{HandsBack, HandsBackByRule, IsAdmitted, IsFound, IsKeptFromOpening, IsRefusal, IsRefusalOver, LeavesOpening, LosesPower, LosesPowerByRule, OpensHonestly, OrderRun};
ghost use Rattle.epoch.specs.Opening.{is_no_failure, no_failure};
ghost use Rattle.epoch.specs.Past.{KeepsPast};
ghost use Rattle.epoch.specs.declared.mounts.TheConstants.{FORMATTED};
ghost use Rattle.epoch.specs.declared.answer.OpenAnswer.TheVariants as answers;
ghost use Rattle.tee_core.specs.Moments.{IsWithin};
ghost use Rattle.tee_core.specs.Opening.{IsOpenedOver, IsSoundFor};
ghost use Rattle.tee_core.specs.Powers.{all_lost, kept_by, kept_one, shows_unwritten, told_of};
ghost use Rattle.tee_core.specs.Stepping.{ComesBack, HasBegun, KeepsTurns, Restarts};
ghost use Rattle.tee_core.specs.Represents.{boots_of, volume_of, Represents};
ghost use Rattle.tee_core.specs.Sides.{AreBooted, AreLost, AreSides};
ghost use Rattle.tee_core.specs.World.{World, world_of};

use crate::directories::Directories;
use crate::sides::{lose_all, owner_of_doubt, restart_all};
use crate::tee::TeeOver;
use alone::Power;
use app_api::{Application, Host};
use app_side::AppSide;
use board::Board;
use epoch::{BoardVolume, OpenAnswer, Unopened};
use std::alloc::Global;
use std::collections::VecDeque;
use std::marker::PhantomData;
use tee_base::NoMemory;

/// The hosts' applications, none of which has run anything yet.
#[inline(never)]
fn start_all<A: Application>(
    alloc: Global,
    hosts: Vec<Host<A>>,
    seed: [u8; 32],
) -> Result<Vec<AppSide<A>>, NoMemory>
    requires { length hosts.items ≤ MAX_HOSTS }
    ensures world { IfOk result (λ sides. (stores : ℕ → Store)
        → AreSides sides.items (world_of hosts.items seed stores)) }
    ensures lost { IfOk result (λ sides. AreLost false sides.items) }
    ensures booted { IfOk result (λ sides. AreBooted 0 sides.items) }
    ensures count { IfOk result (λ sides. length sides.items ≡ length hosts.items) }
{
    let mut rest = VecDeque::from(hosts);
    let mut sides = Vec::new(alloc);
    while let Some(host) = rest.pop_front() {
        let index = sides.len() as u8;
        sides.push(AppSide::new(alloc, host, index, seed)?)?;
    }
    Ok(sides)
}

/// What became of the change in doubt.
fn power_of(owner: Option<u8>, kept: bool) -> Power
    ensures { result ≡ told_of owner kept }
{
    match owner {
        None => Power::Clean,
        Some(owner) => {
            if kept {
                Power::Kept(owner)
            } else {
                Power::Absent(owner)
            }
        }
    }
}

/// The application whose change in doubt is kept.
fn owner_kept(owner: Option<u8>, kept: bool) -> Option<u8>
    ensures { kept_one result ≡ kept_by (told_of owner kept) }
{
    match owner {
        None => None,
        Some(owner) => { if kept { Some(owner) } else { None } }
    }
}

impl<B: Board, V: BoardVolume<B>, A: Application> TeeOver<B, V, A> {
    /// Applications that have run nothing, over the objects of a board; one that is blank is formatted, and a volume of an older
    /// version is taken over with its objects.
    ///
    /// # Errors
    ///
    /// As the opening of the volume, and `NoMemory`. The board is handed back, and the hosts are dropped.
    pub fn open(
        alloc: Global,
        board: B,
        hosts: Vec<Host<A>>,
        seed: [u8; 32],
    ) -> Result<TeeOver<B, V, A>, Unopened<B>>
        requires { HostsFit hosts.items }
        // over a board at rest with a sound image it begins with the stores of the image
        ensures world { B.honest board → (n : ℕ) (h : Held) (stores : ℕ → Store)
            → Rests n (B.view board).state → V.form.blocks ≤ (B.view board).size
            → IsSoundFor V.form (B.view board) n h (length hosts.items) stores
            → IfOk result (λ tee. Represents tee (world_of hosts.items seed stores)
            × LeavesOpening V.form h (B.view board) (B.view (V.board_of (volume_of tee)))) }
        ensures opened { IfOk result (λ tee.
            IsOpenedOver true (B.view board) (B.view (V.board_of (volume_of tee)))) }
        ensures begun { IfOk result (λ tee. HasBegun (length hosts.items) tee) }
        // a refusal hands the board back, as its calls left it
        ensures back { IfErr result (λ u. HandsBack u.why (B.view board) (B.view u.board)) }
        ensures honest { B.honest board → IfOk result (λ tee. B.honest (V.board_of (volume_of tee))
            × OpensHonestly (λ k. (3 < k) × V.untouched k)
            (V.keeper.held (volume_of tee)).sequence (B.view board)
            (B.view (V.board_of (volume_of tee)))) }
        ensures honest_back { B.honest board → IfErr result (λ u. B.honest u.board
            × HandsBackByRule V.form (λ k. (3 < k) × V.untouched k) u.why (B.view board)
            (B.view u.board)) }
        // whatever the board: by the rule over what it tells, at some counter; what is refused of the leaves behind the
        // header is by what the board that is handed back tells
        ensures rule { IsTrue B.tells_reads → (counter : ℕ)
            × IfErr result (λ u. IsRefusalOver V.form (B.view board)
            (B.view u.board).state.reads counter u.why)
            × IfOk result (λ tee. IsFound V.form (B.view board)
            (B.view board).state.reads counter FORMATTED (V.keeper.held (volume_of tee)).sequence
            (V.root (volume_of tee))) }
        ensures exact { B.honest board → (counter : ℕ) × IsCounter (B.view board).state counter
            × IfErr result (λ u. IsRefusal V.form (B.view board)
            (B.view board).state.reads counter u.why)
            × IfOk result (λ tee. IsAdmitted V.form (B.view board)
            (B.view board).state.reads counter FORMATTED (V.keeper.held (volume_of tee)).sequence
            (V.root (volume_of tee))) }
        ensures unopened { B.honest board → (n : ℕ) (h : Held) → Rests n (B.view board).state
            → V.form.blocks ≤ (B.view board).size
            → held_in V.form (B.view board).key (B.view board).state.reads n ≡ Some h
            → IfErr result (λ u. IsKeptFromOpening u.why
            × LeavesOpening V.form h (B.view board) (B.view u.board)) }
    {
        let Ok(sides) = start_all(alloc, hosts, seed) else {
            return Err(Unopened {
                board,
                why: OpenAnswer::NoMemory,
            });
        };
        let volume = V::open(alloc, board)?;
        Ok(TeeOver {
            alloc,
            volume,
            sides,
            kept: Directories::none(),
            boots: 0,
            board: PhantomData,
        })
    }

    /// Lets so many calls of the board pass, as the board's `fuse` does.
    pub fn fuse(&mut self, calls: u32)
        ensures order { OrderRun calls (B.view (V.board_of (volume_of self.old)))
            (B.view (V.board_of (volume_of self.new))) }
        ensures fuse { (B.view (V.board_of (volume_of self.new))).fuse
            ≡ fuse_after_set (B.view (V.board_of (volume_of self.old))).fuse calls }
        // on an honest board the clock goes on by one moment, and nothing else changes
        ensures honest { B.honest (V.board_of (volume_of self.old))
            → B.honest (V.board_of (volume_of self.new))
            × Passes (B.view (V.board_of (volume_of self.old)))
            (B.view (V.board_of (volume_of self.new)))
            × Unchanged (B.view (V.board_of (volume_of self.old))).state
            (B.view (V.board_of (volume_of self.new))).state }
        ensures world { (world : World A) → Represents self.old world
            → Represents self.new world }
        ensures moments { (world : World A) → Represents self.old world
            → IsWithin V.keeper world world (volume_of self.old) (volume_of self.new) }
        ensures kept { KeepsTurns self.old self.new }
        ensures boots { boots_of self.new ≡ boots_of self.old }
    {
        self.volume.fuse(calls);
    }

    /// A loss of power: the applications begin anew over what the board kept. It says of a change in doubt whether it is
    /// kept, which is so exactly where the sequence that was found is greater than the last acknowledged one.
    ///
    /// # Errors
    ///
    /// The volume isn't opened again: every application is lost, and is otherwise as before.
    pub fn power(&mut self, pick: u64) -> Result<Power, OpenAnswer>
        requires { boots_of self.old < 2 ^ 32 - 1 }
        // the order goes before any other call, and a call failed exactly where the answer says so
        ensures calls { LosesPower pick (no_failure result)
            (B.view (V.board_of (volume_of self.old))) (B.view (V.board_of (volume_of self.new))) }
        ensures writes { shows_unwritten result ≡ true
            → (B.view (V.board_of (volume_of self.new))).writes
            ≡ (B.view (V.board_of (volume_of self.old))).writes }
        ensures honest { B.honest (V.board_of (volume_of self.old))
            → B.honest (V.board_of (volume_of self.new))
            × LosesPowerByRule V.form (λ k. (3 < k) × V.untouched k) pick (shows_unwritten result)
            result (ComesBack V.form (V.root (volume_of self.new))
            (B.view (V.board_of (volume_of self.old))) (B.view (V.board_of (volume_of self.new)))
            self.old self.new) (V.keeper.held (volume_of self.new))
            (B.view (V.board_of (volume_of self.old))) (B.view (V.board_of (volume_of self.new))) }
        // every machine restarts, over what the order itself left to a crash
        ensures restarted { IfOk result (λ told. (world : World A) → Represents self.old world
            → Restarts A.behaviour V.form (B.view (V.board_of (volume_of self.old)))
            (B.view (V.board_of (volume_of self.new))) world told self.old self.new) }
        // on an honest board with a sound image it is refused only where a call of the board failed
        ensures refused { IfErr result (λ why. (world : World A) → Represents self.old world
            → (why ≡ answers.Failed) × Represents self.new (all_lost world)) }
        ensures moments { (world : World A) → Represents self.old world
            → IsWithin V.keeper world world (volume_of self.old) (volume_of self.new) }
        ensures kept { KeepsTurns self.old self.new }
        ensures boots { OnOk result (boots_of self.new ≡ boots_of self.old + 1) }
        ensures same_boots { OnErr result (boots_of self.new ≡ boots_of self.old) }
    {
        let acknowledged = self.volume.sequence();
        let owner = owner_of_doubt(self.sides.as_slice());
        self.kept = Directories::none();
        match self.volume.power(pick) {
            Ok(found) => {
                let kept = acknowledged < found.sequence;
                let taken = owner_kept(owner, kept);
                restart_all(&mut self.sides, taken, &mut self.boots);
                Ok(power_of(owner, kept))
            }
            Err(why) => {
                lose_all(&mut self.sides);
                Err(why)
            }
        }
    }

    /// How often the power was lost.
    pub fn boots(&self) -> u32
        ensures { result ≡ boots_of self.now }
    {
        self.boots
    }

    /// The board.
    pub fn into_board(self) -> B
        ensures { result ≡ V.board_of (volume_of self) }
    {
        let TeeOver { volume, .. } = self;
        volume.into_board()
    }
}

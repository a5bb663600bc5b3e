//! Clients' calls about shared memory, all of them answered at once.

ghost use Rattle.tee_base.specs.declared.limits.TheConstants.{MAX_CLIENTS, MAX_NUMBER};
ghost use Rattle.std.specs.Prelude.{◌≡◌, ◌<◌, None, Some, IfOk, OnErr};
ghost use Rattle.op_queue.specs.Queue.{is_named};
ghost use Rattle.shared_mem.specs.Blocks.{fill_of, share_of, show_of, unshare_of};
ghost use Rattle.alone.specs.Step.{block_shown, memory_done};
ghost use Rattle.app_side.specs.Represents.{called_of, code_told, machine_of, IsCalled};

use crate::side::{AppSide, AtOnce, Taken};
use app_api::Application;
use shared_mem::BlockAnswer;
use tee_base::{Bytes, Code, NoMemory, Origin};

/// The code that a call is answered with of which the blocks told this.
fn code_told(answer: Result<(), BlockAnswer>) -> Result<Code, NoMemory>
    ensures ok { IfOk result (λ code. code_told answer ≡ Some code) }
    ensures err { OnErr result (code_told answer ≡ None) }
{
    match answer {
        Ok(()) => Ok(Code::SUCCESS),
        Err(BlockAnswer::Refused(code)) => Ok(code),
        Err(BlockAnswer::NoMemory) => Err(NoMemory),
    }
}

impl<A: Application> AppSide<A> {
    pub(crate) fn share(
        &mut self,
        client: u8,
        block: u32,
        flags: u32,
        size: u32,
    ) -> Result<Taken, NoMemory>
        requires room { self.old.queue.next < MAX_NUMBER }
        requires client { client < MAX_CLIENTS }
        ensures ok { IfOk result (λ taken.
            IsCalled self.new (called_of taken) self.old.queue.next
            (memory_done (machine_of self.old)
            (share_of self.old.blocks client block flags size))) }
        ensures err { OnErr result (machine_of self.new ≡ machine_of self.old) }
    {
        let code = code_told(self.blocks.share(client, block, flags, size))?;
        Ok(self.answer_at_once(code, Origin::Api))
    }

    pub(crate) fn fill(
        &mut self,
        client: u8,
        block: u32,
        at: u32,
        bytes: Bytes,
    ) -> Result<Taken, NoMemory>
        requires { self.old.queue.next < MAX_NUMBER }
        ensures ok { IfOk result (λ taken.
            IsCalled self.new (called_of taken) self.old.queue.next
            (memory_done (machine_of self.old) (fill_of self.old.blocks client block at bytes))) }
        ensures err { OnErr result (machine_of self.new ≡ machine_of self.old) }
    {
        let answer = self.blocks.fill(client, block, at, bytes.as_slice());
        drop(bytes);
        let code = code_told(answer)?;
        Ok(self.answer_at_once(code, Origin::Api))
    }

    pub(crate) fn show(&mut self, client: u8, block: u32) -> Result<Taken, NoMemory>
        requires { self.old.queue.next < MAX_NUMBER }
        ensures ok { IfOk result (λ taken.
            IsCalled self.new (called_of taken) self.old.queue.next
            (block_shown (machine_of self.old) (show_of self.old.blocks client block))) }
        ensures err { OnErr result (machine_of self.new ≡ machine_of self.old) }
    {
        match self.blocks.show(client, block) {
            Ok(bytes) => Ok(Taken {
                op: self.queue.skip(),
                instance: 0,
                answer: Some(AtOnce {
                    code: Code::SUCCESS,
                    origin: Origin::Api,
                    shown: Some(bytes),
                }),
            }),
            Err(BlockAnswer::Refused(code)) => Ok(self.answer_at_once(code, Origin::Api)),
            Err(BlockAnswer::NoMemory) => Err(NoMemory),
        }
    }

    /// It is refused while an unanswered operation of the client names the block.
    pub(crate) fn unshare(&mut self, client: u8, block: u32) -> Result<Taken, NoMemory>
        requires { self.old.queue.next < MAX_NUMBER }
        ensures ok { IfOk result (λ taken.
            IsCalled self.new (called_of taken) self.old.queue.next
            (memory_done (machine_of self.old)
            (unshare_of self.old.blocks client block (is_named self.old.queue client block)))) }
        ensures err { OnErr result (machine_of self.new ≡ machine_of self.old) }
    {
        let named = self.queue.is_named(client, block);
        let code = code_told(self.blocks.unshare(client, block, named))?;
        Ok(self.answer_at_once(code, Origin::Api))
    }
}

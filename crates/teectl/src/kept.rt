//! A source that keeps what was read of it.

ghost use Rattle.std.specs.Prelude.{◌≤◌, IfOk, length};

use std::alloc::Global;
use tee_base::{Source, SourceFailed};

/// A source, with a copy of the bytes that were read of it: as long as there is memory for them, and where they are wanted.
#[derive(Drop)]
pub struct KeptSource<S> {
    source: S,
    kept: Option<Vec<u8>>,
}

impl<S: Source> KeptSource<S> {
    ghost use Rattle.std.specs.Prelude.{◌≡◌};

    /// The source, of which nothing was read yet.
    pub fn new(alloc: Global, source: S, is_wanted: bool) -> KeptSource<S>
        ensures same { result.source ≡ source }
    {
        let kept = if is_wanted {
            Some(Vec::new(alloc))
        } else {
            None
        };
        KeptSource { source, kept }
    }

    /// The bytes that were read, where they are all there.
    pub fn kept(&self) -> Option<&[u8]> {
        match &self.kept {
            Some(bytes) => Some(bytes.as_slice()),
            None => None,
        }
    }
}

/// Keeps these bytes too. Where there is no memory for them, none are kept.
fn keep(kept: &mut Option<Vec<u8>>, bytes: &[u8]) {
    let is_lost = match kept {
        Some(all) => all.extend_from_slice(bytes).is_err(),
        None => false,
    };
    if is_lost {
        *kept = None;
    }
}

/// Keeps what a read moved into the front of `into`.
fn keep_read(kept: &mut Option<Vec<u8>>, answer: &Result<usize, SourceFailed>, into: &[u8])
    requires { IfOk answer.now (λ count. count ≤ length into.now) }
{
    if let Ok(count) = answer {
        keep(kept, &into[..*count]);
    }
}

impl<S: Source> Source for KeptSource<S> {
    ghost left = { λ s. S.left s.source };

    ghost failures = { λ s. S.failures s.source };

    ghost just_failed = { λ s. S.just_failed s.source };

    fn read(&mut self, into: &mut [u8]) -> Result<usize, SourceFailed> {
        let answer = self.source.read(into);
        keep_read(&mut self.kept, &answer, into);
        answer
    }

    fn faults(&self) -> u64 {
        self.source.faults()
    }
}

//! Workloads that are generated: their lines run as those of a script do, and a summary is written in place of the replies.

ghost use Rattle.std.specs.Prelude.{◌≡◌, ◌↔◌, ◌⊎◌, ℕ, List, IfOk, IsTrue, Some, length};
ghost use Rattle.std.specs.List.{AllByRecursion};
ghost use Rattle.app_api.specs.Hosts.{HostsFit};
ghost use Rattle.mac_digest.specs.Hash.{digest_of};
ghost use Rattle.mac_digest.specs.declared.digests.Hash.TheVariants.{Sha256};
ghost use Rattle.report.specs.Texts.{summary_text};
ghost use Rattle.script.specs.Canonical.{canonical};
ghost use Rattle.script.specs.Workload.{workload_of};
ghost use Rattle.summary.specs.Summaries.{IsSummary};
ghost use Rattle.summary.specs.declared.cut.Cut.TheVariants.{Lost};
ghost use Rattle.tee_base.specs.Faults.{Rose};
ghost use Rattle.run_board.specs.Generated.{AreGenWords, RunsGenerated, WritesAs};
ghost use Rattle.run_board.specs.Reading.{IsKnown};

use crate::run::serve;
use crate::status::Status;
use app_api::{Application, Host};
use board::Board;
use epoch::BoardVolume;
use mac_digest::{Hash, Tag, digest};
use report::summary_lines;
use script::{Line, print, read_number, workload, workloads_are_read};
use std::alloc::Global;
use summary::{Cut, Summary};
use tee_base::{NoMemory, Sink, WriteFault, write_all};

/// The number of the workload that the words ask for.
pub fn gen_number(words: &[String]) -> Option<u64>
    ensures { (number : ℕ) → (result ≡ Some number) ↔ AreGenWords words.now number }
{
    if words.len() != 2 {
        return None;
    }
    if words[0].as_str() != "gen" {
        return None;
    }
    read_number(words[1].as_bytes())
}

/// Lines, and the hash of their canonical text.
#[derive(Drop)]
struct Workload {
    lines: Vec<Line>,
    hash: Tag,
}

/// The workload of a number for these hosts.
fn workload_for<A: Application>(
    alloc: Global,
    number: u64,
    hosts: &[Host<A>],
) -> Result<Workload, NoMemory>
    requires { HostsFit hosts.now }
    ensures lines { IfOk result (λ made. made.lines.items
        ≡ workload_of number (length hosts.now)) }
    ensures hash { IfOk result (λ made. made.hash ≡ digest_of Sha256
        (canonical hosts.now (workload_of number (length hosts.now)))) }
    ensures known { IfOk result (λ made. AllByRecursion (IsKnown (length hosts.now))
        made.lines.items) }
{
    workloads_are_read::<A>();
    let script = workload(alloc, number, hosts.len() as u8)?;
    let text = print(alloc, &script, hosts)?;
    let mut digester = digest(Hash::Sha256);
    digester.update(text.as_slice());
    Ok(Workload {
        lines: script.into_lines(),
        hash: digester.finish(),
    })
}

/// Writes the summary of so many lines with this hash, where their replies were summed up so. Without memory nothing is written.
fn write_summary<W: Sink>(
    alloc: Global,
    lines: u64,
    script: &Tag,
    summary: Summary,
    sink: &mut W,
) -> Status
    ensures { (hash : List ℕ) × (counts : List (ℕ × ℕ)) × IsSummary summary.text hash counts
        × WritesAs W.Sink (summary_text lines script.now hash counts) sink.old sink.new result }
{
    let (hash, codes) = summary.finish();
    let Ok(text) = summary_lines(
        alloc,
        lines,
        script.as_slice(),
        hash.as_slice(),
        codes.as_map(),
    ) else {
        return Status::NoMemory;
    };
    match write_all(sink, text.as_slice()) {
        Ok(()) => Status::Done,
        Err(WriteFault) => Status::WriteFault,
    }
}

/// Whether a count of faults has risen, or is at its end.
fn has_risen(before: u64, after: u64) -> bool
    ensures { IsTrue result ↔ Rose before after }
{
    before < after || after == u64::MAX
}

/// How a run ends whose replies were cut short, over a board that counted so many faults before and after it: a turn that lost the
/// storage tells of the board, where that counted a fault.
fn cut_status(cut: Option<Cut>, before: u64, after: u64) -> Status
    ensures cause { (result ≡ Status.BoardFault) ↔ ((cut ≡ Some Lost) × Rose before after) }
    ensures few { (result ≡ Status.BoardFault) ⊎ (result ≡ Status.NoMemory) }
{
    match cut {
        Some(Cut::Lost) if has_risen(before, after) => Status::BoardFault,
        _ => Status::NoMemory,
    }
}

/// Runs the workload of a number for these hosts over the objects of a board, and writes its summary. No more of the replies is
/// kept than their hash and the counts of their codes. The board is handed back.
pub fn run_generated<B: Board, V: BoardVolume<B>, W: Sink, A: Application>(
    alloc: Global,
    number: u64,
    sink: &mut W,
    board: B,
    hosts: Vec<Host<A>>,
    seed: [u8; 32],
) -> (Status, B)
    requires { HostsFit hosts.items }
    ensures { RunsGenerated B.Board W.Sink A.behaviour V.form hosts.items seed
        (workload_of number (length hosts.items)) board result.1 sink.old sink.new result.0 }
{
    let Ok(made) = workload_for(alloc, number, hosts.as_slice()) else {
        return (Status::NoMemory, board);
    };
    let Workload { lines, hash } = made;
    let count = lines.len() as u64;
    let before = board.faults();
    let mut summary = Summary::new(alloc);
    let (status, board) = serve::<B, V, Summary, A>(alloc, lines, &mut summary, board, hosts, seed);
    let cut = summary.cut();
    match status {
        Status::Done => (write_summary(alloc, count, &hash, summary, sink), board),
        Status::WriteFault => (cut_status(cut, before, board.faults()), board),
        status => (status, board),
    }
}

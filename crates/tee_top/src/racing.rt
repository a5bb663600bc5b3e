//! The race of a script: each client in a thread of its own.

ghost use Rattle.std.specs.Prelude.{◌≡◌, ◌⊎◌, ◌↔◌, ℕ, List, IsTrue, length};
ghost use Rattle.app_api.specs.Hosts.{HostsFit};
ghost use Rattle.script.specs.declared.line.Line.{Line};
ghost use Rattle.script.specs.declared.dialect.Dialect.TheVariants.{WithoutBoard};
ghost use Rattle.tee_base.specs.Faults.{Rose};
ghost use Rattle.tee_core.specs.InUse.{form_in_use};
ghost use Rattle.race.specs.Races.{entries_of};
ghost use Rattle.run_board.specs.Endings.{AnswersWords, OnSound};
ghost use Rattle.run_board.specs.Reading.{IsOfScript, IsReadable, IsText, ReadsScript};
ghost use Rattle.tee_top.specs.Races.{AreRaceWords, IsRaced, RaceEnds, RacesAs, WroteAs, logs_text, raced_as};

use crate::logs::write_logs;
use app_api::{Application, Host};
use board::Board;
use epoch::Unopened;
use race::{Raced, Stopped, race_over};
use run_board::{Status, names_of, read_lines, refusal_status, stop_status};
use script::Dialect;
use shared_tee::Gate;
use std::alloc::Global;
use std::sync::Wait;
use std::thread::Threads;
use tee_base::{Bytes, Sink, Source};
use tee_core::VolumeInUse;

/// Whether the words are those of a race.
fn are_race_words(words: &[String]) -> bool
    ensures { IsTrue result ↔ AreRaceWords words.now }
{
    words.len() == 1 && words[0].as_str() == "race"
}

/// How a race ends whose lines ended so and whose logs could be written.
fn race_status(ended: Result<(), Stopped>) -> Status
    ensures { result ≡ raced_as ended }
{
    match ended {
        Ok(()) => Status::Done,
        Err(Stopped::LogFull(app)) => Status::LogFull(app),
        Err(Stopped::NoMemory) => Status::NoMemory,
    }
}

/// Writes the logs of a race, unless its lines ended for want of memory, and hands its board back.
fn write_raced<B: Board, W: Sink>(
    alloc: Global,
    names: &[Bytes],
    raced: Raced<B>,
    sink: &mut W,
) -> (Status, B)
    requires { length raced.logs.items ≡ length names.now }
    ensures board { result.1 ≡ raced.board }
    ensures told { WroteAs W.Sink raced.ended (logs_text names.now (entries_of raced.logs.items))
        sink.old sink.new result.0 }
{
    let Raced { logs, board, ended } = raced;
    match race_status(ended) {
        Status::NoMemory => (Status::NoMemory, board),
        status => match write_logs(alloc, names, logs.as_slice(), sink) {
            Ok(()) => (status, board),
            Err(stop) => (stop_status(stop), board),
        },
    }
}

/// Reads a script from the source, runs each of its clients in a thread of its own for the hosts over the objects of the board,
/// and writes the log of each host to the sink, once all clients have ended. A line about the board is outside the grammar here.
/// Nothing is run, and nothing is written, unless the whole source was read and each line is in the grammar. The words are the one
/// word `race`. The board is handed back, whatever the status.
///
/// Each log is one that could have been made alone: each entry's replies are those of a machine to which the entries before it
/// happened. A client's entries are those of its lines, in their order. Under `LogFull` they are those of the first of its lines.
///
/// It may wait, and so nothing says that it returns. The clauses on what is written are those of an honest board at rest whose
/// image is sound for the hosts, as a blank one is.
pub fn race_tee<
    R: Threads + Wait + Sync,
    S: Source,
    W: Sink,
    B: Board + Drop + Send,
    A: Application + Send,
    G: Gate,
>(
    rt: &R,
    alloc: Global,
    words: &[String],
    source: &mut S,
    sink: &mut W,
    board: B,
    hosts: Vec<Host<A>>,
    seed: [u8; 32],
    gate: &G,
) -> (Status, B)
    requires { HostsFit hosts.items }
    ensures words { AnswersWords (AreRaceWords words.now) result.0
        ((source.new ≡ source.old) × (sink.new ≡ sink.old) × (result.1 ≡ board)) }
    ensures reading { AreRaceWords words.now
        → ReadsScript S.Source WithoutBoard hosts.items result.0 source.old source.new }
    // whatever the board: no order, what the logs tell of losses, why it wasn't opened, and what is left alone
    ensures ends { RaceEnds B.Board W.Sink form_in_use hosts.items
        (IsOfScript WithoutBoard hosts.items (S.left source.old))
        board result.1 sink.old sink.new result.0 }
    // on a sound board: a legal log for each host, which follows each client's lines or the first of them
    ensures written { OnSound B.Board form_in_use (length hosts.items) board (λ stores.
        RacesAs B.Board W.Sink A.behaviour form_in_use hosts.items seed
        (IsOfScript WithoutBoard hosts.items (S.left source.old))
        board result.1 sink.old sink.new stores result.0) }
    // where the source tells a script, and nothing fails, logs are written, unless there is no memory
    ensures complete { AreRaceWords words.now → (text : List ℕ) (script : List Line)
        → IsReadable (S.left source.old) text (S.failures source.old) (S.failures source.new)
        → IsText WithoutBoard hosts.items text script
        → ¬ Rose (W.failures sink.old) (W.failures sink.new)
        → ¬ Rose (B.view board).state.faults (B.view result.1).state.faults
        → OnSound B.Board form_in_use (length hosts.items) board (λ stores.
        IsRaced result.0 ⊎ (result.0 ≡ Status.NoMemory)) }
{
    if !are_race_words(words) {
        return (Status::BadWords, board);
    }
    let lines = match read_lines(alloc, source, hosts.as_slice(), Dialect::WithoutBoard) {
        Ok(lines) => lines,
        Err(status) => return (status, board),
    };
    let Ok(names) = names_of(alloc, hosts.as_slice()) else {
        return (Status::NoMemory, board);
    };
    let lines = lines.as_slice();
    match race_over::<R, B, VolumeInUse<B>, A, G>(rt, alloc, gate, lines, board, hosts, seed) {
        Ok(raced) => write_raced(alloc, names.as_slice(), raced, sink),
        Err(Unopened { board, why }) => (refusal_status(why), board),
    }
}

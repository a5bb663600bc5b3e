//! The board over files: fresh files, files that are no board, and files that are opened again.
use crate::rows::{Row, go_through};
use boards::BoardFile::{Counter, Image, Key};
use boards::FileFault::{InUse, Missing, NoKeys, NotPlain, WrongLength};
use boards::{BoardFile, FileBoard, FileBoardFailed, FileFault, NEW_BLOCKS, copy_of_files};
use std::fs::File;
use std::process::Abort;
use std::{env, fs, process};

/// What is done with a file or with the board, and what has to come of it.
#[derive(Clone, Copy)]
enum Act<'a> {
    /// The file is written.
    Write(&'a [u8]),
    /// The file has these bytes.
    Holds(&'a [u8]),
    /// There is a file of this length, or none.
    Is(Option<u64>),
    Remove,
    MakeFolder,
    RemoveFolder,
    /// The board's opening is refused for this fault of this file.
    Refused(BoardFile, FileFault),
    /// The board is opened, and the calls are made.
    Open(&'a [Row]),
    /// Its copy is refused for this fault of this file.
    CopyRefused(BoardFile, FileFault),
    /// It is copied, and the calls are made of the copy.
    Copy(&'a [Row]),
}

/// What the file's name ends in behind the image's, and what is done. The board has the image's name.
type Step<'a> = (&'a str, Act<'a>);

/// A path of this process.
fn path_of(rt: &impl Abort, host: &HostRuntime, name: &str) -> String {
    let folder = env::temp_dir(host).expect(rt, "a folder");
    let id = process::id(host.process());
    let name = format!(in host.alloc(); "keuldis-{id}-{name}").expect(rt, "a name");
    let path = folder.join(host.alloc(), name.as_str());
    path.expect(rt, "a path").into_string()
}

/// The path of the file whose name ends so.
fn with_end(rt: &impl Abort, host: &HostRuntime, image: &str, end: &str) -> String {
    format!(in host.alloc(); "{image}{end}").expect(rt, "a path")
}

/// Whether the file has these bytes.
fn has_bytes(host: &HostRuntime, path: &str, wanted: &[u8]) -> bool {
    match fs::read(host, path) {
        Ok(bytes) => bytes.as_slice() == wanted,
        Err(_) => false,
    }
}

/// The length of the file, if there is one.
fn length_of(host: &HostRuntime, path: &str) -> Option<u64> {
    match fs::metadata(host, path) {
        Ok(about) => Some(about.len()),
        Err(_) => None,
    }
}

/// Whether an opening is refused for this fault of this file.
fn is_refused(host: &HostRuntime, image: &str, file: BoardFile, fault: FileFault) -> bool {
    match FileBoard::open(host, host.alloc(), image) {
        Err(FileBoardFailed::Failed(why)) => why.file == file && why.fault == fault,
        _ => false,
    }
}

/// Whether a copy is refused for this fault of this file.
fn is_copy_refused(host: &HostRuntime, image: &str, file: BoardFile, fault: FileFault) -> bool {
    match copy_of_files(host, host.alloc(), image) {
        Err(FileBoardFailed::Failed(why)) => why.file == file && why.fault == fault,
        _ => false,
    }
}

/// Copies the board, and makes the calls of the copy.
fn copy(rt: &impl Abort, host: &HostRuntime, image: &str, rows: &[Row]) -> bool {
    let mut board = copy_of_files(host, host.alloc(), image).expect(rt, "a copy");
    go_through(rt, &mut board, 0, rows);
    true
}

/// The board of these files.
fn opened(rt: &impl Abort, host: &HostRuntime, image: &str) -> FileBoard<File> {
    FileBoard::open(host, host.alloc(), image).expect(rt, "a board")
}

/// Opens the board, and makes the calls. The key file gives the key and the seed.
fn open(rt: &impl Abort, host: &HostRuntime, image: &str, rows: &[Row]) -> bool {
    let mut board = opened(rt, host, image);
    go_through(rt, &mut board, 0, rows);
    let seed = board.random_seed();
    drop(board);
    seed == [2; 32]
}

/// Does it, and says whether that came of it which has to.
fn is_done(rt: &impl Abort, host: &HostRuntime, path: &str, act: &Act<'_>) -> bool {
    match act {
        Act::Write(bytes) => fs::write(host, path, *bytes).is_ok(),
        Act::Holds(bytes) => has_bytes(host, path, *bytes),
        Act::Is(length) => length_of(host, path) == *length,
        Act::Remove => fs::remove_file(host, path).is_ok(),
        Act::MakeFolder => fs::create_dir(host, path).is_ok(),
        Act::RemoveFolder => fs::remove_dir(host, path).is_ok(),
        Act::Refused(file, fault) => is_refused(host, path, *file, *fault),
        Act::Open(rows) => open(rt, host, path, *rows),
        Act::CopyRefused(file, fault) => is_copy_refused(host, path, *file, *fault),
        Act::Copy(rows) => copy(rt, host, path, *rows),
    }
}

/// Does it all in order.
fn go(rt: &impl Abort, host: &HostRuntime, image: &str, steps: &[Step<'_>]) {
    for (place, (end, act)) in steps.iter().enumerate() {
        let path = with_end(rt, host, image, *end);
        let holds = is_done(rt, host, path.as_str(), act);
        drop(path);
        assert!(rt; holds, "step {place}");
    }
}

/// The same, while a board holds the files.
fn hold(rt: &impl Abort, host: &HostRuntime, image: &str, steps: &[Step<'_>]) {
    let board = opened(rt, host, image);
    go(rt, host, image, steps);
    drop(board);
}

/// A key file that fits.
const KEYS: &[u8] = &[
    1, 1, 1, 1, 1, 1, 1, 1, 1, 1, 1, 1, 1, 1, 1, 1, 1, 1, 1, 1, 1, 1, 1, 1, 1, 1, 1, 1, 1, 1, 1, 1,
    2, 2, 2, 2, 2, 2, 2, 2, 2, 2, 2, 2, 2, 2, 2, 2, 2, 2, 2, 2, 2, 2, 2, 2, 2, 2, 2, 2, 2, 2, 2, 2,
];

/// The length of a new image, of 43,720 blocks.
const NEW_BYTES: u64 = 44_769_280;

/// The last block of a fresh board gets fives, on the disk, and the counter goes to 1.
const BEGUN: &[Row] = &[
    Row::Blocks(NEW_BLOCKS),
    Row::Key(1),
    Row::Counter(Some(0)),
    Row::Filled(43_719, 0),
    Row::Fill(43_719, 5, true),
    Row::Sync(true),
    Row::Advance(Some(1)),
];

/// It is as it was left. A fuse of 0 lets no call pass until the power comes back.
const GONE_ON: &[Row] = &[
    Row::Filled(43_719, 5),
    Row::Counter(Some(1)),
    Row::Fuse(0),
    Row::Sync(false),
    Row::Power(3),
    Row::Sync(true),
    Row::Faults(1),
    Row::Writes(0),
    Row::Orders(2, 3),
];

/// The blocks that were there are as they were, and the others are zeros. The image is in use and has no counter file: the
/// counter is 0, and can't be raised.
const LENGTHENED: &[Row] = &[
    Row::Blocks(NEW_BLOCKS),
    Row::Filled(1, 3),
    Row::Filled(2, 0),
    Row::Filled(43_719, 0),
    Row::Counter(Some(0)),
    Row::Advance(None),
    Row::Counter(None),
];

#[test]
fn fresh_files_are_made_and_opened_again(rt: HostRuntime) {
    const STEPS: &[Step] = &[
        (".key", Act::Write(KEYS)),
        ("", Act::Open(BEGUN)),
        (".ctr", Act::Holds(&[1, 0, 0, 0, 0, 0, 0, 0])),
        ("", Act::Is(Some(NEW_BYTES))),
        ("", Act::Open(GONE_ON)),
        ("", Act::Remove),
        (".ctr", Act::Remove),
        (".key", Act::Remove),
    ];
    let image = path_of(&rt, &rt, "fresh");
    go(&rt, &rt, image.as_str(), STEPS);
}

#[test]
fn files_that_are_no_board_are_refused(rt: HostRuntime) {
    const STEPS: &[Step] = &[
        // no key file, and a short one: nothing is made
        ("", Act::Refused(Key, Missing)),
        (".key", Act::Write(&[1; 63])),
        ("", Act::Refused(Key, NoKeys)),
        ("", Act::Is(None)),
        // two blocks whose second is cut: no counter file is made
        ("", Act::Write(&[0; 1025])),
        (".key", Act::Write(KEYS)),
        ("", Act::Refused(Image, WrongLength)),
        (".ctr", Act::Is(None)),
        // two blocks are an image, which is lengthened
        ("", Act::Write(&[3; 2048])),
        ("", Act::Open(LENGTHENED)),
        ("", Act::Is(Some(NEW_BYTES))),
        (".ctr", Act::Is(None)),
        // a short counter file, beside an image and without: no image is made
        (".ctr", Act::Write(&[0; 7])),
        ("", Act::Refused(Counter, WrongLength)),
        ("", Act::Remove),
        ("", Act::Refused(Counter, WrongLength)),
        ("", Act::Is(None)),
        // the image is a folder
        ("", Act::MakeFolder),
        ("", Act::Refused(Image, NotPlain)),
        ("", Act::RemoveFolder),
        (".ctr", Act::Remove),
        (".key", Act::Remove),
    ];
    let image = path_of(&rt, &rt, "refused");
    go(&rt, &rt, image.as_str(), STEPS);
}

#[test]
fn one_board_at_a_time_holds_the_files(rt: HostRuntime) {
    // the first name of a counter file that isn't whole yet is another's
    const OTHERS: &[Step] = &[
        (".ctr.new0", Act::Write(&[7; 100])),
        (".key", Act::Write(KEYS)),
    ];
    // it is left as it is, and another opening is refused
    const HELD: &[Step] = &[
        (".ctr.new0", Act::Holds(&[7; 100])),
        (".ctr.new1", Act::Is(None)),
        ("", Act::Is(Some(NEW_BYTES))),
        ("", Act::Refused(Key, InUse)),
    ];
    const LET_GO: &[Step] = &[
        ("", Act::Open(&[Row::Counter(Some(0))])),
        ("", Act::Remove),
        (".ctr", Act::Remove),
        (".ctr.new0", Act::Remove),
        (".key", Act::Remove),
    ];
    let image = path_of(&rt, &rt, "held");
    go(&rt, &rt, image.as_str(), OTHERS);
    hold(&rt, &rt, image.as_str(), HELD);
    go(&rt, &rt, image.as_str(), LET_GO);
}

/// The image has two blocks of threes, and the counter is 1. What is written stays in the copy.
const COPIED: &[Row] = &[
    Row::Blocks(NEW_BLOCKS),
    Row::Key(1),
    Row::Counter(Some(1)),
    Row::Filled(1, 3),
    Row::Filled(2, 0),
    Row::Filled(43_719, 0),
    Row::Fill(1, 5, true),
    Row::Sync(true),
    Row::Advance(Some(2)),
    Row::Filled(1, 5),
];

#[test]
fn a_copy_leaves_the_files(rt: HostRuntime) {
    const STEPS: &[Step] = &[
        // no file is made
        ("", Act::CopyRefused(Key, Missing)),
        (".key", Act::Write(KEYS)),
        ("", Act::CopyRefused(Image, Missing)),
        ("", Act::Write(&[3; 2047])),
        ("", Act::CopyRefused(Counter, Missing)),
        (".ctr", Act::Is(None)),
        (".ctr", Act::Write(&[1, 0, 0, 0, 0, 0, 0])),
        ("", Act::CopyRefused(Image, WrongLength)),
        ("", Act::Write(&[3; 2048])),
        ("", Act::CopyRefused(Counter, WrongLength)),
        (".ctr", Act::Write(&[1, 0, 0, 0, 0, 0, 0, 0])),
        ("", Act::Copy(COPIED)),
        ("", Act::Copy(COPIED)),
        ("", Act::Holds(&[3; 2048])),
        (".ctr", Act::Holds(&[1, 0, 0, 0, 0, 0, 0, 0])),
        ("", Act::Remove),
        (".ctr", Act::Remove),
        (".key", Act::Remove),
    ];
    const HELD: &[Step] = &[("", Act::CopyRefused(Key, InUse))];
    let image = path_of(&rt, &rt, "copied");
    go(&rt, &rt, image.as_str(), STEPS);
    let image = path_of(&rt, &rt, "copied-held");
    go(&rt, &rt, image.as_str(), &[(".key", Act::Write(KEYS))]);
    hold(&rt, &rt, image.as_str(), HELD);
    const LET_GO: &[Step] = &[
        ("", Act::Remove),
        (".ctr", Act::Remove),
        (".key", Act::Remove),
    ];
    go(&rt, &rt, image.as_str(), LET_GO);
}

//! The limits that the runtime keeps. Each stands here once; definitions and code cite it.

/// Bytes of a script.
pub const MAX_SCRIPT_BYTES: u32 = 1_048_576;
/// Hosts of one runtime.
pub const MAX_HOSTS: usize = 16;
/// Characters of a host's name.
pub const MAX_NAME_BYTES: usize = 16;
/// Clients of a script, numbered from 0.
pub const MAX_CLIENTS: u8 = 8;
/// Instances of one application, numbered from 1.
pub const MAX_INSTANCES: usize = 4;
/// Sessions of one application, numbered from 1.
pub const MAX_SESSIONS: usize = 8;
/// Unanswered operations of one application other than closes.
pub const MAX_OPERATIONS: usize = 16;
/// Parameters of a call.
pub const PARAMETERS: usize = 4;
/// Object handles of one instance.
pub const MAX_HANDLES: usize = 16;
/// Crypto operations of one instance.
pub const MAX_CRYPTO_OPERATIONS: usize = 8;
/// Enumerators of one instance.
pub const MAX_ENUMERATORS: usize = 4;
/// Asks that one entry may make.
pub const MAX_ASKS: u32 = 65_536;
/// Bytes of one memory reference, of one ask, and the room of an ask.
pub const MAX_ASK_BYTES: u32 = 524_288;
/// Bytes of an object's identifier.
pub const MAX_IDENTIFIER_BYTES: usize = 64;
/// Bytes of an object's secret.
pub const MAX_SECRET_BYTES: usize = 128;
/// Bytes of one object's content, by the quota: the first block of an object holds none of them.
pub const MAX_CONTENT_BYTES: u32 = 1_043_456;
/// The greatest data position of an object's handle.
pub const MAX_POSITION: u32 = 0xFFFF_FFFF;
/// The cost that the objects of one application may reach, in blocks.
pub const QUOTA: u32 = 1_020;
/// Leaves of one application's region, each a block.
pub const LEAVES: usize = 1024;
/// Bytes of a block.
pub const BLOCK_BYTES: usize = 1024;
/// Blocks of a new board.
pub const BOARD_BLOCKS: u64 = 43_720;
/// The greatest number that a script's fuse line may have.
pub const MAX_FUSE_CALLS: u32 = 1_000_000;
/// The sizes of all filled parameters of a script, added up.
pub const MAX_FILL_BYTES: u32 = 268_435_456;
/// Turns within which a call line is answered.
pub const MAX_CALL_TURNS: u32 = 10_000_000;
/// Turns of one turn line.
pub const MAX_LINE_TURNS: u32 = 1_000_000;
/// Ticks of one tick line.
pub const MAX_LINE_TICKS: u32 = 1_000_000;
/// Entries of one application's log.
pub const MAX_LOG_ENTRIES: usize = 262_144;
/// Parameter bytes of one application's log.
pub const MAX_LOG_BYTES: u32 = 67_108_864;
/// Calls that one pass may make.
pub const MAX_PASS_CALLS: u64 = 1 << 60;
/// Seats of a storage cell.
pub const STORE_SEATS: usize = 16;
/// Seats of an application's cell.
pub const APPLICATION_SEATS: usize = 8;
/// What the numbers of turns and of operations stay below: no run can make so many.
pub const MAX_NUMBER: u64 = 1 << 63;

//! How the program ends.

use boards::FileFailure;
use epoch::OpenAnswer;
use std::alloc::{AllocError, AllocFailed};
use store_api::StoreAnswer;

/// What is told of an image, and whether it is that of a sound volume.
#[derive(Drop)]
pub struct Told {
    pub bytes: Vec<u8>,
    pub is_sound: bool,
}

/// How the program ends.
#[derive(Clone, Copy)]
pub enum Ended {
    /// All was told, and nothing of it is damaged.
    Sound,
    /// All was told, and a tag differs or a leaf breaks a rule.
    Unsound,
    /// The words are no command.
    BadWords,
    /// There is no such region.
    BadRegion,
    /// An identifier isn't in hexadecimal digits, or is too long.
    BadId,
    /// The board is blank.
    Blank,
    /// There is no volume that could be looked at.
    Refused(OpenAnswer),
    /// An object wasn't read.
    Unread(StoreAnswer),
    /// The files are no board.
    NoBoard(FileFailure),
    /// A call of the board failed.
    BoardFault,
    NoMemory,
    WriteFault,
}

impl Ended {
    /// All was told.
    pub fn told(is_sound: bool) -> Ended {
        if is_sound {
            Ended::Sound
        } else {
            Ended::Unsound
        }
    }

    /// The exit status. These are `teectl`'s, and 1 and 2 besides.
    pub fn status(&self) -> u8 {
        match self {
            Ended::Sound => 0,
            Ended::Unsound => 1,
            Ended::Unread(StoreAnswer::NotFound) => 2,
            Ended::Unread(_) => 1,
            Ended::BadWords | Ended::BadRegion | Ended::BadId => 64,
            Ended::Blank | Ended::Refused(_) => 67,
            Ended::NoMemory => 71,
            Ended::WriteFault => 74,
            Ended::NoBoard(_) | Ended::BoardFault => 75,
        }
    }

    /// A volume that wasn't opened for this reason.
    pub fn unopened(why: OpenAnswer) -> Ended {
        match why {
            OpenAnswer::Failed => Ended::BoardFault,
            OpenAnswer::NoMemory => Ended::NoMemory,
            why => Ended::Refused(why),
        }
    }

    /// An object that wasn't read for this reason.
    pub fn unread(why: StoreAnswer) -> Ended {
        match why {
            StoreAnswer::NoMemory => Ended::NoMemory,
            StoreAnswer::Failed | StoreAnswer::Lost => Ended::BoardFault,
            why => Ended::Unread(why),
        }
    }
}

impl<T: Drop> From<AllocFailed<T>> for Ended {
    fn from(_error: AllocFailed<T>) -> Ended {
        Ended::NoMemory
    }
}

impl From<AllocError> for Ended {
    fn from(_error: AllocError) -> Ended {
        Ended::NoMemory
    }
}

/// The line on standard error, where it has nothing but words.
fn words_of(ended: &Ended) -> &'static str {
    match ended {
        Ended::Sound | Ended::Unsound => "",
        Ended::BadWords => {
            "teevol: usage: teevol info IMAGE | verify IMAGE | blocks IMAGE | cat IMAGE REGION ID, each with --json after it\n"
        }
        Ended::BadRegion => "teevol: a region is the name of a host, or a number below 16\n",
        Ended::BadId => {
            "teevol: an identifier is in hexadecimal digits, two for each of at most 64 bytes\n"
        }
        Ended::Blank => "teevol: no volume: the board is blank\n",
        Ended::Unread(StoreAnswer::NotFound) => "teevol: there is no such object\n",
        Ended::Unread(StoreAnswer::Corrupt(_)) => {
            "teevol: damaged: on the way to the object a tag differs\n"
        }
        Ended::Unread(_) => "teevol: a leaf on the way to the object breaks a rule\n",
        Ended::BoardFault => "teevol: board failed\n",
        Ended::NoMemory => "teevol: out of memory\n",
        Ended::WriteFault => "teevol: cannot write\n",
        Ended::Refused(_) | Ended::NoBoard(_) => "teevol: no volume\n",
    }
}

/// Says on standard error why nothing is told of an image.
pub fn say_why<R: Eprint>(rt: &R, ended: &Ended) {
    let _ = match ended {
        Ended::Refused(why) => eprint!(rt; "teevol: {why}\n"),
        Ended::NoBoard(failure) => eprint!(rt; "teevol: {failure}\n"),
        ended => eprint!(rt; "{}", words_of(ended)),
    };
}

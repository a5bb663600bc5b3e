//! What the words of the command line ask for.

/// What is asked of an image.
#[derive(Clone, Copy)]
pub enum Work<'a> {
    Info,
    Verify,
    Blocks,
    Cat { region: &'a str, id: &'a str },
}

/// What is asked of which image, and whether the answer is an object of JSON.
#[derive(Clone, Copy)]
pub struct Look<'a> {
    pub work: Work<'a>,
    pub image: &'a str,
    pub json: bool,
}

/// What the words ask for.
#[derive(Clone, Copy)]
pub enum Asked<'a> {
    Help,
    Version,
    Look(Look<'a>),
    /// They are no command.
    Nothing,
}

/// What is asked of an image by the words before it and after it.
fn work_of<'a>(name: &str, others: &'a [String]) -> Option<Work<'a>> {
    match (name, others) {
        ("info", []) => Some(Work::Info),
        ("verify", []) => Some(Work::Verify),
        ("blocks", []) => Some(Work::Blocks),
        ("cat", [region, id]) => Some(Work::Cat {
            region: region.as_str(),
            id: id.as_str(),
        }),
        _ => None,
    }
}

/// The words before a last `--json`, and whether it is there.
fn without_json(words: &[String]) -> (&[String], bool) {
    match words {
        [others @ .., last] if last.as_str() == "--json" => (others, true),
        _ => (words, false),
    }
}

/// A look at an image.
fn look_of(words: &[String]) -> Option<Look<'_>> {
    let (words, json) = without_json(words);
    match words {
        [name, image, others @ ..] => {
            let work = work_of(name.as_str(), others)?;
            Some(Look {
                work,
                image: image.as_str(),
                json,
            })
        }
        _ => None,
    }
}

/// What one word asks for.
fn asked_by_one(word: &str) -> Asked<'_> {
    match word {
        "--help" | "-h" | "help" => Asked::Help,
        "--version" => Asked::Version,
        _ => Asked::Nothing,
    }
}

/// What the words ask for.
pub fn asked_for(words: &[String]) -> Asked<'_> {
    match words {
        [word] => asked_by_one(word.as_str()),
        [_, last] if last.as_str() == "--help" => Asked::Help,
        words => match look_of(words) {
            Some(look) => Asked::Look(look),
            None => Asked::Nothing,
        },
    }
}

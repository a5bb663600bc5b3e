//! What the words of the command line ask for.

/// What the words ask of `main`.
#[derive(Clone, Copy)]
pub enum Asked<'a> {
    Help,
    Version,
    /// The hosts, and the commands of their applications.
    Hosts,
    /// Whether standard input has a script.
    Check,
    /// A run over the board of these files.
    RunOver(&'a str),
    /// A race over a blank board in memory. It refuses faulty words itself.
    Race,
    /// A run over a blank board in memory, which faulty words are taken for too: the run refuses them.
    Run,
}

/// What one word asks for.
fn asked_by_one(word: &str) -> Asked<'_> {
    match word {
        "--help" | "-h" | "help" => Asked::Help,
        "--version" => Asked::Version,
        "--hosts" => Asked::Hosts,
        "--check" => Asked::Check,
        _ => Asked::Run,
    }
}

/// What the words ask for. `main` answers by itself only where they are exactly the words for that.
pub fn asked_for(words: &[String]) -> Asked<'_> {
    match words {
        [first, ..] if first.as_str() == "race" => Asked::Race,
        [word] => asked_by_one(word.as_str()),
        [first, image] if first.as_str() == "run" => match image.as_str() {
            "--help" => Asked::Help,
            image => Asked::RunOver(image),
        },
        _ => Asked::Run,
    }
}

/// The words behind a first `--explain`, and whether it is there.
pub fn without_explain(words: &[String]) -> (&[String], bool) {
    match words {
        [first, others @ ..] if first.as_str() == "--explain" => (others, true),
        _ => (words, false),
    }
}

//! What the program says of itself and of its words.

/// How the program is called.
pub const USAGE: &str = "\
usage: gltool [WORD..] [SCRIPT]     runs a script of lock commands; without SCRIPT it reads standard input
       gltool --crew N --rounds R   runs N sessions, 1 to 128, of R rounds each, 1 to 100000, in threads

  --detect at-block|by-watcher   when deadlocks are detected: at-block by default
  --victims youngest|fewest      how a victim is chosen: youngest by default
  --listings                     the script may have listings
  --schema                       the script may drop nodes, make indexes by transactions, split and merge intervals
  --savepoints                   the script may set and return to savepoints
  --trace                        the script may be a trace: rows, work begun again, renewals
  --echo                         writes each line, with its answer to its right
  --explain                      says on standard error why each refused line was refused
  --strict                       ends with status 3 at the first line that is refused
  --help, --version              writes this, or the version, and does nothing else

Status: 0 at the end, 1 after a fault, 2 for unknown words, 3 by --strict.
";

/// The program and the version of the library.
pub const VERSION: &str = "gltool 0.36.0\n";

/// What the program may be asked to do beside the report of a script.
#[derive(Clone, Copy, Debug, PartialEq, Eq)]
pub struct Wishes {
    /// Each line is written with its answer to its right.
    pub echo: bool,
    /// Why a line was refused is said on standard error.
    pub explain: bool,
    /// The first line that is refused ends the script.
    pub strict: bool,
}

impl Wishes {
    /// Nothing beside the report.
    pub fn none() -> Wishes {
        Wishes {
            echo: false,
            explain: false,
            strict: false,
        }
    }

    /// Whether nothing is wished beside the report.
    pub fn is_none(&self) -> bool {
        !self.echo && !self.explain && !self.strict
    }

    /// Notes what a word wishes; whether it wishes anything.
    pub fn take(&mut self, word: &str) -> bool {
        match word {
            "--echo" => self.echo = true,
            "--explain" => self.explain = true,
            "--strict" => self.strict = true,
            _ => return false,
        }
        true
    }
}

/// Whether a word is followed by its value.
pub fn has_value(word: &str) -> bool {
    matches!(word, "--detect" | "--victims" | "--crew" | "--rounds")
}

/// Whether a word is known that has no value.
pub fn is_flag(word: &str) -> bool {
    matches!(word, "--listings" | "--schema" | "--savepoints" | "--trace")
}

/// Whether a value may follow a word.
pub fn is_value(word: &str, value: &str) -> bool {
    match word {
        "--detect" => value == "at-block" || value == "by-watcher",
        "--victims" => value == "youngest" || value == "fewest",
        "--crew" => is_number_to(value, 128),
        _ => is_number_to(value, 100_000),
    }
}

/// Whether this is a number from 1 to the most.
fn is_number_to(value: &str, most: u32) -> bool {
    match value.parse::<u32>() {
        Ok(number) => number >= 1 && number <= most,
        Err(_) => false,
    }
}

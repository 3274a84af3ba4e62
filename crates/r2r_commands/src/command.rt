//! The words of the command line.

ghost use Rattle.std.specs.Prelude.{◌≡◌, map, string_bytes};
ghost use Rattle.r2r_commands.specs.Command.{command_of, dump_of, meaning, run_command};
ghost use Rattle.r2r_commands.specs.Words.{is_positional};

use crate::run_words::RunWords;

/// What the words ask for.
#[derive(Drop)]
pub(crate) enum Command<'a> {
    /// They are no command.
    Usage,
    /// `dump FILE`.
    Dump(&'a str),
    /// `run IMAGE`, with its options.
    Run(RunWords<'a>),
}

impl<'a> Command<'a> {
    /// The command that the words are.
    pub(crate) fn parse(words: &'a [String]) -> Command<'a>
        ensures { meaning result ≡ command_of (map string_bytes words.now) }
    {
        match words {
            [] => Command::Usage,
            [command, ..] => {
                if command.as_str() == "dump" {
                    Command::dump(&words[1..])
                } else if command.as_str() == "run" {
                    Command::run(&words[1..])
                } else {
                    Command::Usage
                }
            }
        }
    }

    /// The dump that the words after the first ask for.
    fn dump(words: &'a [String]) -> Command<'a>
        ensures { meaning result ≡ dump_of (map string_bytes words.now) }
    {
        match words {
            [file] => {
                let file = file.as_str();
                if is_positional(file) {
                    Command::Dump(file)
                } else {
                    Command::Usage
                }
            }
            _ => Command::Usage,
        }
    }

    /// The run that the words after the first ask for.
    #[tactic(auto, unfolding(crate::specs::Command::run_command))]
    fn run(words: &'a [String]) -> Command<'a>
        ensures { meaning result ≡ run_command (map string_bytes words.now) }
    {
        match RunWords::parse(words) {
            Some(words) => Command::Run(words),
            None => Command::Usage,
        }
    }
}

/// Whether a word is no option: it is not empty and doesn't begin with a dash.
pub(crate) fn is_positional(word: &str) -> bool
    ensures { result ≡ is_positional word.now }
{
    match word.as_bytes() {
        [] => false,
        [first, ..] => *first != b'-',
    }
}

//! The words of the command line.
ghost use Rattle.std.specs.Prelude.{◌↔◌, IsTrue};
ghost use Rattle.vsd_runner.specs.Command.{spellings, IsCommand};

/// Whether the words are the one command.
pub(crate) fn is_command(words: &[String]) -> bool
    ensures { IsTrue result ↔ IsCommand (spellings words.now) }
{
    match words {
        [word] => word.as_str() == "run",
        _ => false,
    }
}

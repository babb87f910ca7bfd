//! The words of a call.
ghost use Rattle.std.specs.Prelude.{◌≡◌};
ghost use Rattle.std.specs.Option.{option_copied};
ghost use Rattle.ode_begin.specs.Words.{bytes_of};
ghost use Rattle.ode_sessions.specs.Usage.{multi_word};

use ode_begin::is_file;

/// The line that says how the program is called.
pub(crate) const USAGE: &[u8] = b"usage: ode_multi FILE\n";

// The one word that names a file.
fn only_word(words: &[String]) -> Option<&str>
    ensures { option_copied result ≡ multi_word (bytes_of words.now) }
{
    match words {
        [word] => {
            if is_file(word.as_str()) {
                Some(word.as_str())
            } else {
                None
            }
        }
        _ => None,
    }
}

/// The name of the file, where the words are right: one word that isn't empty and doesn't begin with `-`.
pub fn multi_word(words: &Vec<String>) -> Option<&str>
    ensures { option_copied result ≡ multi_word (bytes_of words.now.items) }
{
    only_word(words)
}

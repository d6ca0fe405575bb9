ghost use Rattle.std.specs.Prelude.{◌≡◌, ◌↔◌, [], ◌∷◌, map, string_bytes, IsTrue};

use std::alloc::Global;
use std::env;
use std::rt::Env;

/// The words of the command line after the program's name. There are none where they cannot be had or one is no text, and so the usage
/// line comes.
pub fn program_words<R: Env + AllocGlobal>(rt: &R, alloc: Global) -> Vec<String> {
    match env::args(rt) {
        Ok(args) => match args.skip(1).collect(alloc) {
            Ok(words) => words,
            Err(_) => Vec::new(alloc),
        },
        Err(_) => Vec::new(alloc),
    }
}

/// Whether the words are this one alone.
pub fn is_word(words: &[String], word: &str) -> bool
    ensures { IsTrue result ↔ (map string_bytes words.now ≡ word.now ∷ []) }
{
    match words {
        [only] => only.as_str() == word,
        _ => false,
    }
}

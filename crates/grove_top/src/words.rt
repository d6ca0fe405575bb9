ghost use Rattle.std.specs.Prelude.{◌≡◌, ◌≤◌, ℕ, codes, decimal, IfSome, IfNone};
ghost use Rattle.grove_calls.specs.Rules.{AreOfNone};
ghost use Rattle.grove_top.specs.declared.command.Command.TheVariants.{Generate};
ghost use Rattle.grove_top.specs.Due.{top_rules};
ghost use Rattle.grove_top.specs.Words.{AreOf, most_loads};

use crate::command::{Command, Question};
use crate::limit::MOST_LOADS;
use grove_calls::is_word;
use text_parts::read_number;

/// What the words ask for.
pub(crate) fn command_of(words: &[String]) -> Option<Command>
    ensures found { IfSome result (λ command. AreOf command words.now) }
    ensures none { IfNone result (AreOfNone top_rules words.now) }
{
    if is_word(words, "merge") {
        Some(Command::Ask(Question::Merge))
    } else if is_word(words, "show") {
        Some(Command::Ask(Question::Show))
    } else if is_word(words, "check") {
        Some(Command::Ask(Question::Check))
    } else if is_word(words, "run") {
        Some(Command::Run)
    } else {
        let loads = loads_of(words)?;
        Some(Command::Generate { loads })
    }
}

// How many loads the words ask for, if they are those of a generated session.
fn loads_of(words: &[String]) -> Option<u64>
    ensures found { IfSome result (λ loads. AreOf (Generate loads) words.now) }
    ensures none { IfNone result ((loads : ℕ) → AreOf (Generate loads) words.now → ⊥) }
{
    match words {
        [word, number] => loads_in(word.as_str(), number.as_str()),
        _ => None,
    }
}

fn loads_in(word: &str, number: &str) -> Option<u64>
    ensures found { IfSome result (λ loads. (word.now ≡ codes "gen") × (number.now ≡ decimal loads) × (1 ≤ loads) × (loads ≤ most_loads)) }
    ensures none { IfNone result ((loads : ℕ) → word.now ≡ codes "gen" → number.now ≡ decimal loads → 1 ≤ loads → loads ≤ most_loads → ⊥) }
{
    if word != "gen" {
        return None;
    }
    let loads = read_number(number.as_bytes())?;
    if loads < 1 {
        return None;
    }
    if loads > MOST_LOADS {
        None
    } else {
        Some(loads)
    }
}

ghost use Rattle.std.specs.Prelude.{◌≡◌, ◌<◌, ◌≤◌, ◌^◌, ℕ, codes, decimal, IfSome, IfNone};
ghost use Rattle.grove_calls.specs.Rules.{AreOfNone};
ghost use Rattle.grove_tools.specs.declared.tool.Tool.TheVariants.{Relay, Undo};
ghost use Rattle.grove_tools.specs.Due.{tool_rules};
ghost use Rattle.grove_tools.specs.Words.{AreOf, AreOfNoNumber, AreOfNoWord, most_senders};

use crate::tool::{MOST_SENDERS, Tool};
use grove_calls::is_word;
use text_parts::read_number;

/// What the words ask for, if they are of a form that is open.
pub(crate) fn tool_of(words: &[String]) -> Option<Tool>
    ensures found { IfSome result (λ tool. AreOf tool words.now) }
    ensures none { IfNone result (AreOfNone tool_rules words.now) }
{
    match plain_tool_of(words) {
        Some(tool) => Some(tool),
        None => numbered_tool_of(words),
    }
}

// The form of one word that is asked for, if any.
fn plain_tool_of(words: &[String]) -> Option<Tool>
    ensures found { IfSome result (λ tool. AreOf tool words.now) }
    ensures none { IfNone result (AreOfNoWord words.now) }
{
    if is_word(words, "infer") {
        Some(Tool::Infer)
    } else if is_word(words, "keep") {
        Some(Tool::Keep)
    } else if is_word(words, "json") {
        Some(Tool::Json)
    } else {
        None
    }
}

// The form of a word and a number that is asked for, if any.
fn numbered_tool_of(words: &[String]) -> Option<Tool>
    ensures found { IfSome result (λ tool. AreOf tool words.now) }
    ensures none { IfNone result (AreOfNoNumber words.now) }
{
    match senders_of(words) {
        Some(senders) => Some(Tool::Relay { senders }),
        None => {
            let author = author_of(words)?;
            Some(Tool::Undo { author })
        }
    }
}

// How many senders the words ask for, if they are those of a relay.
fn senders_of(words: &[String]) -> Option<u32>
    ensures found { IfSome result (λ senders. AreOf (Relay senders) words.now) }
    ensures none { IfNone result ((senders : ℕ) → AreOf (Relay senders) words.now → ⊥) }
{
    match words {
        [word, number] => senders_in(word.as_str(), number.as_str()),
        _ => None,
    }
}

fn senders_in(word: &str, number: &str) -> Option<u32>
    ensures found { IfSome result (λ senders. (word.now ≡ codes "relay") × (number.now ≡ decimal senders) × (1 ≤ senders) × (senders ≤ most_senders)) }
    ensures none { IfNone result ((senders : ℕ) → word.now ≡ codes "relay" → number.now ≡ decimal senders → 1 ≤ senders → senders ≤ most_senders → ⊥) }
{
    if word != "relay" {
        return None;
    }
    let senders = read_number(number.as_bytes())?;
    if senders < 1 {
        return None;
    }
    if senders > MOST_SENDERS as u64 {
        None
    } else {
        Some(senders as u32)
    }
}

// Whose action the words ask to undo, if they are those of undoing.
fn author_of(words: &[String]) -> Option<u32>
    ensures found { IfSome result (λ author. AreOf (Undo author) words.now) }
    ensures none { IfNone result ((author : ℕ) → AreOf (Undo author) words.now → ⊥) }
{
    match words {
        [word, number] => author_in(word.as_str(), number.as_str()),
        _ => None,
    }
}

fn author_in(word: &str, number: &str) -> Option<u32>
    ensures found { IfSome result (λ author. (word.now ≡ codes "undo") × (number.now ≡ decimal author) × (1 ≤ author) × (author < 2 ^ 32)) }
    ensures none { IfNone result ((author : ℕ) → word.now ≡ codes "undo" → number.now ≡ decimal author → 1 ≤ author → author < 2 ^ 32 → ⊥) }
{
    if word != "undo" {
        return None;
    }
    let author = read_number(number.as_bytes())?;
    if author < 1 {
        return None;
    }
    if author > u32::MAX as u64 {
        None
    } else {
        Some(author as u32)
    }
}

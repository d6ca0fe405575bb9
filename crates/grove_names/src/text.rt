ghost use Rattle.std.specs.Prelude.{◌≡◌, ◌≢◌, ◌↔◌, ℕ, ◌<◌, ◌^◌, List, false, ◌∷◌, ◌++◌, IfSome, IsSomeAnd, IfOk, OnOk, OnErr, IsErr};
ghost use Rattle.std.specs.Str.Parse.{digits_value};
ghost use Rattle.text_parts.specs.Number.{IsNumberText, begins_with_digit};
ghost use Rattle.grove_names.specs.declared.name.Name.{Name};
ghost use Rattle.grove_names.specs.Name.{InRange, name_text};

use crate::fault::NameFault;
use crate::name::Name;
use text_parts::{NoMemory, put_number, take_number};

// Room for two numbers and a dot. An author has 10 digits at most, but `put_number` asks for the room of the longest number, 20.
const ROOM_FOR_A_NAME: usize = 41;

/// Reads a name, which all of the bytes spell: the author's number, a dot and the counter.
pub fn read_name(bytes: &[u8]) -> Result<Name, NameFault>
    ensures found { IfOk result (λ name. bytes.now ≡ name_text name) }
    ensures in_range { IfOk result InRange }
    ensures not_a_name { IsErr result ↔ ((name : Name) → InRange name → bytes.now ≢ name_text name) }
{
    let Some((name, rest)) = take_name(bytes) else {
        return Err(NameFault::NotAName);
    };
    if rest.is_empty() {
        Ok(name)
    } else {
        Err(NameFault::NotAName)
    }
}

/// Reads the name that the bytes begin with, with all digits of its counter, and answers what stands behind it.
#[inline(always)]
pub fn take_name(bytes: &[u8]) -> Option<(Name, &[u8])>
    ensures found { IfSome result (λ read. bytes.now ≡ name_text read.0 ++ read.1.now) }
    ensures in_range { IfSome result (λ read. InRange read.0) }
    ensures only { (name : Name) (rest : List ℕ) → InRange name → begins_with_digit rest ≡ false → bytes.now ≡ name_text name ++ rest
        → IsSomeAnd result (λ read. (read.0 ≡ name) × (read.1.now ≡ rest)) }
{
    let (author, rest) = take_number(bytes)?;
    let [b'.', counter @ ..] = rest else {
        return None;
    };
    let (counter, rest) = take_number(counter)?;
    let Ok(author) = u32::try_from(author) else {
        return None;
    };
    Some((Name { author, counter }, rest))
}

/// Appends the text of a name.
pub fn write_name(name: Name, out: &mut Vec<u8>) -> Result<(), NoMemory>
    ensures appended { OnOk result (out.new.items ≡ out.old.items ++ name_text name) }
    ensures unchanged { OnErr result (out.new.items ≡ out.old.items) }
{
    out.reserve(ROOM_FOR_A_NAME)?;
    put_number(u64::from(name.author), out);
    out.push_reserved(b'.');
    put_number(name.counter, out);
    Ok(())
}

/// Two names never have the same text, and any number below 2^32, a dot and a number below 2^64 are the text of a name.
pub fn name_has_one_text()
    ensures one { (a b : Name) → InRange a → InRange b → name_text a ≡ name_text b → a ≡ b }
    ensures each { (author counter : List ℕ) → IsNumberText author → IsNumberText counter
        → digits_value 10 author < 2 ^ 32 → digits_value 10 counter < 2 ^ 64
        → author ++ 46 ∷ counter ≡ name_text (record { author = digits_value 10 author; counter = digits_value 10 counter }) }
{}

ghost use Rattle.std.specs.Prelude.{◌≡◌, ◌≢◌, ◌∷◌, ◌++◌, IfSome, IfNone, OnOk, OnErr};
ghost use Rattle.grove_names.specs.declared.name.Name.{Name};
ghost use Rattle.grove_names.specs.Name.{name_text, InRange as NameInRange};
ghost use Rattle.grove_sorts.specs.declared.ctor.Ctor.{Ctor};
ghost use Rattle.grove_sorts.specs.Ctor.{ctor_text, InRange as CtorInRange};
ghost use Rattle.grove_sorts.specs.Position.{position_text};
ghost use Rattle.grove_sorts.specs.Version.{IsCtorOf, IsPositionOf};
ghost use Rattle.edit_text.specs.Line.{spaced, Extends};
ghost use Rattle.grove_edits.specs.declared.action.Action.{Action};
ghost use Rattle.grove_edits.specs.declared.action.Place.{Place};
ghost use Rattle.session_script.specs.Action.{action_parts, action_line, ActionInRange, IsActionOf, HasNoCtor};

use crate::parts::{after_word, take_name, take_position};
use grove_edits::{Action, Place};
use grove_names::{Name, read_name, write_name};
use grove_sorts::{Ctor, Version, read_ctor, read_position, write_ctor, write_position};
use text_parts::{NoMemory, write_number};

/// Appends an author's line, without an LF.
pub fn write_action(author: u32, action: &Action, out: &mut Vec<u8>) -> Result<(), NoMemory>
    ensures appended { OnOk result (out.new.items ≡ out.old.items ++ action_line author action.now) }
    ensures unchanged { OnErr result (out.new.items ≡ out.old.items) }
{
    let start = out.len();
    let written = append_line(author, action, out);
    if written.is_err() {
        out.truncate(start);
    }
    written
}

// After an error the line may stand in part, as in the functions below.
fn append_line(author: u32, action: &Action, out: &mut Vec<u8>) -> Result<(), NoMemory>
    ensures appended { OnOk result (out.new.items ≡ out.old.items ++ action_line author action.now) }
    ensures in_part { OnErr result (Extends out.old.items out.new.items) }
{
    write_number(u64::from(author), out)?;
    out.push(b' ')?;
    append_action(action, out)
}

// The words of each action stand here, as they are written and, below, as they are read.
fn append_action(action: &Action, out: &mut Vec<u8>) -> Result<(), NoMemory>
    ensures appended { OnOk result (out.new.items ≡ out.old.items ++ spaced (action_parts action.now)) }
    ensures in_part { OnErr result (Extends out.old.items out.new.items) }
{
    match action {
        Action::Construct { place, ctor } => append_with_ctor(b"construct ", place, ctor, out),
        Action::Wrap { place, ctor } => append_with_ctor(b"wrap ", place, ctor, out),
        Action::Become { place, ctor } => append_with_ctor(b"become ", place, ctor, out),
        Action::Delete { place } => append_with_place(b"delete ", place, out),
        Action::Cut { edge } => append_with_name(b"cut ", *edge, out),
        Action::Relocate { edge, place } => append_with_both(b"relocate ", *edge, place, out),
        Action::Restore { vertex, place } => append_with_both(b"restore ", *vertex, place, out),
    }
}

/// Reads an action of the version, which all of the text spells: its word, and what it is done with and where.
pub fn read_action(version: Version, text: &[u8]) -> Option<Action>
    ensures found { IfSome result (λ action. text.now ≡ spaced (action_parts action)) }
    ensures in_range { IfSome result ActionInRange }
    ensures of_version { IfSome result (IsActionOf version) }
    ensures none { IfNone result ((action : Action) → ActionInRange action → IsActionOf version action → text.now ≢ spaced (action_parts action)) }
{
    if let Some(rest) = after_word(text, b"construct ") {
        let (place, ctor) = read_place_ctor(version, rest)?;
        return Some(Action::Construct { place, ctor });
    }
    if let Some(rest) = after_word(text, b"wrap ") {
        let (place, ctor) = read_place_ctor(version, rest)?;
        return Some(Action::Wrap { place, ctor });
    }
    if let Some(rest) = after_word(text, b"become ") {
        let (place, ctor) = read_place_ctor(version, rest)?;
        return Some(Action::Become { place, ctor });
    }
    read_other(version, text)
}

// One that has no constructor.
fn read_other(version: Version, text: &[u8]) -> Option<Action>
    ensures found { IfSome result (λ action. text.now ≡ spaced (action_parts action)) }
    ensures in_range { IfSome result ActionInRange }
    ensures of_version { IfSome result (IsActionOf version) }
    ensures none { IfNone result ((action : Action) → HasNoCtor action → ActionInRange action → IsActionOf version action → text.now ≢ spaced (action_parts action)) }
{
    if let Some(rest) = after_word(text, b"delete ") {
        let place = read_place(version, rest)?;
        return Some(Action::Delete { place });
    }
    if let Some(rest) = after_word(text, b"cut ") {
        return match read_name(rest) {
            Ok(edge) => Some(Action::Cut { edge }),
            Err(_) => None,
        };
    }
    if let Some(rest) = after_word(text, b"relocate ") {
        let (edge, place) = read_name_place(version, rest)?;
        return Some(Action::Relocate { edge, place });
    }
    let rest = after_word(text, b"restore ")?;
    let (vertex, place) = read_name_place(version, rest)?;
    Some(Action::Restore { vertex, place })
}

fn append_with_name(word: &[u8], name: Name, out: &mut Vec<u8>) -> Result<(), NoMemory>
    ensures appended { OnOk result (out.new.items ≡ out.old.items ++ (word.now ++ name_text name)) }
    ensures in_part { OnErr result (Extends out.old.items out.new.items) }
{
    out.extend_from_slice(word)?;
    write_name(name, out)?;
    Ok(())
}

fn append_with_place(word: &[u8], place: &Place, out: &mut Vec<u8>) -> Result<(), NoMemory>
    ensures appended { OnOk result (out.new.items ≡ out.old.items ++ (word.now ++ (name_text place.now.name ++ 32 ∷ position_text place.now.position))) }
    ensures in_part { OnErr result (Extends out.old.items out.new.items) }
{
    append_with_name(word, place.name, out)?;
    out.push(b' ')?;
    write_position(place.position, out)?;
    Ok(())
}

fn append_with_ctor(
    word: &[u8],
    place: &Place,
    ctor: &Ctor,
    out: &mut Vec<u8>,
) -> Result<(), NoMemory>
    ensures appended { OnOk result (out.new.items ≡ out.old.items ++ (word.now ++ (name_text place.now.name ++ 32 ∷ (position_text place.now.position ++ 32 ∷ ctor_text ctor.now)))) }
    ensures in_part { OnErr result (Extends out.old.items out.new.items) }
{
    append_with_place(word, place, out)?;
    out.push(b' ')?;
    write_ctor(ctor, out)?;
    Ok(())
}

fn append_with_both(
    word: &[u8],
    name: Name,
    place: &Place,
    out: &mut Vec<u8>,
) -> Result<(), NoMemory>
    ensures appended { OnOk result (out.new.items ≡ out.old.items ++ (word.now ++ (name_text name ++ 32 ∷ (name_text place.now.name ++ 32 ∷ position_text place.now.position)))) }
    ensures in_part { OnErr result (Extends out.old.items out.new.items) }
{
    append_with_name(word, name, out)?;
    append_with_place(b" ", place, out)
}

// A place at the end of a line.
fn read_place(version: Version, text: &[u8]) -> Option<Place>
    ensures found { IfSome result (λ place. text.now ≡ name_text place.name ++ 32 ∷ position_text place.position) }
    ensures in_range { IfSome result (λ place. NameInRange place.name) }
    ensures of_version { IfSome result (λ place. IsPositionOf version place.position) }
    ensures none { IfNone result ((place : Place) → NameInRange place.name → IsPositionOf version place.position → text.now ≢ name_text place.name ++ 32 ∷ position_text place.position) }
{
    let (name, rest) = take_name(text)?;
    let position = read_position(version, rest)?;
    Some(Place { name, position })
}

// A place and a constructor.
fn read_place_ctor(version: Version, text: &[u8]) -> Option<(Place, Ctor)>
    ensures found { IfSome result (λ read. text.now ≡ name_text read.0.name ++ 32 ∷ (position_text read.0.position ++ 32 ∷ ctor_text read.1)) }
    ensures in_range { IfSome result (λ read. NameInRange read.0.name × CtorInRange read.1) }
    ensures of_version { IfSome result (λ read. IsPositionOf version read.0.position × IsCtorOf version read.1) }
    ensures none { IfNone result ((place : Place) (ctor : Ctor) → NameInRange place.name → CtorInRange ctor → IsPositionOf version place.position → IsCtorOf version ctor
        → text.now ≢ name_text place.name ++ 32 ∷ (position_text place.position ++ 32 ∷ ctor_text ctor)) }
{
    let (name, rest) = take_name(text)?;
    let (position, rest) = take_position(version, rest)?;
    let ctor = read_ctor(version, rest)?;
    Some((Place { name, position }, ctor))
}

// A name and a place.
fn read_name_place(version: Version, text: &[u8]) -> Option<(Name, Place)>
    ensures found { IfSome result (λ read. text.now ≡ name_text read.0 ++ 32 ∷ (name_text read.1.name ++ 32 ∷ position_text read.1.position)) }
    ensures in_range { IfSome result (λ read. NameInRange read.0 × NameInRange read.1.name) }
    ensures of_version { IfSome result (λ read. IsPositionOf version read.1.position) }
    ensures none { IfNone result ((name : Name) (place : Place) → NameInRange name → NameInRange place.name → IsPositionOf version place.position
        → text.now ≢ name_text name ++ 32 ∷ (name_text place.name ++ 32 ∷ position_text place.position)) }
{
    let (name, rest) = take_name(text)?;
    let place = read_place(version, rest)?;
    Some((name, place))
}

ghost use Rattle.std.specs.Prelude.{◌≡◌, ◌==◌, ℕ, ◌<◌, ◌≤◌, ◌^◌, ◌++◌, None, OnOk, slice_index_or};
ghost use Rattle.std.specs.List.{position};
ghost use Rattle.numbers_by_name.specs.ByName.{all_numbers};
ghost use Rattle.numbers_by_name.specs.Pages.{page_of, place_of, page_numbers, entry_at, entry_numbers, items_of, at_name, names_on};

use crate::lists::Lists;
use crate::page::{Entry, PAGE_SIZE, Page};
use grove_names::Name;
use std::slice;
use text_parts::NoMemory;

/// The page on which a name stands.
pub(crate) fn page_of(name: Name) -> Name
    ensures page { result ≡ page_of name }
    ensures fits { result.counter < 2 ^ 58 }
{
    Name {
        author: name.author,
        counter: name.counter / PAGE_SIZE,
    }
}

/// Where on its page a name stands.
pub(crate) fn place_of(name: Name) -> u8
    ensures { result ≡ place_of name }
{
    (name.counter % PAGE_SIZE) as u8
}

/// Where the entry of a place stands among those of its page, which are few.
pub(crate) fn index_of(entries: &[Entry], place: u8) -> Option<usize>
    ensures { result ≡ position (λ entry. entry.place == place) entries.now }
{
    entries.iter().position(|entry| entry.place == place)
}

/// How many of the first places of a page are gone over for its entries: those behind have none.
pub(crate) fn places_used(entries: &[Entry]) -> u64
    ensures within { result ≤ 64 }
    ensures past { (place : ℕ) → result ≤ place → place < 64 → entry_at place entries.now ≡ None }
{
    let mut used = 0;
    for entry in entries {
        used = used.max(u64::from(entry.place) + 1);
    }
    used.min(PAGE_SIZE)
}

/// The numbers of a name on its page.
pub(crate) fn numbers_on<'n>(page: &'n Page, lists: &'n Lists, name: Name) -> &'n [u32]
    ensures { result.now ≡ page_numbers page.now lists.now.entries name }
{
    let Some(index) = index_of(&page.entries, place_of(name)) else {
        return &[];
    };
    let entry = &page.entries[index];
    if !entry.several {
        return slice::from_ref(&entry.number);
    }
    match lists.get(&name) {
        Some(list) => list.as_slice(),
        None => &[],
    }
}

// The entries of a page, each at its place.
fn by_place(entries: &[Entry]) -> [Option<Entry>; PAGE_SIZE as usize]
    ensures { (place : ℕ) → place < 64 → slice_index_or result place None ≡ entry_at place entries.now }
{
    let mut places = [None; PAGE_SIZE as usize];
    for entry in entries {
        let place = entry.place as usize;
        if place < places.len() && places[place].is_none() {
            places[place] = Some(*entry);
        }
    }
    places
}

// Puts the numbers of a name behind others.
fn append_entry(
    entry: Option<Entry>,
    lists: &Lists,
    name: Name,
    numbers: &mut Vec<u32>,
) -> Result<(), NoMemory>
    ensures { OnOk result (numbers.new.items ≡ numbers.old.items ++ entry_numbers entry (items_of (at_name name lists.now.entries))) }
{
    let Some(entry) = entry else {
        return Ok(());
    };
    if !entry.several {
        numbers.push(entry.number)?;
    } else if let Some(list) = lists.get(&name) {
        numbers.extend_from_slice(list.as_slice())?;
    }
    Ok(())
}

/// Puts the numbers of a page behind others, those of the least counter first.
pub(crate) fn append_page(
    page: &Page,
    lists: &Lists,
    numbers: &mut Vec<u32>,
) -> Result<(), NoMemory>
    requires { page.now.name.counter < 2 ^ 58 }
    ensures { OnOk result (numbers.new.items ≡ numbers.old.items ++ all_numbers (names_on (page_numbers page.now lists.now.entries) page.now.name 64)) }
{
    let places = by_place(&page.entries);
    for place in 0..PAGE_SIZE {
        let name = Name {
            author: page.name.author,
            counter: PAGE_SIZE * page.name.counter + place,
        };
        append_entry(places[place as usize], lists, name, numbers)?;
    }
    Ok(())
}

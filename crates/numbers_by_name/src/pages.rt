ghost use Rattle.std.specs.Prelude.{◌≡◌, ◌≢◌, ℕ, ◌<◌, ◌≤◌, ◌+◌, ◌*◌, ◌^◌, ◌++◌, [], None, Some, IfSome, IfNone, IfOk, OnOk, OnErr, IsTrue, false, length, vec_len, vec_capacity};
ghost use Rattle.grove_names.specs.declared.name.Name.{Name};
ghost use Rattle.numbers_by_name.specs.ByName.{all_numbers, name_by, with_number, IsBefore};
ghost use Rattle.numbers_by_name.specs.Pages.{page_of, at_name, numbers_in, lists_of, names_on, IsWhole, IsSame, IsPageOf, IsLastPage, IsLastIn, HasNoneIn, IsLastOnPage, HasNoneOnPage};

use crate::guesses::Guesses;
use crate::lists::{Lists, add_to_list, put_two};
use crate::on_page::{append_page, index_of, numbers_on, page_of, place_of, places_used};
use crate::page::{Entry, PAGE_SIZE, Page};
use grove_names::Name;
use std::alloc::Global;
use std::collections::BTreeMap;
use std::ops::Bound;
use text_parts::NoMemory;

// By which part of its length the list of pages grows.
const GROWTH: usize = 8;

/// The names with numbers, on pages.
#[derive(Drop)]
pub(crate) struct Pages {
    // In the order in which they came.
    pub(crate) list: Vec<Page>,
    // Where each page stands in the list.
    pub(crate) places: BTreeMap<Name, u32>,
    // The same, mostly, but told at once.
    pub(crate) guesses: Guesses,
    pub(crate) lists: Lists,
}

impl Pages {
    pub(crate) fn new(alloc: Global) -> Pages
        ensures whole { IsWhole result }
        ensures empty { lists_of result ≡ [] }
    {
        Pages {
            list: Vec::new(alloc),
            places: BTreeMap::new(alloc),
            guesses: Guesses::new(alloc),
            lists: BTreeMap::new(alloc),
        }
    }

    // Where a page stands in the list.
    fn place(&self, page: Name) -> Option<usize>
        requires { IsWhole self.now }
        ensures place { result ≡ at_name page self.now.places.entries }
        ensures bound { IfSome result (λ at. at < length self.now.list.items) }
    {
        let guess = self.guesses.guess(page);
        if guess < self.list.len() && self.list[guess].name == page {
            return Some(guess);
        }
        Some(*self.places.get(&page)? as usize)
    }

    /// The numbers of a name.
    pub(crate) fn numbers(&self, name: Name) -> &[u32]
        requires { IsWhole self.now }
        ensures { result.now ≡ numbers_in self.now name }
    {
        match self.place(page_of(name)) {
            Some(at) => numbers_on(&self.list[at], &self.lists, name),
            None => &[],
        }
    }

    // Adds a number behind those that the name has, whose page stands at a place.
    fn add_on_page(
        &mut self,
        alloc: Global,
        at: usize,
        name: Name,
        number: u32,
    ) -> Result<(), NoMemory>
        requires whole { IsWhole self.old }
        requires place { at_name (page_of name) self.old.places.entries ≡ Some at }
        requires bound { at < length self.old.list.items }
        ensures whole { IsWhole self.new }
        ensures added { OnOk result ((n : Name) → numbers_in self.new n ≡ with_number name number (numbers_in self.old) n) }
        ensures unchanged { OnErr result (IsSame self.old self.new) }
    {
        let place = place_of(name);
        let page = &mut self.list[at];
        let Some(index) = index_of(&page.entries, place) else {
            page.entries.push(Entry {
                place,
                several: false,
                number,
            })?;
            return Ok(());
        };
        if page.entries[index].several {
            return add_to_list(&mut self.lists, alloc, name, number);
        }
        put_two(
            &mut self.lists,
            alloc,
            name,
            page.entries[index].number,
            number,
        )?;
        page.entries[index].several = true;
        Ok(())
    }

    // Adds a page with a name on it that has a number.
    fn add_page(&mut self, alloc: Global, name: Name, number: u32) -> Result<(), NoMemory>
        requires whole { IsWhole self.old }
        requires absent { at_name (page_of name) self.old.places.entries ≡ None }
        ensures whole { IsWhole self.new }
        ensures added { OnOk result ((n : Name) → numbers_in self.new n ≡ with_number name number (numbers_in self.old) n) }
        ensures unchanged { OnErr result (IsSame self.old self.new) }
    {
        let at = next_place(&self.list)?;
        let page = new_page(alloc, name, number)?;
        make_room(&mut self.list)?;
        self.places.insert(page_of(name), at)?;
        self.list.push_reserved(page);
        note_last(&mut self.guesses, &self.list);
        Ok(())
    }

    /// Adds a number behind those that the name has.
    pub(crate) fn add(&mut self, alloc: Global, name: Name, number: u32) -> Result<(), NoMemory>
        requires { IsWhole self.old }
        ensures whole { IsWhole self.new }
        ensures added { OnOk result ((n : Name) → numbers_in self.new n ≡ with_number name number (numbers_in self.old) n) }
        ensures unchanged { OnErr result (IsSame self.old self.new) }
    {
        match self.place(page_of(name)) {
            Some(at) => self.add_on_page(alloc, at, name, number),
            None => self.add_page(alloc, name, number),
        }
    }

    // Puts the numbers of a page behind others.
    fn append(&self, page: Name, numbers: &mut Vec<u32>) -> Result<(), NoMemory>
        requires { IsWhole self.now }
        ensures { OnOk result (numbers.new.items ≡ numbers.old.items ++ all_numbers (names_on (numbers_in self.now) page 64)) }
    {
        match self.place(page) {
            Some(at) => append_page(&self.list[at], &self.lists, numbers),
            None => Ok(()),
        }
    }

    /// Puts all numbers behind others: those of the least name first, and then those of each greater one.
    pub(crate) fn append_all(&self, numbers: &mut Vec<u32>) -> Result<(), NoMemory>
        requires { IsWhole self.now }
        ensures { OnOk result (numbers.new.items ≡ numbers.old.items ++ all_numbers (lists_of self.now)) }
    {
        for page in self.places.keys() {
            self.append(*page, numbers)?;
        }
        Ok(())
    }

    // The last page of an author that has counters which are less than a bound, where one is given.
    fn last_page(&self, author: u32, before: Option<u64>) -> Option<Name>
        requires { IsWhole self.now }
        ensures last { IfSome result (IsLastPage self.now author before) }
        ensures none { IfNone result (HasNoneIn self.now author before) }
    {
        let Some(number) = last_number(before) else {
            return None;
        };
        let end = Name {
            author,
            counter: number,
        };
        let (page, _) = self
            .places
            .range((Bound::Unbounded, Bound::Included(end)))
            .next_back()?;
        if page.author == author {
            Some(*page)
        } else {
            None
        }
    }

    // How many of the first places of a page may have numbers.
    fn places_used(&self, page: Name) -> u64
        requires { IsWhole self.now }
        ensures within { result ≤ 64 }
        ensures past { (place : ℕ) → result ≤ place → place < 64 → numbers_in self.now (name_by page.author (64 * page.counter + place)) ≡ [] }
    {
        match self.place(page) {
            Some(at) => places_used(&self.list[at].entries),
            None => 0,
        }
    }

    // The last counter on a page that has numbers, of those that are less than a bound, where one is given.
    fn last_on_page(&self, page: Name, before: Option<u64>) -> Option<(u64, &[u32])>
        requires whole { IsWhole self.now }
        requires fits { page.counter < 2 ^ 58 }
        ensures last { IfSome result (λ last. IsLastOnPage self.now page before last.0) }
        ensures numbers { IfSome result (λ last. last.1.now ≡ numbers_in self.now (name_by page.author last.0)) }
        ensures none { IfNone result (HasNoneOnPage self.now page before) }
    {
        let mut places = self.places_used(page);
        while places > 0 {
            places -= 1;
            let counter = PAGE_SIZE * page.counter + places;
            if is_before(before, counter) {
                let numbers = self.numbers(Name {
                    author: page.author,
                    counter,
                });
                if !numbers.is_empty() {
                    return Some((counter, numbers));
                }
            }
        }
        None
    }

    /// The greatest counter under which the author has a name with numbers, and the numbers; of the counters that are less than
    /// `before` alone, where that is given.
    pub(crate) fn last_before(&self, author: u32, before: Option<u64>) -> Option<(u64, &[u32])>
        requires { IsWhole self.now }
        ensures last { IfSome result (λ last. IsLastIn self.now author before last.0) }
        ensures numbers { IfSome result (λ last. last.1.now ≡ numbers_in self.now (name_by author last.0)) }
        ensures none { IfNone result (HasNoneIn self.now author before) }
    {
        let page = self.last_page(author, before)?;
        match self.last_on_page(page, before) {
            Some(last) => Some(last),
            None => self.last_before(author, Some(PAGE_SIZE * page.counter)),
        }
    }
}

// The number of the last page that has counters which are less than a bound, where there is one.
fn last_number(before: Option<u64>) -> Option<u64>
    ensures up_to { IfSome result (λ end. (page : ℕ) → page < 2 ^ 58 → IsBefore before (64 * page) → page ≤ end) }
    ensures before { IfSome result (λ end. (page : ℕ) → page ≤ end → IsBefore before (64 * page)) }
    ensures none { IfNone result ((counter : ℕ) → IsBefore before counter → ⊥) }
{
    match before {
        Some(0) => None,
        Some(bound) => Some((bound - 1) / PAGE_SIZE),
        None => Some(u64::MAX / PAGE_SIZE),
    }
}

// Whether a counter is less than a bound, where there is one.
fn is_before(bound: Option<u64>, counter: u64) -> bool
    ensures before { IsTrue result → IsBefore bound counter }
    ensures behind { result ≡ false → IsBefore bound counter → ⊥ }
{
    match bound {
        Some(bound) => counter < bound,
        None => true,
    }
}

// A page with one name, that has one number.
fn new_page(alloc: Global, name: Name, number: u32) -> Result<Page, NoMemory>
    ensures { IfOk result (IsPageOf name number) }
{
    let mut entries = Vec::new(alloc);
    entries.push(Entry {
        place: place_of(name),
        several: false,
        number,
    })?;
    Ok(Page {
        name: page_of(name),
        entries,
    })
}

// Where the next page will stand.
fn next_place(list: &[Page]) -> Result<u32, NoMemory>
    ensures { IfOk result (λ at. at ≡ length list.now) }
{
    match u32::try_from(list.len()) {
        Ok(at) => Ok(at),
        Err(_) => Err(NoMemory),
    }
}

// Makes room for one more. A list that grows by a part of its length is copied seldom enough, and little of it is left empty.
fn make_room(list: &mut Vec<Page>) -> Result<(), NoMemory>
    ensures same { list.new.items ≡ list.old.items }
    ensures room { OnOk result (vec_len list.new < vec_capacity list.new) }
{
    if list.len() == list.capacity() {
        list.reserve_exact(list.len() / GROWTH + 1)?;
    }
    Ok(())
}

// Takes note of the last page.
fn note_last(guesses: &mut Guesses, pages: &[Page]) {
    if guesses.grow_for(pages.len()) {
        for (place, page) in pages.iter().enumerate() {
            guesses.note(page.name, place);
        }
    } else if let Some(last) = pages.last() {
        guesses.note(last.name, pages.len() - 1);
    }
}

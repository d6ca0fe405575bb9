//! The steps on the table's words, each through a seat's place.
ghost use Rattle.std.specs.Prelude.{◌≡◌, ℕ, ◌+◌, ◌-◌, ◌<◌, ◌≤◌, ◌^◌, true, false, List, [], ◌∷◌, ◌++◌, length, Some, None, IfSome};
ghost use mathlib.Core.List.{IsPrefix};
ghost use Rattle.turn_lock.specs.Places.{longer};
ghost use Rattle.turn_lock.specs.declared.known.Opening.{Opening};
ghost use Rattle.turn_lock.specs.Rule.{Enters, after_turn, cut_left, cut_right, both};

use crate::kept::Kept;
use crate::known::{Place, SERVING, STATE, TICKET, Words};
use crate::plays::{Both, Cut, Draw, Leave, Look, Settle, Share};
use crossbeam_utils::Backoff;
use std::marker::Brand;
use std::sync::Wait;

// How often a thread looks whether the turn is free before it queues up. Once threads sleep in the queue, each turn is handed on by
// a wake, so they should seldom come to that.
const MOST_LOOKS: u32 = 1000;

// Draws a number. While another thread has the turn it looks for a while before it queues up: so mostly the number is served at
// once, and the turn seldom waits for a thread that does not run. After the last number of a `u64` it waits for ever.
pub(crate) fn draw<S: Kept, R: Wait>(rt: &R, words: &Words<S>, place: &mut Place<S>) -> u64
    requires table { (place.old.table_id ≡ words.now.table_id) × (words.now.table_id.words ≡ 2) }
    requires rests { (0 < place.old.me.0.parts) × (place.old.me.0.ticket ≡ None) × (place.old.me.0.turn ≡ false) }
    ensures table { (place.new.table_id ≡ place.old.table_id) × (place.new.id ≡ place.old.id) }
    ensures drawn { place.new.me ≡ (record place.old.me.0 { ticket = Some result }, place.old.me.1) }
    ensures bounded { result + 1 < 2 ^ 64 }
{
    let backoff = Backoff::new();
    let mut looks = 0u32;
    for _ in rt.forever() {
        let next = words.peek(TICKET);
        let is_free = words.peek(SERVING) == next;
        if next < u64::MAX && (is_free || looks == MOST_LOOKS) {
            let found = words.compare_exchange::<Draw>(place, TICKET, next, next + 1);
            if found == next {
                return next;
            }
        }
        looks = looks.saturating_add(1).min(MOST_LOOKS);
        backoff.snooze();
    }
    unreachable!()
}

// The bits that tell `park` whether the word has changed.
fn low_half(word: u64) -> u32 {
    (word % (1 << 32)) as u32
}

// Waits until the number is served. The state is then out with this seat.
fn wait_for<S: Kept, R: Wait>(rt: &R, words: &Words<S>, place: &mut Place<S>, number: u64)
    requires table { (place.old.table_id ≡ words.now.table_id) × (words.now.table_id.words ≡ 2) }
    requires drawn { (0 < place.old.me.0.parts) × (place.old.me.0.ticket ≡ Some number) × (place.old.me.0.turn ≡ false) }
    ensures table { (place.new.table_id ≡ place.old.table_id) × (place.new.id ≡ place.old.id) }
    ensures turn { Enters S.list S.grown place.old.me place.new.me }
{
    let backoff = Backoff::new();
    for _ in rt.forever() {
        let serving = words.load::<Look>(place, SERVING);
        if serving == number {
            return;
        }
        if backoff.is_completed() {
            words.park(rt, SERVING, low_half(serving));
        } else {
            backoff.snooze();
        }
    }
    unreachable!()
}

// Waits until the number is served, and takes the state.
pub(crate) fn enter<S: Kept, R: Wait>(
    rt: &R,
    words: &Words<S>,
    place: &mut Place<S>,
    number: u64,
) -> S
    requires table { (place.old.table_id ≡ words.now.table_id) × (words.now.table_id.words ≡ 2) }
    requires drawn { (0 < place.old.me.0.parts) × (place.old.me.0.ticket ≡ Some number) × (place.old.me.0.turn ≡ false) × (place.old.me.1 ≡ []) }
    ensures table { (place.new.table_id ≡ place.old.table_id) × (place.new.id ≡ place.old.id) }
    ensures turn { place.new.me ≡ (record place.old.me.0 { turn = true; seen = S.list result }, (0, None) ∷ []) }
    ensures later { IsPrefix place.old.me.0.seen (S.list result) }
    ensures grown { IfSome place.old.me.0.opening (λ o. S.grown o.first result × (length (S.list result) + place.old.me.0.calls ≤ o.calls)) }
{
    wait_for(rt, words, place, number);
    match words.exchange(place, STATE, None) {
        Some(state) => state,
        None => unreachable!(),
    }
}

// Puts the state back, and lets the next number be served. Whoever parks drew its number before it saw the one that was served.
pub(crate) fn leave<S: Kept>(words: &Words<S>, place: &mut Place<S>, number: u64, state: S)
    requires table { (place.old.table_id ≡ words.now.table_id) × (words.now.table_id.words ≡ 2) }
    requires turn { (0 < place.old.me.0.parts) × (place.old.me.0.ticket ≡ Some number) × (number + 1 < 2 ^ 64) × (place.old.me.0.turn ≡ true) × (place.old.me.1 ≡ (0, None) ∷ []) }
    requires entries { (entries : List S.Entry) × (S.list state ≡ place.old.me.0.seen ++ entries) × (length entries ≤ place.old.me.0.calls) }
    requires grown { (o : Opening S.First) × (place.old.me.0.opening ≡ Some o) × S.grown o.first state }
    ensures table { (place.new.table_id ≡ place.old.table_id) × (place.new.id ≡ place.old.id) }
    ensures left { place.new.me ≡ (after_turn place.old.me.0 (S.list state), []) }
{
    match words.exchange(place, STATE, Some(state)) {
        None => {}
        Some(_) => unreachable!(),
    }
    words.store::<Leave>(place, SERVING, number + 1);
    if words.peek(TICKET) != number + 1 {
        words.wake_all(SERVING);
    }
}

// Cuts a seat in two.
fn cut_as<S: Kept, N: Share>(
    words: &Words<S>,
    place: &mut Place<S>,
    tag: u64,
    calls: u64,
) -> Place<S>
    requires share { (tag ≡ N.tag) × (calls ≡ N.calls) }
    requires table { (place.old.table_id ≡ words.now.table_id) × (words.now.table_id.words ≡ 2) }
    requires rests { (place.old.me.0.ticket ≡ None) × (place.old.me.0.turn ≡ false) }
    requires enough { (2 ≤ place.old.me.0.parts) × (calls ≤ place.old.me.0.calls) }
    ensures table { (place.new.table_id ≡ place.old.table_id) × (place.new.id ≡ place.old.id) × (result.table_id ≡ place.old.table_id) }
    ensures kept { place.new.me ≡ (cut_left calls place.old.me.0, place.old.me.1) }
    ensures given { result.me ≡ (cut_right tag calls place.old.me.0, []) }
{
    words.split_seat::<Cut<N>>(place)
}

// The same, at a share that the proof picks.
pub(crate) fn cut<S: Kept>(words: &Words<S>, place: &mut Place<S>, tag: u64, calls: u64) -> Place<S>
    requires table { (place.old.table_id ≡ words.now.table_id) × (words.now.table_id.words ≡ 2) }
    requires rests { (place.old.me.0.ticket ≡ None) × (place.old.me.0.turn ≡ false) }
    requires enough { (2 ≤ place.old.me.0.parts) × (calls ≤ place.old.me.0.calls) }
    ensures table { (place.new.table_id ≡ place.old.table_id) × (place.new.id ≡ place.old.id) × (result.table_id ≡ place.old.table_id) }
    ensures kept { place.new.me ≡ (cut_left calls place.old.me.0, place.old.me.1) }
    ensures given { result.me ≡ (cut_right tag calls place.old.me.0, []) }
{
    cut_as::<S, Brand>(words, place, tag, calls)
}

// Joins two seats. The first load takes in the other seat, the second keeps the longer list.
pub(crate) fn join<S: Kept>(words: &Words<S>, place: &mut Place<S>, other: Place<S>)
    requires table { (place.old.table_id ≡ words.now.table_id) × (other.table_id ≡ words.now.table_id) × (words.now.table_id.words ≡ 2) }
    requires rests { (0 < place.old.me.0.parts) × (place.old.me.0.ticket ≡ None) × (place.old.me.0.turn ≡ false) }
    requires other { (0 < other.me.0.parts) × (other.me.0.ticket ≡ None) × (other.me.0.turn ≡ false) × (other.me.1 ≡ []) }
    ensures table { (place.new.table_id ≡ place.old.table_id) × (place.new.id ≡ place.old.id) }
    ensures joined { place.new.me ≡ (record (both place.old.me.0 other.me.0) { seen = longer place.old.me.0.seen other.me.0.seen; told = [] }, place.old.me.1) }
    ensures longer { IsPrefix place.old.me.0.seen place.new.me.0.seen × IsPrefix other.me.0.seen place.new.me.0.seen }
{
    words.join_seat::<Both>(place, other);
    words.load::<Settle>(place, TICKET);
}

ghost use Rattle.std.specs.Prelude.{◌≡◌, true, is_some, None, Some, Ok, IfOk, IfSome};
ghost use Rattle.std.specs.Option.{option_map};
ghost use Rattle.type_core.specs.Typ as typ;
ghost use Rattle.type_core.specs.TypeTable.{IsTypeOf, type_at, KeepsTypes};
ghost use Rattle.type_core.specs.Heads.{IsPairingOf, meet_of, TellOf};
ghost use Rattle.type_core.specs.Pairings.{is_consistent_pairing};

use crate::former::Former;
use crate::heads::{Heads, Pairing};
use crate::relations::Relation;
use crate::table::TypeTable;
use crate::type_id::TypeId;
use std::alloc::Global;
use text_parts::NoMemory;

// Two types of one form that wait for the meets of their parts.
#[derive(Clone, Copy)]
pub(crate) struct Waiting {
    pub(crate) pairing: Pairing,
    pub(crate) former: Former,
    pub(crate) part: Part,
}

// The part whose meet is waited for.
#[derive(Clone, Copy)]
pub(crate) enum Part {
    // The first; these are the second parts.
    First(Pairing),
    // The second; this is the meet of the first.
    Second(TypeId),
}

// How far the meet of two types has come.
#[derive(Clone, Copy)]
pub(crate) enum Step {
    // It is this type.
    Done(TypeId),
    // It is that of these types, which is to be found.
    Waits(Pairing),
}

impl TypeTable {
    /// The meet of two types, which is there exactly where they are consistent. Types that the table lacks are added, also where
    /// memory runs out before the last of them.
    pub fn meet(&mut self, alloc: Global, a: TypeId, b: TypeId) -> Result<Option<TypeId>, NoMemory>
        requires left { IsTypeOf self.old a }
        requires right { IsTypeOf self.old b }
        ensures meet { IfOk result (λ m. option_map (type_at self.new) m ≡ typ.meet (type_at self.old a) (type_at self.old b)) }
        ensures defined { IfOk result (λ m. is_some m ≡ typ.is_consistent (type_at self.old a) (type_at self.old b)) }
        ensures number { IfOk result (λ m. IfSome m (IsTypeOf self.new)) }
        ensures kept { KeepsTypes self.old self.new }
        ensures none_unchanged { result ≡ Ok None → self.new ≡ self.old }
    {
        let pairing = Pairing { left: a, right: b };
        match self.heads(pairing) {
            Heads::Met(m) => Ok(Some(m)),
            Heads::Clash => Ok(None),
            Heads::Parts(..) => {
                if !self.relate_parts(alloc, pairing)? {
                    return Ok(None);
                }
                Ok(Some(self.kept_meet(alloc, pairing)?))
            }
        }
    }

    // The meet of two consistent types, which is found once and then kept.
    fn kept_meet(&mut self, alloc: Global, pairing: Pairing) -> Result<TypeId, NoMemory>
        requires within { IsPairingOf self.old pairing }
        requires consistent { is_consistent_pairing self.old pairing ≡ true }
        ensures meet { IfOk result (λ m. meet_of self.old pairing ≡ Some (type_at self.new m)) }
        ensures number { IfOk result (IsTypeOf self.new) }
        ensures kept { KeepsTypes self.old self.new }
    {
        match self.known_meet(pairing) {
            Some(m) => Ok(m),
            None => {
                let m = self.meet_of_consistent(alloc, pairing)?;
                self.keep(pairing, Relation::Meets(m))?;
                Ok(m)
            }
        }
    }

    // The meet of two consistent types: both wait until their parts are met, and so on down to what is known.
    fn meet_of_consistent(&mut self, alloc: Global, pairing: Pairing) -> Result<TypeId, NoMemory>
        requires within { IsPairingOf self.old pairing }
        requires consistent { is_consistent_pairing self.old pairing ≡ true }
        ensures meet { IfOk result (λ m. meet_of self.old pairing ≡ Some (type_at self.new m)) }
        ensures number { IfOk result (IsTypeOf self.new) }
        ensures kept { KeepsTypes self.old self.new }
    {
        let mut waiting = Vec::new(alloc);
        let mut step = Step::Waits(pairing);
        loop {
            match step {
                Step::Waits(part) => match self.heads_or_meet(part) {
                    Heads::Met(meet) => step = Step::Done(meet),
                    Heads::Clash => unreachable!(),
                    Heads::Parts(former, first, second) => {
                        waiting.push(Waiting {
                            pairing: part,
                            former,
                            part: Part::First(second),
                        })?;
                        step = Step::Waits(first);
                    }
                },
                Step::Done(meet) => {
                    let Some(last) = waiting.pop() else {
                        return Ok(meet);
                    };
                    match last.part {
                        Part::First(second) => {
                            waiting.push(Waiting {
                                pairing: last.pairing,
                                former: last.former,
                                part: Part::Second(meet),
                            })?;
                            step = Step::Waits(second);
                        }
                        Part::Second(first_meet) => {
                            let both = self.meet_of_parts(
                                last.pairing,
                                last.former,
                                first_meet,
                                meet,
                            )?;
                            step = Step::Done(both);
                        }
                    }
                }
            }
        }
    }

    // The meet of two types of one form from those of their parts.
    fn meet_of_parts(
        &mut self,
        pairing: Pairing,
        former: Former,
        first: TypeId,
        second: TypeId,
    ) -> Result<TypeId, NoMemory>
        requires within { IsPairingOf self.old pairing }
        requires first { IsTypeOf self.old first }
        requires second { IsTypeOf self.old second }
        requires meet { meet_of self.old pairing ≡ Some (typ.Pair former (type_at self.old first) (type_at self.old second)) }
        ensures meet { IfOk result (λ m. meet_of self.old pairing ≡ Some (type_at self.new m)) }
        ensures number { IfOk result (IsTypeOf self.new) }
        ensures kept { KeepsTypes self.old self.new }
    {
        let meet = self.pair(former, first, second)?;
        if self.is_landmark(pairing.left) {
            self.keep(pairing, Relation::Meets(meet))?;
        }
        Ok(meet)
    }

    // What the outermost forms of two types tell of their meet, or the meet itself where it was found before.
    fn heads_or_meet(&self, pairing: Pairing) -> Heads
        requires { IsPairingOf self.now pairing }
        ensures { TellOf self.now pairing result }
    {
        let heads = self.heads(pairing);
        if let Heads::Parts(..) = heads {
            if self.is_landmark(pairing.left) {
                if let Some(m) = self.known_meet(pairing) {
                    return Heads::Met(m);
                }
            }
        }
        heads
    }
}

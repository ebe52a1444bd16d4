//! The held packets of a node, by age.
ghost use Rattle.std.specs.Prelude.{◌≡◌, ◌==◌, ◌<◌, [], ◌∷◌, None, Some, IfOk, IfSome, MatchOption, length, option_map};
ghost use Rattle.std.specs.List.{position};
ghost use Rattle.std.specs.Option.{option_to_list};
ghost use Rattle.pfl_base.specs.Names.{is_name};

use crate::{DeferEdit, Held, HoldChange, Released};
use pfl_base::{Millis, Packet, StateName};
use pfl_edits::{NoMemory, Reversible};
use std::alloc::Allocator;
use std::marker::Model;

/// The held packets, the oldest first: at most `limit` of them, and of each name one. All room is made by `new`.
#[derive(Drop)]
pub struct Deferrals<A: Allocator> {
    limit: usize,
    list: Vec<Held, A>,
}

impl<A: Allocator> Model for Deferrals<A> {
    ghost use Rattle.std.specs.Prelude.{◌≤◌, vec_capacity};
    ghost use Rattle.pfl_defer.specs.Deferring.{Deferrals as DeferralList, IsDeferrals};

    ghost Value = { DeferralList };

    ghost view = { λ d. record { limit = d.limit; list = d.list.items } };

    ghost invariant = { λ d. (d.limit ≤ vec_capacity d.list) × IsDeferrals (record { limit = d.limit; list = d.list.items }) };
}

impl<A: Allocator> Reversible for Deferrals<A> {
    ghost use Rattle.pfl_defer.specs.Deferring.{IsDeferrals};
    ghost use Rattle.pfl_defer.specs.Edits.{Finds, FindsFormer, put_back, redone};
    ghost use Rattle.pfl_defer.specs.inner.BothWays.{edit-both_ways};

    type Edit = DeferEdit;

    ghost finds = { Finds };

    ghost finds_former = { FindsFormer };

    ghost put_back = { put_back };

    ghost redone = { redone };

    ghost allows = { IsDeferrals };

    fn undo(&mut self, edit: DeferEdit) {
        match edit {
            DeferEdit::Added { place, .. } => {
                self.list.remove(place);
            }
            DeferEdit::Removed { place, held } => self.list.insert(place, held).unwrap(),
        }
    }

    ghost both_ways = { edit-both_ways };
}

impl<A: Allocator> Deferrals<A> {
    ghost use Rattle.pfl_defer.specs.Deferring.{IsDeferrals, IsUpTo, no_deferrals, held_of, let_go, pushed_out, with_room, with_held, hold, due};
    ghost use Rattle.pfl_defer.specs.Edits.{DefersBack, FindsFormer, edits_of, held_by, redone};

    /// Nothing is held, and there is room for `limit` packets.
    pub fn new(alloc: A, limit: usize) -> Result<Self, NoMemory>
        ensures empty { IfOk result (λ d. d ≡ no_deferrals limit) }
    {
        let list = Vec::with_capacity(alloc, limit)?;
        Ok(Deferrals { limit, list })
    }

    /// How many packets may be held.
    pub fn limit(&self) -> usize
        ensures limit { result ≡ self.now.limit }
    {
        self.limit
    }

    /// How many packets are held.
    pub fn len(&self) -> usize
        ensures length { result ≡ length self.now.list }
    {
        self.as_slice().len()
    }

    /// Nothing is held.
    pub fn is_empty(&self) -> bool
        ensures none { result ≡ (length self.now.list == 0) }
    {
        self.len() == 0
    }

    /// The held packets, the oldest first.
    pub fn as_slice(&self) -> &[Held]
        ensures list { result.now ≡ self.now.list }
        ensures deferrals { IsDeferrals self.now }
    {
        self.list.as_slice()
    }

    /// The packet that a full list lets go before it holds another.
    pub fn pushed_out(&self) -> Option<Held>
        ensures oldest { result ≡ pushed_out self.now }
    {
        if self.limit <= self.len() {
            self.as_slice().first().copied()
        } else {
            None
        }
    }

    /// The packets whose time has come, the oldest first: those held for `defer_ms` or longer.
    pub fn due(&self, now: Millis, defer_ms: Millis) -> &[Held]
        ensures due { result.now ≡ due self.now now defer_ms }
    {
        let held = self.as_slice();
        &held[..held.partition_point(|held| held.is_due(now, defer_ms))]
    }

    /// Holds the first packet of a state. A full list first lets its oldest go, which is returned.
    pub fn hold(
        &mut self,
        name: StateName,
        packet: Packet,
        now: Millis,
    ) -> (Option<Released>, HoldChange)
        requires some { 0 < self.old.limit }
        requires fresh { held_of self.old name ≡ None }
        requires later { IsUpTo self.old now }
        ensures deferrals { self.new ≡ hold self.old name packet now }
        ensures released { result.0 ≡ pushed_out self.old }
        ensures edit { option_map held_by result.1.released ≡ pushed_out self.old }
        ensures leads_back { DefersBack (edits_of result.1) self.old self.new }
    {
        let released = self.push_out();
        let out = released.as_ref().map(DeferEdit::held);
        let held = self.append(name, packet, now);
        (out, HoldChange { released, held })
    }

    /// Lets the packet of the name go, out to the network, if one is held.
    pub fn release(&mut self, name: StateName) -> Option<(Released, DeferEdit)>
        ensures held { MatchOption result (held_of self.old name ≡ None) (λ r. held_of self.old name ≡ Some r.0) }
        ensures deferrals { self.new ≡ let_go self.old name }
        ensures unchanged { result ≡ None → self.new ≡ self.old }
        ensures leads_back { IfSome result (λ r. DefersBack (r.1 ∷ []) self.old self.new) }
    {
        self.take(name)
    }

    /// Drops the packet of the name, if one is held. The list changes as by `release`.
    pub fn drop_held(&mut self, name: StateName) -> Option<(Held, DeferEdit)>
        ensures held { MatchOption result (held_of self.old name ≡ None) (λ r. held_of self.old name ≡ Some r.0) }
        ensures deferrals { self.new ≡ let_go self.old name }
        ensures unchanged { result ≡ None → self.new ≡ self.old }
        ensures leads_back { IfSome result (λ r. DefersBack (r.1 ∷ []) self.old self.new) }
    {
        self.take(name)
    }

    /// Puts the new value of an edit that was undone into its place again. It returns nothing, so it cannot want memory.
    pub fn redo(&mut self, edit: DeferEdit)
        requires found { FindsFormer edit self.old }
        requires allowed { IsDeferrals (redone edit self.old) }
        ensures redone { self.new ≡ redone edit self.old }
    {
        match edit {
            DeferEdit::Added { place, held } => self.list.insert(place, held).unwrap(),
            DeferEdit::Removed { place, .. } => {
                self.list.remove(place);
            }
        }
    }

    /// Takes the packet of the name out of the list.
    fn take(&mut self, name: StateName) -> Option<(Held, DeferEdit)>
        ensures held { MatchOption result (held_of self.old name ≡ None) (λ r. held_of self.old name ≡ Some r.0) }
        ensures deferrals { self.new ≡ let_go self.old name }
        ensures unchanged { result ≡ None → self.new ≡ self.old }
        ensures leads_back { IfSome result (λ r. DefersBack (r.1 ∷ []) self.old self.new) }
    {
        let Some(place) = place_of(&self.list, name) else {
            return None;
        };
        let held = self.list.remove(place);
        let edit = DeferEdit::Removed {
            place,
            held: held.same(),
        };
        Some((held, edit))
    }

    /// Lets the oldest packet of a full list go.
    fn push_out(&mut self) -> Option<DeferEdit>
        requires some { 0 < self.old.limit }
        ensures deferrals { self.new ≡ with_room self.old }
        ensures released { option_map held_by result ≡ pushed_out self.old }
        ensures known { IsDeferrals self.old }
        ensures leads_back { DefersBack (option_to_list result) self.old self.new }
    {
        if self.list.len() < self.limit {
            return None;
        }
        let held = self.list.remove(0);
        Some(DeferEdit::Removed { place: 0, held })
    }

    /// Holds a packet after the others.
    fn append(&mut self, name: StateName, packet: Packet, now: Millis) -> DeferEdit
        requires room { length self.old.list < self.old.limit }
        requires fresh { held_of self.old name ≡ None }
        requires later { IsUpTo self.old now }
        ensures deferrals { self.new ≡ with_held self.old name packet now }
        ensures leads_back { DefersBack (result ∷ []) self.old self.new }
    {
        let place = self.list.len();
        let held = Held {
            name,
            packet,
            held_at: now,
        };
        self.list.push(held.same()).unwrap();
        DeferEdit::Added { place, held }
    }
}

impl<A: Allocator + Copy> Deferrals<A> {
    /// The same packets, with room of their own.
    pub fn copy(&self) -> Result<Self, NoMemory>
        ensures same { IfOk result (λ copied. copied ≡ self.now) }
    {
        let mut list = Vec::with_capacity(*self.list.allocator(), self.limit)?;
        list.extend_from_slice(&self.list)?;
        Ok(Deferrals {
            limit: self.limit,
            list,
        })
    }
}

/// Where the packet of the name stands.
fn place_of(list: &[Held], name: StateName) -> Option<usize>
    ensures place { result ≡ position (λ h. is_name name h.name) list.now }
{
    list.iter().position(|held| name == held.name)
}

//! 64 lists of names, linked by index: each list has its front, and each name the one that follows it.

ghost use Rattle.std.specs.Prelude.{◌≡◌, ◌≢◌, ◌+◌, ◌<◌, ◌≤◌, ℕ, max, [], replicate, IsOk, OnOk, OnErr, IfSome, IfNone};
ghost use Rattle.node_store.specs.NameLists.{list_at, Has, AreBelow, put, front_of, take_from};
ghost use Rattle.node_store.specs.Chained.{AreChained};

use cha_list::{NoMemory, Steps};
use std::alloc::Global;
use std::marker::Model;
use std::sync::ledger::Ledger;

/// How many lists there are.
const LISTS: usize = 64;

/// The front of a list, and how many names the list has. Where it has none, the front means nothing.
#[derive(Clone, Copy)]
struct Head {
    front: u32,
    count: u32,
}

/// 64 lists of names, from 0 on, seen by contracts as the lists, the number of names that there are, and for how many more
/// room was made ready. A name stands in at most one list at a time, in front of smaller ones.
#[derive(Drop)]
pub struct Chains {
    heads: [Head; 64],
    links: Vec<u32>,
    /// For how many more names room was made ready. The links may have room for others.
    ready: u32,
}

impl Model for Chains {
    ghost use Rattle.std.specs.Prelude.{◌-◌, ◌≤◌, length, vec_len, vec_capacity};
    ghost use Rattle.node_store.specs.Chained.{Chained, AreChained};

    ghost Value = { Chained };

    ghost use Rattle.node_store.specs.Links.{lists_of};

    ghost view = { λ s. record { lists = lists_of s.heads s.links.items; slots = length s.links.items; spare = s.ready } };

    ghost invariant = { λ s. AreChained (lists_of s.heads s.links.items) (length s.links.items) × (s.ready ≤ vec_capacity s.links - vec_len s.links) };
}

impl Chains {
    /// 64 empty lists, and no name. It takes no memory.
    pub fn new(alloc: Global) -> Chains
        ensures lists { result.lists ≡ replicate 64 [] }
        ensures slots { result.slots ≡ 0 }
        ensures spare { result.spare ≡ 0 }
    {
        Chains {
            heads: [Head { front: 0, count: 0 }; 64],
            links: Vec::new(alloc),
            ready: 0,
        }
    }

    /// Proves to the caller that there are 64 lists of names that exist, and that the names of each fall.
    pub fn known(&self)
        ensures { AreChained self.now.lists self.now.slots }
    {
        let _links = &self.links;
    }

    /// Makes room for more names. Where it was made ready already, it is never refused; on a refusal nothing changes.
    pub fn reserve(&mut self, more: u32) -> Result<(), NoMemory>
        ensures lists { self.new.lists ≡ self.old.lists }
        ensures slots { self.new.slots ≡ self.old.slots }
        ensures ok { OnOk result (more ≤ self.new.spare) }
        ensures spare { OnOk result (self.new.spare ≡ max self.old.spare more) }
        ensures room { self.old.spare ≤ self.new.spare }
        ensures succeeds { more ≤ self.old.spare → IsOk result }
        ensures err { OnErr result (self.new ≡ self.old) }
    {
        if more <= self.ready {
            return Ok(());
        }
        self.links.reserve(more as usize)?;
        self.ready = more;
        Ok(())
    }

    /// Adds a name, the number of those before. It takes no memory.
    pub fn slot(&mut self) -> u32
        requires spare { 1 ≤ self.old.spare }
        requires few { self.old.slots < 4294967295 }
        ensures name { result ≡ self.old.slots }
        ensures lists { self.new.lists ≡ self.old.lists }
        ensures slots { self.new.slots ≡ self.old.slots + 1 }
        ensures spare { self.old.spare ≡ self.new.spare + 1 }
    {
        let name = self.links.len() as u32;
        self.ready -= 1;
        match self.links.push(0) {
            Ok(()) => name,
            Err(_) => unreachable!(),
        }
    }

    /// The name in front of a list, which was linked last.
    pub fn front(&self, bucket: u8) -> Option<u32>
        requires { bucket < 64 }
        ensures { result ≡ front_of (list_at self.now.lists bucket) }
    {
        let head = self.heads[bucket as usize];
        if head.count == 0 {
            None
        } else {
            Some(head.front)
        }
    }

    /// Puts a name that stands in no list in front of a list of smaller names.
    pub fn put(&mut self, bucket: u8, name: u32)
        requires bucket { bucket < 64 }
        requires slot { name < self.old.slots }
        requires free { (b : ℕ) → Has (list_at self.old.lists b) name → ⊥ }
        requires above { AreBelow (list_at self.old.lists bucket) name }
        ensures lists { self.new.lists ≡ put self.old.lists bucket name }
        ensures slots { self.new.slots ≡ self.old.slots }
        ensures spare { self.new.spare ≡ self.old.spare }
    {
        let head = self.heads[bucket as usize];
        self.links[name as usize] = head.front;
        self.heads[bucket as usize] = Head {
            front: name,
            count: head.count + 1,
        };
    }

    /// Takes the name in front of a list away.
    pub fn take(&mut self, bucket: u8) -> Option<u32>
        requires { bucket < 64 }
        ensures name { result ≡ front_of (list_at self.old.lists bucket) }
        ensures lists { self.new.lists ≡ take_from self.old.lists bucket }
        ensures slots { self.new.slots ≡ self.old.slots }
        ensures spare { self.new.spare ≡ self.old.spare }
    {
        let head = self.heads[bucket as usize];
        if head.count == 0 {
            return None;
        }
        self.heads[bucket as usize] = Head {
            front: self.links[head.front as usize],
            count: head.count - 1,
        };
        Some(head.front)
    }

    /// The name in front of a list, which was linked last, in one step.
    pub fn head<L: Ledger>(&self, bucket: u8, steps: &mut Steps<L>) -> Option<u32>
        requires { bucket < 64 }
        ensures name { result ≡ front_of (list_at self.now.lists bucket) }
        ensures cost { steps.new ≡ steps.old + 1 }
    {
        steps.tick();
        self.front(bucket)
    }

    /// The first list that has a name, by the front of each in turn, each of which is one step.
    pub fn first_used<L: Ledger>(&self, steps: &mut Steps<L>) -> Option<u8>
        ensures found { IfSome result (λ b. (b < 64) × (list_at self.now.lists b ≢ [])) }
        ensures before { IfSome result (λ b. (k : ℕ) → k < b → list_at self.now.lists k ≡ []) }
        ensures none { IfNone result ((k : ℕ) → list_at self.now.lists k ≡ []) }
        ensures cost { IfSome result (λ b. steps.new ≡ steps.old + b + 1) }
        ensures whole_cost { IfNone result (steps.new ≡ steps.old + 64) }
    {
        self.known();
        for bucket in 0..64u8 {
            match self.head(bucket, steps) {
                Some(_) => return Some(bucket),
                None => {}
            }
        }
        None
    }

    /// Puts a name that stands in no list in front of a list of smaller names, in one step.
    pub fn link<L: Ledger>(&mut self, bucket: u8, name: u32, steps: &mut Steps<L>)
        requires bucket { bucket < 64 }
        requires slot { name < self.old.slots }
        requires free { (b : ℕ) → Has (list_at self.old.lists b) name → ⊥ }
        requires above { AreBelow (list_at self.old.lists bucket) name }
        ensures lists { self.new.lists ≡ put self.old.lists bucket name }
        ensures slots { self.new.slots ≡ self.old.slots }
        ensures spare { self.new.spare ≡ self.old.spare }
        ensures cost { steps.new ≡ steps.old + 1 }
    {
        steps.tick();
        self.put(bucket, name);
    }

    /// Takes the name in front of a list away, in one step.
    pub fn unlink<L: Ledger>(&mut self, bucket: u8, steps: &mut Steps<L>) -> Option<u32>
        requires { bucket < 64 }
        ensures name { result ≡ front_of (list_at self.old.lists bucket) }
        ensures lists { self.new.lists ≡ take_from self.old.lists bucket }
        ensures slots { self.new.slots ≡ self.old.slots }
        ensures spare { self.new.spare ≡ self.old.spare }
        ensures cost { steps.new ≡ steps.old + 1 }
    {
        steps.tick();
        self.take(bucket)
    }
}

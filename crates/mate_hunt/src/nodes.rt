//! The positions that a hunt has met.

use cha_board::{Kept, Packed, Position};
use cha_list::NoMemory;
use cha_moves::Move;
use std::alloc::Global;

/// For how many positions the way to one has room at first; most ways are shorter.
const USUAL_PATH: usize = 64;

/// How many slots there are at first.
const FIRST_SLOTS: usize = 2048;

/// For how many positions there is room at first.
const FIRST_NODES: usize = 1024;

/// How many times as many slots there are once half of them are taken.
const GROWTH: usize = 4;

/// An odd number whose bits are spread.
const MULTIPLIER: u64 = 0x9e37_79b9_7f4a_7c15;

/// Where a position came from: the number of its parent, the move that led there, and how many plies did in all.
#[derive(Clone, Copy)]
pub struct Origin {
    pub parent: u32,
    pub by: Move,
    pub plies: u32,
}

/// A position that was met, and the one that waits behind it in its list.
#[derive(Drop)]
struct Node {
    kept: Kept,
    origin: Option<Origin>,
    behind: Option<u32>,
}

/// The positions that a hunt has met, each with its number, and those that wait, in 64 lists.
#[derive(Drop)]
pub struct Nodes {
    nodes: Vec<Node>,
    slots: Vec<Option<u32>>,
    fronts: [Option<u32>; 64],
    /// A bit for each list that is not empty.
    used: u64,
}

/// Where the search for a position begins among so many slots, a power of two.
fn first_slot(packed: &Packed, slots: usize) -> usize {
    let spread = packed.mixed().wrapping_mul(MULTIPLIER) >> 32;
    spread as usize & slots.wrapping_sub(1)
}

/// The first free slot for a position.
fn free_among(slots: &[Option<u32>], kept: &Kept) -> Option<usize> {
    let last = slots.len().wrapping_sub(1);
    let mut at = first_slot(&kept.packed(), slots.len());
    for _ in 0..slots.len() {
        if (*slots.get(at)?).is_none() {
            return Some(at);
        }
        at = at.wrapping_add(1) & last;
    }
    None
}

impl Nodes {
    /// One position, which waits in list 0.
    pub fn new(alloc: Global, root: &Position) -> Result<Nodes, NoMemory> {
        let mut slots = Vec::new(alloc);
        slots.resize(FIRST_SLOTS, None)?;
        let mut nodes = Nodes {
            nodes: Vec::with_capacity(alloc, FIRST_NODES)?,
            slots,
            fronts: [None; 64],
            used: 0,
        };
        let kept = Kept::of(root);
        let slot = first_slot(&kept.packed(), FIRST_SLOTS);
        nodes.add(slot, kept, None, 0)?;
        Ok(nodes)
    }

    /// The position with a number.
    pub fn position(&self, name: u32) -> Option<Position> {
        let node = self.nodes.get(name as usize)?;
        Some(node.kept.position())
    }

    /// Whether the position with a number has these words.
    fn is_at(&self, name: u32, packed: &Packed) -> bool {
        match self.nodes.get(name as usize) {
            None => false,
            Some(node) => node.kept.packed().words == packed.words,
        }
    }

    /// The slot for a position that was not met. `None` where it was.
    pub fn free_slot(&self, kept: &Kept) -> Option<usize> {
        let packed = kept.packed();
        let last = self.slots.len().wrapping_sub(1);
        let mut at = first_slot(&packed, self.slots.len());
        for _ in 0..self.slots.len() {
            match *self.slots.get(at)? {
                None => return Some(at),
                Some(name) => {
                    if self.is_at(name, &packed) {
                        return None;
                    }
                }
            }
            at = at.wrapping_add(1) & last;
        }
        None
    }

    /// Adds a position that was not met, in its slot, which waits in front of a list. There is no number past the last one.
    pub fn add(
        &mut self,
        slot: usize,
        kept: Kept,
        origin: Option<Origin>,
        list: u8,
    ) -> Result<(), NoMemory> {
        let Ok(name) = u32::try_from(self.nodes.len()) else {
            return Ok(());
        };
        if let Some(free) = self.slots.get_mut(slot) {
            *free = Some(name);
        }
        let mut behind = None;
        if let Some(front) = self.fronts.get_mut(usize::from(list)) {
            behind = *front;
            *front = Some(name);
            self.used |= 1 << (list % 64);
        }
        self.nodes.push(Node {
            kept,
            origin,
            behind,
        })?;
        self.make_room()
    }

    /// Makes more slots where half of them are taken.
    fn make_room(&mut self) -> Result<(), NoMemory> {
        if self.nodes.len() < self.slots.len() / 2 {
            return Ok(());
        }
        let more = self.slots.len().saturating_mul(GROWTH);
        self.slots.clear();
        self.slots.resize(more, None)?;
        let mut name = 0;
        for node in &self.nodes {
            if let Some(slot) = free_among(&self.slots, &node.kept) {
                if let Some(free) = self.slots.get_mut(slot) {
                    *free = Some(name);
                }
            }
            name = name.wrapping_add(1);
        }
        Ok(())
    }

    /// Takes the front of the first list that is not empty.
    pub fn pop(&mut self) -> Option<u32> {
        let list = self.used.trailing_zeros() as usize;
        let front = self.fronts.get_mut(list)?;
        let name = (*front)?;
        *front = self.nodes.get(name as usize)?.behind;
        if front.is_none() {
            self.used &= self.used.wrapping_sub(1);
        }
        Some(name)
    }

    /// The numbers of the positions on the way to one, from the first on.
    pub fn path(&self, alloc: Global, name: u32) -> Result<Vec<u32>, NoMemory> {
        let mut path = Vec::new(alloc);
        let Ok(()) = path.try_reserve(USUAL_PATH) else {
            return Err(NoMemory);
        };
        let mut at = name;
        for _ in 0..self.nodes.len() {
            path.push(at)?;
            match self.origin(at) {
                None => break,
                Some(origin) => at = origin.parent,
            }
        }
        path.reverse();
        Ok(path)
    }

    /// Where the position with a number came from. `None` for the first one.
    pub fn origin(&self, name: u32) -> Option<Origin> {
        self.nodes.get(name as usize)?.origin
    }

    /// How many plies led to the position with a number.
    pub fn plies(&self, name: u32) -> u32 {
        match self.origin(name) {
            None => 0,
            Some(origin) => origin.plies,
        }
    }

    /// The moves that led to a position.
    pub fn line(&self, alloc: Global, name: u32) -> Result<Vec<Move>, NoMemory> {
        let mut line = Vec::new(alloc);
        let path = self.path(alloc, name)?;
        let Ok(()) = line.try_reserve(path.len()) else {
            return Err(NoMemory);
        };
        for at in &path {
            if let Some(origin) = self.origin(*at) {
                line.push(origin.by)?;
            }
        }
        Ok(line)
    }
}

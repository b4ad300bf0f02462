//! The places of a tour at which a node is to be visited.
//!
//! Nothing rests on what a queue answers but how long an inference takes: in the end all nodes are
//! tested.
use acg_base::Memory;
use std::alloc::Global;

/// The places of a tour at which a node is to be visited, taken in a circle.
#[derive(Drop)]
pub struct Queue {
    // of each node, where it stands in the tour
    places: Vec<Vec<u32>>,
    // of each node, whether it is to be visited
    waits: Vec<bool>,
    // a bit for each place: those of nodes that wait are set, and maybe others
    due: Vec<u64>,
    // where to go on
    next: usize,
}

// an empty list for each of so many nodes
pub fn empty_lists(alloc: Global, count: usize) -> Result<Vec<Vec<u32>>, Memory> {
    let mut lists = Vec::with_capacity(alloc, count)?;
    for _node in 0..count {
        lists.push(Vec::new(alloc))?;
    }
    Ok(lists)
}

// of each node, where it stands in the tour
fn places_in(alloc: Global, tour: &[u32], count: usize) -> Result<Vec<Vec<u32>>, Memory> {
    let mut places = empty_lists(alloc, count)?;
    let mut place: u32 = 0;
    for node in tour {
        if let Some(list) = places.get_mut(*node as usize) {
            list.push(place)?;
        }
        place = place.wrapping_add(1);
    }
    Ok(places)
}

// the first place from here on whose bit is set
fn first_set(due: &[u64], from: usize) -> Option<usize> {
    let start = from / 64;
    for i in start..due.len() {
        let mut word = due[i];
        if i == start {
            word = word & u64::MAX.wrapping_shl((from % 64) as u32);
        }
        if word != 0 {
            return Some(
                i.wrapping_mul(64)
                    .wrapping_add(word.trailing_zeros() as usize),
            );
        }
    }
    None
}

impl Queue {
    /// All places of the tour are due, at the beginning.
    pub fn new(alloc: Global, tour: &[u32], count: usize) -> Result<Queue, Memory> {
        Ok(Queue {
            places: places_in(alloc, tour, count)?,
            waits: vec![in alloc; true; count]?,
            due: vec![in alloc; u64::MAX; tour.len() / 64 + 1]?,
            next: 0,
        })
    }

    /// The node is to be visited, at the next of its places.
    pub fn put(&mut self, node: u32) {
        let Some(waits) = self.waits.get_mut(node as usize) else {
            return;
        };
        if *waits {
            return;
        }
        *waits = true;
        if let Some(places) = self.places.get(node as usize) {
            for place in places {
                if let Some(word) = self.due.get_mut(*place as usize / 64) {
                    *word = *word | 1u64.wrapping_shl(*place % 64);
                }
            }
        }
    }

    // the next place whose bit is set, if one is before the end of the tour; the bit is taken away
    fn next_set(&mut self) -> Option<usize> {
        let place = first_set(self.due.as_slice(), self.next)?;
        if let Some(word) = self.due.get_mut(place / 64) {
            *word = *word & !1u64.wrapping_shl((place % 64) as u32);
        }
        self.next = place.wrapping_add(1);
        Some(place)
    }

    // whether the node at the place waits; then it doesn't any more
    fn take(&mut self, tour: &[u32], place: usize) -> bool {
        let Some(node) = tour.get(place) else {
            return false;
        };
        match self.waits.get_mut(*node as usize) {
            Some(waits) => {
                let waited = *waits;
                *waits = false;
                waited
            }
            None => false,
        }
    }

    /// The next place of the tour at which a node is to be visited, if there is one before its end.
    pub fn next(&mut self, tour: &[u32]) -> Option<usize> {
        for _place in 0..u64::MAX {
            let place = self.next_set()?;
            if self.take(tour, place) {
                return Some(place);
            }
        }
        None
    }

    /// Goes on from the beginning of the tour.
    pub fn turn(&mut self) {
        self.next = 0;
    }
}

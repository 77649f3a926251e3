// An alignment: its head, the start height, and the three lists in arrays with their counts.

ghost use Rattle.std.specs.Prelude.{◌≡◌, ◌<◌, ◌≤◌, ◌++◌, ◌∷◌, [], length, pos};
ghost use Rattle.road.specs.Exact.{total};

use crate::{Crossfall, Element, Head, Tangent};
use std::marker::Model;

// The most items that a file may list.
const MOST_ELEMENTS: usize = 200;

const MOST_TANGENTS: usize = 100;

const MOST_CROSSFALLS: usize = 200;

// An alignment is held as three arrays with their counts, the form that the project fixes, and no heap. Contracts see the road that it holds.
#[derive(Clone, Copy)]
pub struct Alignment {
    head: Head,
    elements: [Element; MOST_ELEMENTS],
    element_count: usize,
    start: i32,
    tangents: [Tangent; MOST_TANGENTS],
    tangent_count: usize,
    crossfalls: [Crossfall; MOST_CROSSFALLS],
    crossfall_count: usize,
}

impl Model for Alignment {
    ghost use Rattle.road.specs.File.{Road};

    ghost Value = { Road };

    ghost use Rattle.road.specs.Held.{road_in, held, held-back, Filled};

    ghost view = { road_in };

    ghost invariant = { Filled };

    ghost inverse = { held };

    ghost inverse_ok = { held-back };
}

impl Alignment {
    // An alignment with no item, its start at height 0.
    pub fn new(head: Head) -> Self
        ensures { result ≡ record { head = head; plan = []; start = pos 0; tangents = []; crossfalls = [] } }
    {
        Alignment {
            head,
            elements: [Element::BLANK; MOST_ELEMENTS],
            element_count: 0,
            start: 0,
            tangents: [Tangent::BLANK; MOST_TANGENTS],
            tangent_count: 0,
            crossfalls: [Crossfall::BLANK; MOST_CROSSFALLS],
            crossfall_count: 0,
        }
    }

    pub fn head(&self) -> Head
        ensures { result ≡ self.now.head }
    {
        self.head
    }

    // The start height.
    pub fn start(&self) -> i32
        ensures { result ≡ self.now.start }
    {
        self.start
    }

    // The plan.
    pub fn elements(&self) -> &[Element]
        ensures items { result.now ≡ self.now.plan }
        ensures few { length result.now ≤ 200 }
    {
        &self.elements[..self.element_count]
    }

    // The profile.
    pub fn tangents(&self) -> &[Tangent]
        ensures items { result.now ≡ self.now.tangents }
        ensures few { length result.now ≤ 100 }
    {
        &self.tangents[..self.tangent_count]
    }

    // The crossfall points.
    pub fn crossfalls(&self) -> &[Crossfall]
        ensures items { result.now ≡ self.now.crossfalls }
        ensures few { length result.now ≤ 200 }
    {
        &self.crossfalls[..self.crossfall_count]
    }

    // The plan length T.
    pub fn total(&self) -> u64
        ensures { result ≡ total self.now }
    {
        self.elements().iter().map(|e| u64::from(e.length)).sum()
    }

    pub fn set_head(&mut self, head: Head)
        ensures { self.new ≡ record self.old { head = head } }
    {
        self.head = head;
    }

    pub fn set_start(&mut self, start: i32)
        ensures { self.new ≡ record self.old { start = start } }
    {
        self.start = start;
    }

    // One more element behind the others.
    pub fn push_element(&mut self, e: Element)
        requires { length self.old.plan < 200 }
        ensures { self.new ≡ record self.old { plan = self.old.plan ++ (e ∷ []) } }
    {
        self.elements[self.element_count] = e;
        self.element_count += 1;
    }

    // One more tangent behind the others.
    pub fn push_tangent(&mut self, t: Tangent)
        requires { length self.old.tangents < 100 }
        ensures { self.new ≡ record self.old { tangents = self.old.tangents ++ (t ∷ []) } }
    {
        self.tangents[self.tangent_count] = t;
        self.tangent_count += 1;
    }

    // One more crossfall point behind the others.
    pub fn push_crossfall(&mut self, p: Crossfall)
        requires { length self.old.crossfalls < 200 }
        ensures { self.new ≡ record self.old { crossfalls = self.old.crossfalls ++ (p ∷ []) } }
    {
        self.crossfalls[self.crossfall_count] = p;
        self.crossfall_count += 1;
    }
}

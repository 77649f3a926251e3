// The items of a list in turn, each with those beside it; past either end of a list stands the blank item.

ghost use Rattle.std.specs.Prelude.{◌≡◌, ◌≤◌, ◌<◌, ◌+◌, ◌*◌, length, drop, slice_index_or};

use road::{Alignment, Element, ElementAmong};

// The first item of a list, or the blank one, and the others.
fn split_or<T: Copy>(items: &[T], blank: T) -> (T, &[T])
    ensures first { result.0 ≡ slice_index_or items.entry.now 0 blank }
    ensures later { result.1.now ≡ drop 1 items.entry.now }
{
    match items {
        [first, later @ ..] => (*first, later),
        [] => (blank, items),
    }
}

// The elements of a plan, each with the two before it and the one after it; behind the last one stands the blank one.
#[derive(Clone, Copy)]
pub struct Elements<'a> {
    place: usize,
    count: usize,
    end: u64,
    earlier: Element,
    before: Element,
    element: Element,
    later: &'a [Element],
    ghost few: { count ≤ 200 },
    ghost small: { end ≤ 4294967295 * place },
}

impl<'a> Elements<'a> {
    ghost use Rattle.road.specs.Rules.{element_among};
    ghost use Rattle.rules.specs.Walks.{elements_left, items_at};

    pub fn new(a: &'a Alignment) -> Self
        ensures { elements_left result ≡ items_at (element_among a.entry.now) (length a.entry.now.plan + 1) }
    {
        let plan = a.elements();
        let (element, later) = split_or(plan, Element::BLANK);
        Elements {
            place: 0,
            count: plan.len(),
            end: 0,
            earlier: Element::BLANK,
            before: Element::BLANK,
            element,
            later,
        }
    }
}

impl Iterator for Elements<'_> {
    ghost use Rattle.std.specs.Iterator.{YieldsFirst, item_count};
    ghost use Rattle.rules.specs.Walks.{elements_left};

    type Item = ElementAmong;

    ghost next_gives = { YieldsFirst elements_left };

    ghost remaining = { item_count elements_left };

    #[tactic(auto, unfolding(crate::specs::Walks::elements_from))]
    fn next(&mut self) -> Option<ElementAmong> {
        if self.count < self.place {
            return None;
        }
        let (after, later) = split_or(self.later, Element::BLANK);
        let among = ElementAmong {
            place: self.place,
            count: self.count,
            end: self.end + u64::from(self.element.length),
            earlier: self.earlier,
            before: self.before,
            element: self.element,
            after,
        };
        self.place += 1;
        self.end = among.end;
        self.earlier = self.before;
        self.before = self.element;
        self.element = after;
        self.later = later;
        Some(among)
    }
}

// Each item between the one before it and the one after it.
#[derive(Clone, Copy)]
pub struct Beside<'a, T> {
    rest: &'a [T],
    before: T,
    blank: T,
}

impl<'a, T: Copy> Beside<'a, T> {
    ghost use Rattle.rules.specs.Walks.{besides_left, besides};

    pub fn new(items: &'a [T], blank: T) -> Self
        ensures { besides_left result ≡ besides blank blank items.entry.now }
    {
        Beside {
            rest: items,
            before: blank,
            blank,
        }
    }
}

impl<T: Copy> Iterator for Beside<'_, T> {
    ghost use Rattle.std.specs.Iterator.{YieldsFirst, item_count};
    ghost use Rattle.rules.specs.Walks.{besides_left};

    type Item = (T, T, T);

    ghost next_gives = { YieldsFirst besides_left };

    ghost remaining = { item_count besides_left };

    #[tactic(auto, unfolding(crate::specs::Walks::besides))]
    fn next(&mut self) -> Option<(T, T, T)> {
        let (item, rest) = self.rest.split_first()?;
        let before = self.before;
        let after = rest.first().copied().unwrap_or(self.blank);
        self.rest = rest;
        self.before = *item;
        Some((before, *item, after))
    }
}

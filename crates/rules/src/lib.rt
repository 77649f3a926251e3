// Refusals 5 to 19 and 23 of an alignment: the rules are tried in their order, and the first item that breaks one is named.

#![tactic(auto)]

mod walks;

ghost use Rattle.std.specs.Prelude.{◌≡◌, ◌≤◌, ◌<◌, ◌+◌, ℕ, true, length, slice_index_or};
ghost use Rattle.std.specs.Iterator.{AlwaysYields, IsFinite};
ghost use Rattle.road.specs.Base.{first_that};
ghost use Rattle.road.specs.Exact.{blank_crossfall, tangent_start, total};
ghost use Rattle.laws_of_acceptance.specs.PlanOrder.{PlanOrder};
ghost use Rattle.laws_of_acceptance.specs.PointsInOrder.{PointOrder};
ghost use Rattle.road.specs.Rules.{first_broken, judged};
ghost use Rattle.laws_of_acceptance.specs.Judging.{Tried};
ghost use Rattle.road.specs.declared.Rule.TheVariants as ruled;
ghost use Rattle.rules.specs.Judged.{as_verdict};
ghost use Rattle.rules.specs.Kept.{PlanKept};
ghost use Rattle.rules.specs.Walks.{items_at};

use item_rules::ItemRule;
use road::{
    Alignment, Crossfall, Element, ElementRule, Fault, Limits, PointAmong, PointRule, Refusal,
    Rule, Tangent, TangentAmong, TangentRule,
};
use superelevation::Pair;
use walks::{Beside, Elements};

// The rules in the order in which they are tried.
pub const ORDER: [Rule; 16] = [
    Rule::Element(ElementRule::PlanLength),
    Rule::OtherTotal,
    Rule::Element(ElementRule::Kinds),
    Rule::Element(ElementRule::LinkedArcs),
    Rule::Element(ElementRule::LongStraight),
    Rule::ShortStraight,
    Rule::Element(ElementRule::TightArc),
    Rule::Element(ElementRule::ShortArc),
    Rule::Element(ElementRule::ShortClothoid),
    Rule::Tangent(TangentRule::SteepTangent),
    Rule::Tangent(TangentRule::ShortTangent),
    Rule::Tangent(TangentRule::SharpVertex),
    Rule::Point(PointRule::MisplacedPoint),
    Rule::Point(PointRule::WrongCrossfall),
    Rule::Point(PointRule::SteepRamp),
    Rule::Superelevation,
];

// The length of the tangents together.
fn profile_length(a: &Alignment) -> u64
    ensures { result ≡ tangent_start a.now (length a.now.tangents) }
{
    a.tangents().iter().map(|t| u64::from(t.length)).sum()
}

// The crossfall point at a place, and the next.
fn pair_at(points: &[Crossfall], place: usize) -> Pair
    requires { place < usize.MAX }
    ensures { result ≡ record { point = slice_index_or points.now place blank_crossfall; next = slice_index_or points.now (place + 1) blank_crossfall } }
{
    Pair {
        point: points.get(place).copied().unwrap_or(Crossfall::BLANK),
        next: points.get(place + 1).copied().unwrap_or(Crossfall::BLANK),
    }
}

// The place of the first of a list's items that breaks a rule.
fn first_broken<R: ItemRule + Copy, W: Iterator<Item = R::Item> + Drop>(
    rule: R,
    l: &Limits,
    count: usize,
    items: W,
) -> Option<usize>
where
    R::Item: Drop,
    requires count_fits { count < usize.MAX }
    requires can { W.can_next items }
    requires ends { IsFinite (W.remaining items) }
    ensures { (item : ℕ → R.Item) (n : ℕ) → AlwaysYields W.next_gives (λ x. x) items (items_at item n) → (R.test rule).places count ≤ n → result ≡ first_that (λ i. (R.test rule).broken l.now (item i)) ((R.test rule).places count) }
{
    items
        .take(rule.places(count))
        .position(|item| rule.is_broken(l, &item))
}

// An alignment under the limits given, with its T, and whether it is known that no element breaks a rule of the plan.
#[derive(Clone, Copy)]
struct Judging<'a> {
    alignment: &'a Alignment,
    limits: &'a Limits,
    whole: u64,
    plan_kept: bool,
    ghost whole_is_total: { whole ≡ total alignment.now },
    ghost kept: { plan_kept ≡ true → PlanKept limits.now alignment.now },
}

impl<'a> Judging<'a> {
    // Most roads keep the rules of the plan: their elements are passed once, and not once for each rule.
    fn new(alignment: &'a Alignment, limits: &'a Limits) -> Self
        ensures alignment { result.alignment.now ≡ alignment.entry.now }
        ensures limits { result.limits.now ≡ limits.entry.now }
    {
        let plan_kept = !Elements::new(alignment).any(|e| item_rules::is_any_broken(limits, &e));
        Judging {
            alignment,
            limits,
            whole: alignment.total(),
            plan_kept,
        }
    }

    // Refusals 5, 7, 23, 8, 10, 11 and 12, of an element. Within `judge` its loop has too few registers.
    #[inline(never)]
    fn first_element(&self, rule: ElementRule) -> Option<usize>
        ensures { result ≡ first_broken (ruled.Element rule) self.now.limits.now self.now.alignment.now }
    {
        if self.plan_kept {
            return None;
        }
        let count = self.alignment.elements().len();
        first_broken(rule, self.limits, count, Elements::new(self.alignment))
    }

    // Refusal 6: the tangents do not add up to T.
    fn other_total(&self) -> Option<usize>
        ensures { result ≡ first_broken ruled.OtherTotal self.now.limits.now self.now.alignment.now }
    {
        (profile_length(self.alignment) != self.whole).then_some(0)
    }

    // Refusal 9: a straight between bends of the same turn is too short. Where the kinds run as they must, the nearest arc after a straight is the second element from it.
    fn first_straight(&self) -> Option<usize>
        requires { PlanOrder self.now.alignment.now }
        ensures { result ≡ first_broken ruled.ShortStraight self.now.limits.now self.now.alignment.now }
    {
        let elements = self.alignment.elements();
        let mut before = Element::BLANK;
        for (i, e) in elements.iter().enumerate() {
            let after = elements.get(i + 2).copied().unwrap_or(Element::BLANK);
            if item_rules::is_short_straight(self.limits, &before, e, &after) {
                return Some(i);
            }
            if e.is_arc() {
                before = *e;
            }
        }
        None
    }

    // Refusals 13 to 15, of a tangent.
    fn first_tangent(&self, rule: TangentRule) -> Option<usize>
        ensures { result ≡ first_broken (ruled.Tangent rule) self.now.limits.now self.now.alignment.now }
    {
        let tangents = self.alignment.tangents();
        let items = Beside::new(tangents, Tangent::BLANK).map(|(
            before,
            tangent,
            after,
        )| TangentAmong {
            before,
            tangent,
            after,
        });
        first_broken(rule, self.limits, tangents.len(), items)
    }

    // Refusals 16 to 18, of a crossfall point.
    fn first_point(&self, rule: PointRule) -> Option<usize>
        ensures { result ≡ first_broken (ruled.Point rule) self.now.limits.now self.now.alignment.now }
    {
        let points = self.alignment.crossfalls();
        let count = points.len();
        let whole = self.whole;
        let ramp = self.alignment.head().ramp;
        let items = Beside::new(points, Crossfall::BLANK)
            .enumerate()
            .map(move |(place, (before, point, after))| PointAmong {
                place,
                count,
                whole,
                ramp,
                before,
                point,
                after,
            });
        first_broken(rule, self.limits, count, items)
    }

    // Refusal 19: on an arc a crossfall changes or is wrong. Where the points ascend, the pairs of points are passed along with the elements, each once.
    // By two places: a `for` over the elements needs a loop over the points within, which goes on where it stopped, and is no plainer.
    fn first_arc(&self) -> Option<usize>
        requires { PointOrder self.now.alignment.now }
        ensures { result ≡ first_broken ruled.Superelevation self.now.limits.now self.now.alignment.now }
    {
        let elements = self.alignment.elements();
        let points = self.alignment.crossfalls();
        let mut low: u64 = 0;
        let mut i: usize = 0;
        let mut j: usize = 0;
        while i < elements.len() {
            let e = &elements[i];
            let span = low..low + u64::from(e.length);
            let pair = pair_at(points, j);
            if superelevation::is_wrong(self.limits, e, &span, &pair) {
                return Some(i);
            }
            // to the next pair of points, if it begins before the element ends, else to the next element
            if j + 2 < points.len() && u64::from(pair.next.station) <= span.end {
                j += 1;
            } else {
                low = span.end;
                i += 1;
            }
        }
        None
    }

    // The place of the first item that breaks a rule, where the rules before it are kept. A `match` names the search of each rule: closures would all have to
    // ask what two of them ask, that the kinds run as they must and the points ascend.
    fn first_of(&self, rule: Rule) -> Option<usize>
        requires { Tried rule self.now.limits.now self.now.alignment.now }
        ensures { result ≡ first_broken rule self.now.limits.now self.now.alignment.now }
    {
        match rule {
            Rule::Element(of) => self.first_element(of),
            Rule::OtherTotal => self.other_total(),
            Rule::ShortStraight => self.first_straight(),
            Rule::Tangent(of) => self.first_tangent(of),
            Rule::Point(of) => self.first_point(of),
            Rule::Superelevation => self.first_arc(),
        }
    }
}

// What the rules say of a road under given limits.
pub fn judge(a: &Alignment, l: &Limits) -> Result<(), Refusal>
    ensures { as_verdict result ≡ judged l.now a.now }
{
    let judging = Judging::new(a, l);
    // a loop: with `find_map` tried, the proof did not close that its closure is called only where the rules before are kept
    for rule in &ORDER {
        if let Some(place) = judging.first_of(*rule) {
            return Err(Fault::Broken(*rule).at(place));
        }
    }
    Ok(())
}

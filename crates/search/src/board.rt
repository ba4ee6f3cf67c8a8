ghost use Rattle.std.specs.Prelude.{◌≡◌, ℕ, ◌<◌, ◌≤◌, length, MatchOption, true, slice_index_or};

use rules::measure::Measure;
use rules::source::RuleSource;
use rules::weights::Label;

// Marks are bytes with names, and no enum: the memory for them is lent as bytes, and ends as zeros.
// This is the mark of a privilege that no way to the target is known from.
const UNREACHED: u8 = 0;

// That of one whose label tells the lightest way found so far.
const LABELLED: u8 = 1;

// That of one whose label tells a lightest way of all, and stays.
const SETTLED: u8 = 2;

// The marks and labels of one search, one of each for every privilege.
#[derive(Drop)]
pub struct Board<'m, 'l, W> {
    pub marks: &'m mut [u8],
    pub labels: &'l mut [Label<W>],
    ghost labelled: { length marks.now ≤ length labels.now },
    ghost few: { length marks.now ≤ 65536 },
}

impl<W: Measure> Board<'_, '_, W> {
    ghost use Rattle.rules.specs.Chains.{Grants};
    ghost use Rattle.search.specs.Boards.{state, SameMemory, Becomes};
    ghost use Rattle.search.specs.Labels.{label as label_at, begun, improved, relaxed, Selected};
    ghost use Rattle.search.specs.Plans.{Arrived};
    ghost use Rattle.search.specs.Questions.{HeldIn, Chainless};

    // No mark but the target's, whose label has no weight.
    fn begin(&mut self, target: u16)
        requires { target < length self.old.marks.now }
        ensures { Becomes self.old self.new (begun W.zero target (state self.old)) }
    {
        self.marks.fill(UNREACHED);
        self.marks[target as usize] = LABELLED;
        self.labels[target as usize] = Label {
            weight: W::zero(),
            next: target,
            rule: 0,
        };
    }

    // The labelled privilege of the least weight.
    fn select(&self) -> Option<u16>
        ensures { Selected W.zero W.at_most self.now.marks.now self.now.labels.now (length self.now.marks.now) result }
    {
        let mut best: Option<(u16, W)> = None;
        for (p, mark) in self.marks.iter().enumerate() {
            if *mark == LABELLED {
                let p = p as u16;
                let weight = self.labels[p as usize].weight;
                if best.is_none_or(|(_, least)| !least.at_most(&weight)) {
                    best = Some((p, weight));
                }
            }
        }
        best.map(|(p, _)| p)
    }

    // Writes the label at p, where none is yet, or one of more weight that is not settled.
    fn improve(&mut self, p: usize, label: Label<W>)
        requires { p < length self.old.marks.now }
        ensures { Becomes self.old self.new (improved W.zero W.at_most (state self.old) p label) }
    {
        let old = self.labels[p].weight;
        let gains = match self.marks[p] {
            UNREACHED => true,
            LABELLED => !old.at_most(&label.weight),
            _ => false,
        };
        if gains {
            self.marks[p] = LABELLED;
            self.labels[p] = label;
        }
    }

    // Labels whatever grants q, slot by slot, where that is new or weighs less.
    fn relax<S: RuleSource>(&mut self, source: &S, q: u16)
        requires inside { q < length self.old.marks.now }
        requires marked { (S.meaning source.now).count ≤ length self.old.marks.now }
        ensures { Becomes self.old self.new (relaxed W.zero W.added W.at_most (S.meaning source.now) q (label_at W.zero self.old.labels.now q).weight (S.meaning source.now).width (state self.old)) }
    {
        let near = source.place(q);
        let base = self.labels[q as usize].weight;
        for k in 0..source.width() {
            let Some((p, rule)) = source.slot(q, k) else {
                continue;
            };
            let label = Label {
                weight: base.add(source.place(p) != near),
                next: q,
                rule,
            };
            self.improve(p as usize, label);
        }
    }

    // The held privilege that a least chain to the target starts at.
    pub fn run<S: RuleSource>(&mut self, source: &S, held: &[u8], target: u16) -> Option<u16>
        requires held { length held.now ≡ (S.meaning source.now).count }
        requires marks { length self.old.marks.now ≡ (S.meaning source.now).count }
        requires live { (S.meaning source.now).live target ≡ true }
        ensures memory { SameMemory self.old self.new }
        ensures cases { MatchOption result (Chainless (S.meaning source.now) (Grants (S.meaning source.now)) held.now target) (λ q. Arrived W.zero W.added W.at_most (S.meaning source.now) (HeldIn held.now) target (state self.new) q) }
        ensures past { (k : ℕ) (d : Label W) → (S.meaning source.now).count ≤ k → slice_index_or self.new.labels.now k d ≡ slice_index_or self.old.labels.now k d }
    {
        self.begin(target);
        while let Some(q) = self.select() {
            let is_held = held[q as usize] == 1;
            if is_held {
                return Some(q);
            }
            self.marks[q as usize] = SETTLED;
            self.relax(source, q);
        }
        None
    }
}

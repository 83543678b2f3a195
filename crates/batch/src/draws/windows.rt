// The window of a draw that is tried: its words lead a state to time zero, the oldest first.
ghost use Rattle.std.specs.Prelude.{◌≡◌, ◌+◌, ◌*◌, ◌<◌, ◌≤◌, true};
ghost use Rattle.batch.specs.Machine.{limit};
ghost use Rattle.coupling.specs.Windows.{draw_place};
ghost use Rattle.sources.specs.Sources.{has_place};

use crate::draws::OpenDraw;
use crate::ends::EndsMut;
use crate::fault::{Fault, Unfilled};
use lattice::kind::Kind;
use sources::source::Source;

// The places of a window in a source, which may lack some of them.
#[derive(Drop)]
struct Places<'a, S: Source> {
    source: &'a S,
    // The draw's number, and how many places each draw has.
    number: u32,
    stretch: u32,
    window: u64,
    ghost few: { number < limit },
    ghost fits: { stretch ≤ limit },
    ghost some: { 1 ≤ window },
    ghost within: { window ≤ stretch },
}

// A window of which the source has the oldest place, and so all of them.
#[derive(Drop)]
pub(super) struct Window<'a, S: Source> {
    places: Places<'a, S>,
    ghost filled: { has_place (S.reading places.source.now) (draw_place places.stretch places.number places.window) ≡ true },
}

impl<'a, S: Source> Window<'a, S> {
    ghost use Rattle.std.specs.Prelude.{Decides, MatchResult};
    ghost use Rattle.batch.specs.Ends.{SameExtents};
    ghost use Rattle.batch.specs.Lent.{SameEnds, ends_of};
    ghost use Rattle.batch.specs.Faults.{unfilled_cause};
    ghost use Rattle.batch.specs.Tries.{filled};
    ghost use Rattle.batch.specs.Reads.{words_in};
    ghost use Rattle.coupling.specs.Lead.{lead};
    ghost use Rattle.lattice.specs.Grid.{agree};
    ghost use Rattle.refusal.specs.Refusals.{answer};

    // A window that fits the draw's stretch, or the source's refusal of its oldest word.
    pub(super) fn of(
        draw: &OpenDraw,
        source: &'a S,
        window: u64,
    ) -> Result<Window<'a, S>, Unfilled<S::Fault>>
        requires some { 1 ≤ window }
        requires fits { window ≤ draw.now.batch.stretch }
        ensures { answer (words_in S.Source) (unfilled_cause S.Fault.refusal) result ≡ filled (S.reading source.now) draw.now.batch.stretch draw.now.batch.tally.opened window }
    {
        let places = Places {
            source,
            number: draw.batch.tally.opened,
            stretch: draw.batch.stretch,
            window,
        };
        let _oldest = places.word(window)?;
        Ok(Window { places })
    }

    // Leads the bottom and the top through the words, and answers whether they end equal.
    pub(super) fn lead_both<K: Kind>(
        &self,
        rule: &K,
        ends: &mut EndsMut<K>,
    ) -> Result<bool, Fault<S::Fault>>
        requires own_low { agree (K.extent rule.now) (K.carried ends.old.low.now) ≡ true }
        requires own_high { agree (K.extent rule.now) (K.carried ends.old.high.now) ≡ true }
        ensures decides { MatchResult result (λ met. Decides met (K.cells ends.new.low.now ≡ K.cells ends.new.high.now)) (λ _. ⊥) }
        ensures leads_low { K.cells ends.new.low.now ≡ lead (K.meaning rule.now) (words_in S.Source self.now) (K.meaning rule.now).bottom }
        ensures leads_high { K.cells ends.new.high.now ≡ lead (K.meaning rule.now) (words_in S.Source self.now) (K.meaning rule.now).top }
        ensures keeps { SameExtents (ends_of K.Kind ends.old) (ends_of K.Kind ends.new) }
        ensures same_ends { SameEnds ends.old ends.new }
    {
        rule.set_bottom(ends.low)?;
        self.lead(rule, ends.low)?;
        rule.set_top(ends.high)?;
        self.lead(rule, ends.high)?;
        Ok(rule.equal(ends.low, ends.high)?)
    }

    // Leads a state through the words.
    fn lead<K: Kind>(&self, rule: &K, state: &mut K::State) -> Result<(), Fault<S::Fault>>
        requires own { agree (K.extent rule.now) (K.carried state.old) ≡ true }
        ensures leads { MatchResult result (λ _. K.cells state.new ≡ lead (K.meaning rule.now) (words_in S.Source self.now) (K.cells state.old)) (λ _. ⊥) }
        ensures keeps { K.carried state.new ≡ K.carried state.old }
    {
        for place in (1..=self.places.window).rev() {
            let word = self.places.word(place)?;
            rule.apply(state, word)?;
        }
        Ok(())
    }
}

impl<'a, S: Source> Places<'a, S> {
    ghost use Rattle.batch.specs.Faults.{unfilled_cause};
    ghost use Rattle.batch.specs.Tries.{placed};
    ghost use Rattle.refusal.specs.Refusals.{answer};

    // The word at a place of the draw.
    fn word(&self, place: u64) -> Result<u64, Unfilled<S::Fault>>
        requires { place ≤ limit }
        ensures { answer (λ w. w) (unfilled_cause S.Fault.refusal) result ≡ placed (S.reading self.now.source.now) self.now.stretch self.now.number self.now.window place }
    {
        let Places { number, window, .. } = self;
        self.source
            .word(self.before() + place)
            .map_err(|cause| Unfilled {
                number: u64::from(*number),
                window: *window,
                cause,
            })
    }

    // How many of the source's places stand before the draw's.
    fn before(&self) -> u64
        ensures value { result ≡ self.now.number * self.now.stretch }
        ensures fits { result ≤ limit * limit }
    {
        u64::from(self.number) * u64::from(self.stretch)
    }
}

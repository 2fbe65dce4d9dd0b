// What a plan says, and what a level sees under it.
ghost use Rattle.std.specs.Prelude.{◌≡◌, ◌<◌, ◌&&◌, ◌++◌, if◌then◌else◌, Some, None, MatchResult, nat_lt};
ghost use Rattle.event.specs.declared.Refusal.TheVariants.{OutOfMemory};
ghost use Rattle.plan.specs.Plans.{model, LawfulPlan, sees_whole, sight, sights, SightLaws};

use crate::plan::Plan;
use cut::Cut;
use event::{Event, Level, Refusal};
use order::Order;
use std::alloc::Global;

impl Plan {
    // The number of levels.
    pub fn levels(&self) -> usize
        ensures { result ≡ (model self.now).levels }
    {
        self.order.levels()
    }

    // The number of input channels.
    pub fn inputs(&self) -> usize
        ensures { result ≡ (model self.now).inputs }
    {
        self.inputs.len()
    }

    // The number of output channels.
    pub fn outputs(&self) -> usize
        ensures { result ≡ (model self.now).outputs }
    {
        self.outputs.len()
    }

    // Whether level a is below level b; a number that is no level is neither below nor above any.
    pub fn below(&self, a: Level, b: Level) -> bool
        ensures { result ≡ (model self.now).below a b }
    {
        self.order.below(a, b)
    }

    // The level of an input channel; a channel that the plan does not have has none.
    pub fn input_level(&self, channel: u16) -> Option<Level>
        ensures { result ≡ (if nat_lt channel (model self.now).inputs then Some ((model self.now).input_level channel) else None) }
    {
        self.inputs
            .get(usize::from(channel))
            .map(|input| input.level)
    }

    // The level of an output channel; a channel that the plan does not have has none.
    pub fn output_level(&self, channel: u16) -> Option<Level>
        ensures { result ≡ (if nat_lt channel (model self.now).outputs then Some ((model self.now).output_level channel) else None) }
    {
        self.outputs.get(usize::from(channel)).copied()
    }

    // The cut of an input channel at a level; there is none for a channel or a level that the plan does not have.
    pub fn cut(&self, channel: u16, level: Level) -> Option<Cut>
        ensures { result ≡ (if nat_lt channel (model self.now).inputs && nat_lt level (model self.now).levels then Some ((model self.now).cut channel level) else None) }
    {
        let input = self.inputs.get(usize::from(channel))?;
        input.cuts.get(level).copied()
    }

    // Whether a level sees the events of an input channel whole.
    pub fn sees_whole(&self, level: Level, channel: u16) -> bool
        ensures { result ≡ sees_whole (model self.now) level channel }
    {
        self.input_level(channel)
            .is_some_and(|own| self.below(own, level))
    }

    // The sight of an event at a level: where the channel's level is below the level, the event itself,
    // and else what the cut leaves of it.
    #[tactic(auto, using(crate::proofs::Seeing::plan_lawful, crate::proofs::Seeing::plan_sight_laws))]
    pub fn sight(&self, level: Level, event: Event) -> Option<Event>
        ensures is { result ≡ sight (model self.now) level event }
        ensures laws { SightLaws (model self.now) }
        ensures lawful { LawfulPlan (model self.now) }
    {
        let cut = self.cut(event.channel, level)?;
        if self.sees_whole(level, event.channel) {
            return Some(event);
        }
        let value = cut.apply(event.value)?;
        Some(Event { value, ..event })
    }

    // The sight of a list of events at a level: that of each in order, absent ones left out. Want of memory,
    // its one failure, comes as a refusal, since a refusal of a public call has a number.
    pub fn sights(
        &self,
        heap: Global,
        level: Level,
        events: &[Event],
    ) -> Result<Vec<Event>, Refusal>
        ensures { MatchResult result (λ v. v.items ≡ sights (model self.now) level events.now) (λ e. e ≡ OutOfMemory) }
    {
        let seen = events.iter().filter_map(|event| self.sight(level, *event));
        Ok(seen.collect(heap)?)
    }
}

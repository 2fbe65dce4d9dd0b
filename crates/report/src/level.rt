// What the levels of a plan see of some events.
ghost use Rattle.std.specs.Prelude.{Some};
ghost use Rattle.plan.specs.Plans.{model};
ghost use Rattle.report.specs.Reports.{level_text, levels_text};
ghost use Rattle.report.specs.Seen.{IsSeen};

use crate::seen::SeenEvent;
use crate::tally::Tally;
use event::{Event, Level};
use plan::plan::Plan;
use std::fmt;

// What one level of a plan sees of some events.
#[derive(Clone, Copy)]
struct LevelView<'a> {
    plan: &'a Plan,
    level: Level,
    events: &'a [Event],
}

impl<'a> LevelView<'a> {
    // What the level sees of an event.
    fn seen(&self, event: Event) -> Option<SeenEvent>
        ensures { IsSeen (model self.now.plan.now) self.now.level event result }
    {
        let seen = self.plan.sight(self.level, event)?;
        let whole = self.plan.sees_whole(self.level, event.channel);
        Some(SeenEvent { event: seen, whole })
    }
}

impl<'a> fmt::Display for LevelView<'a> {
    ghost output = { λ v. Some (level_text (model v.plan.now) v.level v.events.now) };

    fn fmt<W: fmt::Write>(&self, f: &mut fmt::Formatter<W>) -> fmt::Result {
        let level = self.level;
        writeln!(f, "level {level} sees:")?;
        let mut tally = Tally::new();
        for event in self.events {
            let seen = self.seen(*event);
            tally = tally.with(seen);
            if let Some(seen) = seen {
                write!(f, "{seen}")?;
            }
        }
        let Tally { whole, cut, absent } = tally;
        writeln!(
            f,
            "level {level}: {whole} whole, {cut} cut, {absent} not at all"
        )
    }
}

// What all levels of a plan see of some events, by rising number.
#[derive(Clone, Copy)]
pub(crate) struct PlanView<'a> {
    pub(crate) plan: &'a Plan,
    pub(crate) events: &'a [Event],
}

impl<'a> fmt::Display for PlanView<'a> {
    ghost output = { λ v. Some (levels_text (model v.plan.now) v.events.now (model v.plan.now).levels) };

    fn fmt<W: fmt::Write>(&self, f: &mut fmt::Formatter<W>) -> fmt::Result {
        let PlanView { plan, events } = *self;
        for level in 0..plan.levels() {
            let view = LevelView {
                plan,
                level,
                events,
            };
            write!(f, "{view}")?;
        }
        Ok(())
    }
}

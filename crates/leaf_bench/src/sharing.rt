//! A rule set, shared repeatedly.
use anyhow::{Context, Result};
use json_text::Text;
use pattern_read::SharedPattern;
use rule_table::{Control, RuleSet};
use std::alloc::Global;
use std::rt::Clock;
use std::time::{Duration, Instant};

/// The number of changes that made the rule set, and the time of all calls of `share`.
#[derive(Clone, Copy)]
pub struct Figures {
    pub changes: u64,
    pub took: Duration,
}

/// Shares a rule set with this number of rules the given number of times.
pub fn measure(rt: &impl Clock, alloc: Global, rules: u32, rounds: u32) -> Result<Figures> {
    let set = with_rules(alloc, rules)?;
    let mut changes = 0;
    let start = Instant::now(rt)?;
    for _ in 0..rounds {
        changes = set.share()?.control_count();
    }
    Ok(Figures {
        changes,
        took: start.elapsed(rt)?,
    })
}

/// The first rule set with this number of rules, at most 300.
fn with_rules(alloc: Global, rules: u32) -> Result<RuleSet> {
    let mut set = RuleSet::first(alloc)?;
    let text = Text::from_str(alloc, "{\"source\":[\"shop\"]}")?;
    let pattern = SharedPattern::read(alloc, text).context("the pattern")?;
    for number in 0..rules {
        let rule = Control::RulePut {
            bus: Text::from_str(alloc, "default")?,
            name: Text::from(format!(in alloc; "r{number}")?),
            pattern: pattern.share()?,
            enabled: true,
        };
        if set.control_count() >= 300 {
            break;
        }
        set = set.apply(alloc, &rule).context("the rule")?;
    }
    Ok(set)
}

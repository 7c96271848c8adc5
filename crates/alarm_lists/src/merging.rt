// One alarm in the place of two.
#![tactic(auto)]

ghost use Rattle.std.specs.Prelude.{IfOk};
ghost use Rattle.c_syntax.specs.Admission.{IsProper};
ghost use Rattle.mem_shown.specs.Hulls.{AreOfOneForm};
ghost use Rattle.alarm_lists.specs.Lists.{AreAlike, IsMerge};

use crate::facts::common_facts;
use c_syntax::Alarm;
use mem_shown::shown_hull;
use std::alloc::{AllocError as NoMemory, Global};

/// One alarm in the place of two of one chain, place and kind: it shows the hull of what both show, has the facts that
/// both have, and the check and the example of the first.
pub fn merge_alarms(alloc: Global, first: Alarm, second: Alarm) -> Result<Alarm, NoMemory>
    requires alike { AreAlike first second }
    requires form { AreOfOneForm first.shown second.shown }
    requires left { IsProper first.shown }
    requires right { IsProper second.shown }
    ensures { IfOk result (IsMerge first second) }
{
    let shown = shown_hull(&first.shown, &second.shown)?;
    let Alarm {
        chain,
        pos,
        kind,
        check,
        shown: _,
        example,
        facts,
    } = first;
    let facts = common_facts(alloc, facts, second.facts)?;
    Ok(Alarm {
        chain,
        pos,
        kind,
        check,
        shown,
        example,
        facts,
    })
}

// Numbers that pass a check.

ghost use Rattle.num_api.specs.Spans.{span};
ghost use Rattle.mem_temps.specs.Cuts.{IsCutTo, IsCutNonzero};

use c_syntax::Check;
use ext_int::Ext;
use machine_nums::meet;
use num_api::{Range, Standing, cut_range};

/// The numbers of a range that a check allows.
pub fn allowed_range(r: Range, check: &Check) -> Range
    ensures { IsCutTo r (span check.now.lo check.now.hi) result }
{
    let allowed = Range {
        lo: Ext::Fin(check.lo),
        hi: Ext::Fin(check.hi),
    };
    meet(r, allowed)
}

/// The numbers of a range, without 0 where that is an end.
pub fn nonzero_range(r: Range) -> Range
    ensures { IsCutNonzero r result }
{
    meet(cut_range(Standing::Other, r, Range::point(0)), r)
}

// What an item is associated with: the positions of its properties in ipma, without the head of its entry.

#![tactic(auto)]

ghost use Rattle.std.specs.Prelude.{length};
ghost use Rattle.octets.specs.Stores.{Room, Wrote};
ghost use Rattle.plan_runs.specs.Runs.{places};
ghost use Rattle.plan_runs.specs.Lists.{marked, listed};

use octets::Output;
use panel::when::when;
use plan_runs::Run;
use plan_runs::lists::Associated;

// Writes the positions of a run. The highest bit marks them as essential.
pub fn write_run(out: &mut Output, run: Run, is_essential: bool)
    requires { Room out.old run.count }
    ensures { Wrote out.old run.count (marked is_essential (places run)) out.new }
{
    let mark = when(is_essential, 128) as u8;
    let first = run.first().0;
    let count = run.count();
    // Nearly every run has one position, for which the loop would cost more than the byte does.
    if count == 1 {
        out.w8(mark + first);
        return;
    }
    for position in first..first + count {
        out.w8(mark + position);
    }
}

// Writes the associations of a list, run by run.
pub fn write_list(out: &mut Output, list: &[Associated])
    requires { Room out.old (length (listed list.now)) }
    ensures { Wrote out.old (length (listed list.now)) (listed list.now) out.new }
{
    for associated in list {
        write_run(out, associated.run, associated.essential);
    }
}

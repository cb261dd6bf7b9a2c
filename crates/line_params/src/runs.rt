// The runs of pairs that are accepted by equally many steps.
ghost use Rattle.std.specs.Prelude.{◌≡◌, ◌≤◌, ◌<◌, ◌+◌, ◌++◌, length, OnOk};
ghost use Rattle.leb_codec.specs.Records.{pair_count, pairs_of};
ghost use Rattle.line_sums.specs.Accepted.{numbers_of};
ghost use Rattle.line_params.specs.inside.Joined.{AreJoined, with_number};

use dw_base::{NoMemory, Run};

// One pair more: the last run has it, where it has that number, or a new run.
fn push_number(runs: &mut Vec<Run>, number: u32) -> Result<(), NoMemory>
    requires room { pairs_of runs.old.items < pair_count }
    ensures { OnOk result (runs.new.items ≡ with_number runs.old.items number) }
{
    let count = runs.len();
    if count > 0 && runs[count - 1].number == number {
        runs[count - 1].len += 1;
        return Ok(());
    }
    runs.push(Run { len: 1, number })?;
    Ok(())
}

/// The pairs of one line_range more.
pub fn push_numbers(runs: &mut Vec<Run>, numbers: &[u32]) -> Result<(), NoMemory>
    requires room { pairs_of runs.old.items + length numbers.now ≤ pair_count }
    requires joined { AreJoined runs.old.items }
    ensures joined { OnOk result (AreJoined runs.new.items) }
    ensures spread { OnOk result (numbers_of runs.new.items ≡ numbers_of runs.old.items ++ numbers.now) }
{
    for number in numbers {
        push_number(runs, *number)?;
    }
    Ok(())
}

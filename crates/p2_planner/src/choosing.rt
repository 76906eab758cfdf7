ghost use Rattle.std.specs.Prelude.{◌≡◌, ◌+◌, ◌<◌, ◌≤◌, IfOk, length};
ghost use Rattle.pb_solver.specs.Values.{truths};
ghost use Rattle.p2_planner.specs.Selecting.{picked};

use osgi_version::{List, NoMemory};
use pb_core::{Assignment, Lit};

/// Those of the numbers whose variables are true: the n-th has the variable n.
pub(crate) fn chosen(numbers: &List<u32>, values: &Assignment) -> Result<List<u32>, NoMemory>
    requires few { length numbers.now ≤ 8192 }
    requires values { length values.now ≡ length numbers.now }
    ensures { IfOk result (λ members. members ≡ picked (truths values.now) numbers.now) }
{
    let mut members = List::new(numbers.allocator());
    for (place, number) in numbers.items().iter().enumerate() {
        if is_true(values, place) {
            members.push(*number)?;
        }
    }
    Ok(members)
}

/// Whether the variable of this place is true.
fn is_true(values: &Assignment, place: usize) -> bool
    requires few { length values.now ≤ 8192 }
    requires within { place < length values.now }
    ensures { result ≡ truths values.now (place + 1) }
{
    values.is_true(Lit {
        variable: place as u32 + 1,
        positive: true,
    })
}

// What is judged of counters by their sets: which is the first above K.
ghost use Rattle.std.specs.Prelude.{◌≡◌, ◌≤◌, get_or};
ghost use Rattle.grid_counters.specs.Steps.{lines_judged};

use grid_sets::LEVELS;
use refusals::Refusal;

// The lines whose counter is above `k`: those of the set numbered `k`, and none where there is no such set.
fn above(sets: &[u64; LEVELS], k: usize) -> u64
    ensures { result ≡ get_or sets.now k 0 }
{
    sets.get(k).copied().unwrap_or(0)
}

// No counter is above `k`, by the sets of the first lines and of the second, which are counted from `at` on. The lowest that is above names the refusal.
pub fn none_above(
    first: &[u64; LEVELS],
    second: &[u64; LEVELS],
    k: usize,
    at: usize,
) -> Result<(), Refusal>
    requires { at ≤ 64 }
    ensures { result ≡ lines_judged (get_or first.now k 0) (get_or second.now k 0) at }
{
    let first = above(first, k);
    if first != 0 {
        return Err(Refusal::AboveK(first.trailing_zeros() as usize));
    }
    let second = above(second, k);
    if second != 0 {
        return Err(Refusal::AboveK(at + second.trailing_zeros() as usize));
    }
    Ok(())
}

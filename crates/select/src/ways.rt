// Add, compare and select: from the sums of the states and the costs of the subsets the best way into each state.
//
// A way is one number, its key: 128 times its sum, and its last step, which is 8 times the state before and the 4D subset. So the least key
// has the least sum, of equals the smaller state before, and to compare two ways is to take the smaller number. `best_into` is called
// with each state as a constant, so that all places are known when the program is compiled: the four states of a group share the sums
// of the four states before them, nothing is looked up, and four states are compared at once where the machine can.
//
// A state that nothing reaches keeps LIMIT, which no reached state has, nor one with a cost: it loses every comparison, and no flag is
// kept. A state that only such states lead to is mended afterwards, in `follow`: no line has one after its second symbol.
ghost use Rattle.std.specs.Prelude.{◌≡◌, ◌<◌};
ghost use Rattle.select.specs.Select.{sixteen};
ghost use Rattle.select.specs.Ways.{Summable, key_by, key_at};

use sums::STEPS;

// The way into t from the k-th state before it.
fn key_by(sums: &[u32; 16], costs: &[u32; 8], t: u32, k: u32) -> u32
    requires { Summable sums.now costs.now × (t < 16) × (k < 4) }
    ensures { result ≡ key_by sums.now costs.now t k }
{
    let s = wei::state::before_state(t, k);
    let c = wei::state::subset_between(s, t);
    STEPS * (sums[s as usize] + costs[c as usize]) + (8 * s + c)
}

// The best way into t, of equals the one from the first state before it.
fn best_into(sums: &[u32; 16], costs: &[u32; 8], t: u32) -> u32
    requires { Summable sums.now costs.now × (t < 16) }
    ensures { result ≡ key_at sums.now costs.now t }
{
    let low = key_by(sums, costs, t, 0).min(key_by(sums, costs, t, 1));
    let high = key_by(sums, costs, t, 2).min(key_by(sums, costs, t, 3));
    low.min(high)
}

// The best ways into all sixteen states. Sixteen calls and no `from_fn` over the states: that one took more than twice as long when it was tried.
pub fn select(sums: &[u32; 16], costs: &[u32; 8]) -> [u32; 16]
    requires { Summable sums.now costs.now }
    ensures { result ≡ sixteen (key_at sums.now costs.now) }
{
    [
        best_into(sums, costs, 0),
        best_into(sums, costs, 1),
        best_into(sums, costs, 2),
        best_into(sums, costs, 3),
        best_into(sums, costs, 4),
        best_into(sums, costs, 5),
        best_into(sums, costs, 6),
        best_into(sums, costs, 7),
        best_into(sums, costs, 8),
        best_into(sums, costs, 9),
        best_into(sums, costs, 10),
        best_into(sums, costs, 11),
        best_into(sums, costs, 12),
        best_into(sums, costs, 13),
        best_into(sums, costs, 14),
        best_into(sums, costs, 15),
    ]
}

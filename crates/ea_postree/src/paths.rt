//! Ways through a flat tree of maxima.
ghost use Rattle.std.specs.Prelude.{◌≡◌, ◌≢◌, ℕ, ◌*◌, ◌/◌, ◌<◌, ◌≤◌, length, drop, slice_index};
ghost use Rattle.ea_postree.specs.Firsts.{IsFirstAtLeast};
ghost use Rattle.std.specs.Int.{IsPowerOfTwo};
ghost use Rattle.ea_postree.specs.Maxima.{HasValues, IsGreater, IsTree};

/// Goes up from a leaf whose value has changed, and gives each node the greater value of the two
/// below it.
pub fn update_above(leaf: usize, leaves: usize, maxima: &mut [u32])
    requires leaf { leaves ≤ leaf }
    requires within { leaf < length maxima.old }
    requires long { length maxima.old ≡ 2 * leaves }
    requires others { (node : ℕ) → 1 ≤ node → node < leaves → node ≢ leaf / 2
        → IsGreater maxima.old node }
    ensures greater { (node : ℕ) → 1 ≤ node → node < leaves → IsGreater maxima.new node }
    ensures leaves { drop leaves maxima.new ≡ drop leaves maxima.old }
    ensures long { length maxima.new ≡ length maxima.old }
{
    let mut node = leaf;
    while node > 1 {
        node /= 2;
        let greater = maxima[2 * node].max(maxima[2 * node + 1]);
        if maxima[node] == greater {
            return;
        }
        maxima[node] = greater;
    }
}

/// Gives each node the greater value of the two below it.
pub fn update_all(leaves: usize, maxima: &mut [u32])
    requires long { length maxima.old ≡ 2 * leaves }
    ensures greater { (node : ℕ) → 1 ≤ node → node < leaves → IsGreater maxima.new node }
    ensures leaves { drop leaves maxima.new ≡ drop leaves maxima.old }
    ensures long { length maxima.new ≡ length maxima.old }
{
    let mut node = leaves;
    while node > 1 {
        node -= 1;
        maxima[node] = maxima[2 * node].max(maxima[2 * node + 1]);
    }
}

/// Makes a tree with more leaves: its values come first, and 0 after the last of them.
pub fn spread(leaves: usize, wider: usize, maxima: &mut [u32])
    requires wider { leaves < wider }
    requires power { IsPowerOfTwo wider }
    requires long { length maxima.old ≡ 2 * wider }
    requires free { (node : ℕ) → 2 * leaves ≤ node → slice_index maxima.old node ≡ 0 }
    ensures tree { IsTree wider maxima.new }
    ensures same { HasValues leaves maxima.old wider maxima.new }
{
    maxima.copy_within(leaves..2 * leaves, wider);
    update_all(wider, maxima);
}

/// The position of the first leaf with at least `value`, where some leaf has that much.
#[tactic(auto, using(crate::proofs::Levels::go_left, crate::proofs::Levels::go_right))]
pub fn first_leaf(value: u32, leaves: usize, maxima: &[u32]) -> usize
    requires tree { IsTree leaves maxima.now }
    requires some { value ≤ slice_index maxima.now 1 }
    ensures { IsFirstAtLeast value (drop leaves maxima.now) result }
{
    let mut node = 1;
    while node < leaves {
        let left = 2 * node;
        node = if maxima[left] < value { left + 1 } else { left };
    }
    node - leaves
}

//! A heap of variables by their scores, in which each variable knows its place.
//!
//! The variables stand in one array, and behind the heap's last place stand those that were taken
//! off. So all variables always stand somewhere, and each change is an exchange of two of them.
ghost use Rattle.std.specs.Prelude.{◌≡◌, ◌≢◌, ◌+◌, ◌*◌, ◌/◌, ◌<◌, ◌≤◌, ℕ, length, slice_index};
ghost use Rattle.std.specs.List.{SwappedAt};
ghost use Rattle.sdcl_base.specs.declared.lit.TheConstants.{MAX_VARIABLE};
ghost use Rattle.sdcl_decide.specs.Heap.{comes_before, rank_at, AreLinked, IsHeapFrom, MayRise};
ghost use Rattle.sdcl_decide.specs.Heap.{MaySink, SameBehind, Admits};

/// Whether a variable comes before another by the scores.
pub(crate) fn is_before(scores: &[u64], x: u32, y: u32) -> bool
    requires x { x < length scores.now }
    requires y { y < length scores.now }
    ensures { result ≡ comes_before scores.now x y }
{
    let (first, second) = (scores[x as usize], scores[y as usize]);
    second < first || first == second && x < y
}

/// Exchanges the variables at two places.
pub(crate) fn exchange(vars: &mut [u32], places: &mut [usize], i: usize, j: usize)
    requires linked { AreLinked vars.old places.old }
    requires i { (1 ≤ i) × (i < length vars.old) }
    requires j { (1 ≤ j) × (j < length vars.old) }
    ensures vars { SwappedAt vars.old vars.new i j }
    ensures linked { AreLinked vars.new places.new }
    ensures i { slice_index places.new (slice_index vars.old i) ≡ j }
    ensures j { slice_index places.new (slice_index vars.old j) ≡ i }
    ensures others { (x : ℕ) → x ≢ slice_index vars.old i → x ≢ slice_index vars.old j
        → slice_index places.new x ≡ slice_index places.old x }
{
    vars.swap(i, j);
    places[vars[i] as usize] = i;
    places[vars[j] as usize] = j;
}

/// Moves the variable at a place up to where it belongs.
pub(crate) fn rise(vars: &mut [u32], places: &mut [usize], scores: &[u64], size: usize, at: usize)
    requires linked { AreLinked vars.old places.old }
    requires scores { length scores.now ≡ length vars.old }
    requires small { length vars.old ≤ MAX_VARIABLE + 1 }
    requires at { (1 ≤ at) × (at ≤ size) × (size < length vars.old) }
    requires order { MayRise size at (rank_at scores.now vars.old) }
    ensures linked { AreLinked vars.new places.new }
    ensures order { IsHeapFrom 1 size (rank_at scores.now vars.new) }
    ensures same { SameBehind size places.old places.new }
{
    let mut at = at;
    while at > 1 && is_before(scores, vars[at], vars[at / 2]) {
        exchange(vars, places, at, at / 2);
        at /= 2;
    }
}

/// Brings a variable from behind the heap into it, on one place more.
pub(crate) fn admit(vars: &mut [u32], places: &mut [usize], scores: &[u64], last: usize, var: u32)
    requires linked { AreLinked vars.old places.old }
    requires scores { length scores.now ≡ length vars.old }
    requires small { length vars.old ≤ MAX_VARIABLE + 1 }
    requires var { var < length vars.old }
    requires behind { last < slice_index places.old var }
    requires order { IsHeapFrom 1 last (rank_at scores.now vars.old) }
    ensures linked { AreLinked vars.new places.new }
    ensures order { IsHeapFrom 1 (last + 1) (rank_at scores.now vars.new) }
    ensures admits { Admits last var places.old places.new }
{
    let at = places[var as usize];
    exchange(vars, places, at, last + 1);
    rise(vars, places, scores, last + 1, last + 1);
}

/// The place below that one whose variable comes first.
fn first_below(vars: &[u32], scores: &[u64], size: usize, at: usize) -> usize
    requires below { (i : ℕ) → i < length vars.now → slice_index vars.now i < length vars.now }
    requires scores { length scores.now ≡ length vars.now }
    requires small { length vars.now ≤ MAX_VARIABLE + 1 }
    requires at { (1 ≤ at) × (2 * at ≤ size) × (size < length vars.now) }
    ensures place { result / 2 ≡ at }
    ensures within { (2 ≤ result) × (result ≤ size) }
    ensures first { (i : ℕ) → i ≤ size → i / 2 ≡ at
        → rank_at scores.now vars.now i ≤ rank_at scores.now vars.now result }
{
    let left = 2 * at;
    if left < size && is_before(scores, vars[left + 1], vars[left]) {
        left + 1
    } else {
        left
    }
}

/// Moves the variable at a place down to where it belongs.
pub(crate) fn sink(
    vars: &mut [u32],
    places: &mut [usize],
    scores: &[u64],
    size: usize,
    start: usize,
)
    requires linked { AreLinked vars.old places.old }
    requires scores { length scores.now ≡ length vars.old }
    requires small { length vars.old ≤ MAX_VARIABLE + 1 }
    requires start { (1 ≤ start) × (size < length vars.old) }
    requires order { MaySink start size start (rank_at scores.now vars.old) }
    ensures linked { AreLinked vars.new places.new }
    ensures order { IsHeapFrom start size (rank_at scores.now vars.new) }
    ensures same { SameBehind size places.old places.new }
{
    let mut at = start;
    while at <= size / 2 {
        let below = first_below(vars, scores, size, at);
        if !is_before(scores, vars[below], vars[at]) {
            return;
        }
        exchange(vars, places, at, below);
        at = below;
    }
}

/// Makes a heap of all places up to `size`, in time linear in it.
pub(crate) fn arrange(vars: &mut [u32], places: &mut [usize], scores: &[u64], size: usize)
    requires linked { AreLinked vars.old places.old }
    requires scores { length scores.now ≡ length vars.old }
    requires small { length vars.old ≤ MAX_VARIABLE + 1 }
    requires size { size < length vars.old }
    ensures linked { AreLinked vars.new places.new }
    ensures order { IsHeapFrom 1 size (rank_at scores.now vars.new) }
    ensures same { SameBehind size places.old places.new }
{
    let mut start = size / 2;
    while start > 0 {
        sink(vars, places, scores, size, start);
        start -= 1;
    }
}

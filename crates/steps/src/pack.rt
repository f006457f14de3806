// Durations and a tree of places in one list, a number a state.
ghost use Rattle.std.specs.Prelude.{◌≡◌, ◌<◌, length, get_or};
ghost use Rattle.lists.specs.Sizes.{most_states};
ghost use Rattle.steps.specs.Inner.Tree.{node};
ghost use Rattle.steps.specs.Inner.Pack.{width, lows, highs};
ghost use Rattle.steps.specs.Inner.Asked.{PutsPlace, PutsDuration};

pub(crate) fn duration_at(work: &[u32], p: usize) -> u32
    requires { p < length work.now }
    ensures { result ≡ get_or (lows work.now) p 0 }
{
    work[p] % 131_072
}

// The place at a node, inner or leaf.
pub(crate) fn place_at(work: &[u32], i: usize) -> usize
    ensures { result ≡ node (highs work.now) i }
{
    if i < work.len() {
        return (work[i] / 131_072) as usize;
    }
    i - work.len()
}

pub(crate) fn put_duration(work: &mut [u32], p: usize, d: u32)
    requires { (p < length work.old) × (d < width) }
    ensures { PutsDuration work.old p d work.new }
{
    work[p] = work[p] / 131_072 * 131_072 + d;
}

pub(crate) fn put_place(work: &mut [u32], i: usize, p: usize)
    requires { (i < length work.old) × (p < most_states) }
    ensures { PutsPlace work.old i p work.new }
{
    work[i] = (p as u32) * 131_072 + work[i] % 131_072;
}

// Leaves the durations alone.
pub(crate) fn unpack(work: &mut [u32])
    ensures { work.new ≡ lows work.old }
{
    for x in work.iter_mut() {
        *x = *x % 131_072;
    }
}

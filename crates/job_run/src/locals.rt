// The locals of an activation, put away where it waits for an answer and given back where it goes
// on.
//
// Most blocks use few of them: the first temporaries, the numbers of a few loops one inside the
// other, and what a condition keeps. These are put away at each call. The others are put away, and
// cleared, only where one of them holds something else than 0: a call looks at all of them at once,
// which takes less than to copy them, and a store to a local has nothing to tell.
//
// All fifty at once would be copied by a function that copies any number of bytes, and around its
// call the loop of a run puts away what it has in the processor's registers. Each part of them is
// copied by a few loads and stores where it stands.
ghost use Rattle.std.specs.Prelude.{◌≡◌, ◌+◌, ◌-◌, ◌≤◌, ◌++◌, false, length, take, drop, replicate};
ghost use Rattle.job_run.specs.Kept.{FewUsed, locals_of};

use std::simd::Simd;

/// The locals of a caller that waits, in parts.
#[derive(Clone, Copy)]
pub(crate) struct Kept {
    /// The first temporaries.
    first: [u32; 8],
    /// The numbers and last numbers of the outermost four loops.
    loops: [u32; 8],
    /// What AND and OR keep.
    results: [u32; 2],
    /// Whether the others are kept too. Where they are not they were 0.
    more: bool,
    /// The other temporaries.
    temporaries: [u32; 16],
    /// The numbers and last numbers of the inner loops.
    inner: [u32; 16],
}

impl Kept {
    /// Locals that are all 0.
    pub(crate) const ZEROS: Kept = Kept {
        first: [0; 8],
        loops: [0; 8],
        results: [0; 2],
        more: false,
        temporaries: [0; 16],
        inner: [0; 16],
    };

    /// Puts locals away, and clears them.
    #[inline(always)]
    pub(crate) fn put_away(&mut self, locals: &mut [u32; 50])
        ensures kept { locals_of self.new ≡ locals.old }
        ensures cleared { locals.new ≡ replicate 50 0 }
    {
        if holds_more(locals) {
            self.put_away_all(locals);
        } else {
            self.put_away_few(locals);
        }
    }

    /// Puts all of them away. It stands alone, since few blocks use so many.
    #[cold]
    #[inline(never)]
    fn put_away_all(&mut self, locals: &mut [u32; 50])
        ensures kept { locals_of self.new ≡ locals.old }
        ensures cleared { locals.new ≡ replicate 50 0 }
    {
        let values: &[u32] = locals;
        self.first = part_at(values, 0);
        self.temporaries = part_at(values, 8);
        self.loops = part_at(values, 24);
        self.inner = part_at(values, 32);
        self.results = part_at(values, 48);
        self.more = true;
        *locals = [0; 50];
    }

    /// Puts those away that most blocks use, where the others are 0.
    #[inline(always)]
    fn put_away_few(&mut self, locals: &mut [u32; 50])
        requires { FewUsed locals.old }
        ensures kept { locals_of self.new ≡ locals.old }
        ensures cleared { locals.new ≡ replicate 50 0 }
    {
        let values: &[u32] = locals;
        self.first = part_at(values, 0);
        self.loops = part_at(values, 24);
        self.results = part_at(values, 48);
        self.more = false;
        clear_few(locals);
    }

    /// Gives back what was put away.
    #[inline(always)]
    pub(crate) fn give_back(&self, locals: &mut [u32; 50])
        ensures { locals.new ≡ locals_of self.now }
    {
        if self.more {
            self.give_back_all(locals);
        } else {
            let zeros = [0; 16];
            fill(locals, self.first, zeros, self.loops, zeros, self.results);
        }
    }

    /// Gives all of them back. It stands alone, since few blocks use so many.
    #[cold]
    #[inline(never)]
    fn give_back_all(&self, locals: &mut [u32; 50])
        ensures { locals.new ≡ self.now.first ++ self.now.temporaries ++ self.now.loops
            ++ self.now.inner ++ self.now.results }
    {
        fill(
            locals,
            self.first,
            self.temporaries,
            self.loops,
            self.inner,
            self.results,
        );
    }
}

/// Whether others than those that most blocks use hold something else than 0.
#[inline(always)]
fn holds_more(values: &[u32]) -> bool
    requires { length values.now ≡ 50 }
    ensures { (result ≡ false) → FewUsed values.now }
{
    let others = lanes::<16>(values, 8) | lanes::<16>(values, 32);
    others.reduce_or() != 0
}

/// Clears the locals that most blocks use, where the others are 0.
#[inline(always)]
fn clear_few(values: &mut [u32])
    requires long { length values.old ≡ 50 }
    requires few { FewUsed values.old }
    ensures { values.new ≡ replicate 50 0 }
{
    set_part(values, 0, [0; 8]);
    set_part(values, 24, [0; 8]);
    set_part(values, 48, [0; 2]);
}

/// Gives all locals their values, by parts.
#[inline(always)]
fn fill(
    values: &mut [u32],
    first: [u32; 8],
    temporaries: [u32; 16],
    loops: [u32; 8],
    inner: [u32; 16],
    results: [u32; 2],
)
    requires { length values.old ≡ 50 }
    ensures { values.new ≡ first ++ temporaries ++ loops ++ inner ++ results }
{
    set_part(values, 0, first);
    set_part(values, 8, temporaries);
    set_part(values, 24, loops);
    set_part(values, 32, inner);
    set_part(values, 48, results);
}

/// The values of a part that begins at a place.
#[inline(always)]
fn part_at<const N: usize>(values: &[u32], at: usize) -> [u32; N]
    requires { at + N ≤ length values.now }
    ensures { result ≡ take N (drop at values.now) }
{
    lanes::<N>(values, at).to_array()
}

/// The same, in one piece.
#[inline(always)]
fn lanes<const N: usize>(values: &[u32], at: usize) -> Simd<u32, N>
    requires { at + N ≤ length values.now }
    ensures { result ≡ take N (drop at values.now) }
{
    Simd::from_slice(from_place(values, at))
}

/// Gives a part that begins at a place its values.
#[inline(always)]
fn set_part<const N: usize>(values: &mut [u32], at: usize, part: [u32; N])
    requires { at + N ≤ length values.old }
    ensures before { take (at + N) values.new ≡ take at values.old ++ part.entry }
    ensures behind { drop (at + N) values.new ≡ drop (at + N) values.old }
    ensures long { length values.new ≡ length values.old }
{
    Simd::<u32, N>::from_array(part).copy_to_slice(&mut values[at..]);
}

/// The values from a place on.
#[inline(always)]
fn from_place(values: &[u32], at: usize) -> &[u32]
    requires { at ≤ length values.now }
    ensures rest { result.now ≡ drop at values.now }
    ensures long { length result.now ≡ length values.now - at }
{
    &values[at..]
}

// The offset of each box, the sum of the distances before it: positions are placed without it, in run coordinates, and it is put
// back. `steps` are the distances from each box to the next member.
ghost use Rattle.std.specs.Prelude.{◌≡◌, ◌≤◌, length, get_or};
ghost use Rattle.ints.specs.Lists.{sum};
ghost use Rattle.run_columns.specs.inner.Columns.{Small};
ghost use Rattle.run_columns.specs.inner.Offsets.{offsets_from, plus_offsets, OffsetsOf, max_offset};

use ints::plus;

// The distance after box i, 0 if nothing follows.
pub fn distance_at(distances: &[u64], i: usize) -> u64
    ensures { result ≡ get_or distances.now i 0 }
{
    distances.get(i).copied().unwrap_or(0)
}

// The offset of each box.
pub fn fill_offsets(steps: &[u64], offsets: &mut [u64])
    requires { sum steps.now ≤ max_offset }
    ensures { offsets.new ≡ offsets_from 0 steps.now (length offsets.old) }
{
    let mut offset: u64 = 0;
    for (i, slot) in offsets.iter_mut().enumerate() {
        *slot = offset;
        offset += distance_at(steps, i);
    }
}

pub fn plus_offsets(offsets: &[u64], z: &mut [i64])
    requires offsets_of { OffsetsOf offsets.now z.old }
    requires small { Small z.old }
    ensures { z.new ≡ plus_offsets offsets.now z.old }
{
    for (i, x) in z.iter_mut().enumerate() {
        *x = plus(*x, offsets[i]);
    }
}

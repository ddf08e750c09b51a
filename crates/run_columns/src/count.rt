// How many of a box's neighbours are at or left of a place.
ghost use Rattle.std.specs.Prelude.{◌≡◌, true};
ghost use Rattle.run.specs.Run.{nondecreasing};
ghost use Rattle.run.specs.inner.Coordinates.{count_up_to};

pub fn count_up_to(near: &[i64], m: i64) -> usize
    requires { nondecreasing near.now ≡ true }
    ensures { result ≡ count_up_to m near.now }
{
    near.partition_point(|x| *x <= m)
}

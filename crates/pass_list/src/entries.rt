// The list of placings: the boxes of all placings lie one after another, each with its vertex and its position after.
ghost use Rattle.std.specs.Prelude.{◌≡◌, ◌++◌, ◌+◌, ◌-◌, ◌≤◌, length, take, drop};
ghost use Rattle.plan.specs.Plan.{numbers};
ghost use Rattle.passes.specs.State.{position_of};
ghost use Rattle.pass_tables.specs.inner.Tables.{along};

// Writes the boxes from `from` on into the places from `start` up to `end`.
pub fn list_vertices(from: usize, start: usize, end: usize, vertices: &mut [u16])
    requires { (start ≤ end) × (end ≤ length vertices.old) × (from + (end - start) ≤ 1024) }
    ensures { (take end vertices.new ≡ take start vertices.old ++ numbers from (end - start))
        × (drop end vertices.new ≡ drop end vertices.old) }
{
    for (i, v) in vertices[start..end].iter_mut().enumerate() {
        *v = (from + i) as u16;
    }
}

// Writes where they stand.
pub fn list_positions(at: &[i64], from: usize, start: usize, end: usize, positions: &mut [i64])
    requires { (start ≤ end) × (end ≤ length positions.old) × (from + (end - start) ≤ length at.now) }
    ensures { (take end positions.new ≡ take start positions.old ++ along (position_of at.now) from (end - start))
        × (drop end positions.new ≡ drop end positions.old) }
{
    for (i, z) in positions[start..end].iter_mut().enumerate() {
        *z = at[from + i];
    }
}

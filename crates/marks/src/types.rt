// A mark, and the points in it.
ghost use Rattle.std.specs.Prelude.{nat_abs, ◌≤◌};
ghost use Rattle.ints.specs.Reach.{reach};
ghost use Rattle.marks.specs.Half.{max_whole};
ghost use Rattle.marks.specs.Exact.{MadePoint};

// A point in steps.
#[derive(Clone, Copy)]
pub struct Point {
    pub x: f64,
    pub y: f64,
}

impl Point {
    // The point x half steps to the right of 0 and y steps below the top level.
    pub fn new(x: i64, y: u64) -> Self
        requires { (nat_abs x ≤ reach) × (y ≤ max_whole) }
        ensures { MadePoint x y result }
    {
        Self {
            x: (x as f64) * 0.5,
            y: y as f64,
        }
    }
}

#[derive(Clone, Copy)]
pub enum Mark {
    // Centre and half-width.
    Box(Point, f64),
    Bend(Point),
    // Upper and lower end.
    Line(Point, Point),
}

// Whether remembered numbers are each level's own, once each.
ghost use Rattle.std.specs.Prelude.{◌≡◌, length};
ghost use Rattle.plan.specs.Plan.{PlanData};
ghost use Rattle.plan_renumber.specs.Renumber.{own_numbers};
ghost use Rattle.plan_renumber.specs.inner.Own.{is_new, Markable, Marks, FewNumbers, Numbers};

use plan::data::Plan;
use plan_checks::levels::levels;

// Whether v is a vertex on level l that was not seen yet. `level` has the level of every vertex.
fn is_new(level: &[u16], seen: &[bool], l: u16, v: usize) -> bool
    requires { length seen.now ≡ length level.now }
    ensures { result ≡ is_new level.now seen.now l v }
{
    v < level.len() && level[v] == l && !seen[v]
}

// Marks each number as seen, up to the first that is no vertex of its place's level or was seen before.
fn mark(level: &[u16], numbers: &[u16], seen: &mut [bool]) -> bool
    requires { Markable level.now numbers.now seen.old }
    ensures { Marks level.now numbers.now seen.new result }
{
    for (i, n) in numbers.iter().enumerate() {
        let v = usize::from(*n);
        if !is_new(level, seen, level[i], v) {
            return false;
        }
        seen[v] = true;
    }
    true
}

// As `own_numbers`, with room for the level of every vertex and for a mark of each.
fn own_by(sizes: &[u16], numbers: &[u16], level: &mut [u16], seen: &mut [bool]) -> bool
    requires { FewNumbers sizes.now numbers.now × Markable level.old numbers.now seen.old }
    ensures { (p : PlanData) → Numbers p sizes.now numbers.now → result ≡ own_numbers p numbers.now }
{
    levels(sizes, level);
    mark(level, numbers, seen) && seen.iter().all(|b| *b)
}

// Whether these numbers are own numbers of a plan with these level sizes and as many vertices.
pub fn own_numbers(sizes: &[u16], numbers: &[u16]) -> bool
    requires { FewNumbers sizes.now numbers.now }
    ensures { (p : PlanData) → Numbers p sizes.now numbers.now → result ≡ own_numbers p numbers.now }
{
    let mut level = [0u16; Plan::MAX_VERTICES];
    let mut seen = [false; Plan::MAX_VERTICES];
    let n = numbers.len();
    own_by(sizes, numbers, &mut level[..n], &mut seen[..n])
}

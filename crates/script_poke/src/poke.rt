// "alters the stored record"
ghost use Rattle.std.specs.Prelude.{◌≡◌};
ghost use Rattle.script_poke.specs.Poked as spec;
ghost use Rattle.script_poke.specs.Poked.{altered, in32, with_stage, with_tangled, with_plan, with_limits};

use crate::put::{
    in_16, in_32, put_final, put_level, put_listed, put_pass, put_preliminary, put_remembered,
    put_segment, put_size, put_vertex, with_plan, with_stage, with_tangled,
};
use crate::types::Poked;
use script_commands::types::Poke;
use sheet::types::{Sheet, Stage};

fn put_stage(sheet: Sheet, stage: Stage) -> Poked
    ensures { result ≡ altered (with_stage sheet stage) }
{
    Poked {
        known: true,
        sheet: with_stage(sheet, stage),
    }
}

fn put_tangled(sheet: Sheet, tangled: bool) -> Poked
    ensures { result ≡ altered (with_tangled sheet tangled) }
{
    Poked {
        known: true,
        sheet: with_tangled(sheet, tangled),
    }
}

fn put_levels(sheet: Sheet, n: usize) -> Poked
    ensures { result ≡ altered (with_plan sheet (with_limits sheet.plan (in32 n) sheet.plan.gap sheet.plan.spacing)) }
{
    let mut plan = sheet.plan;
    plan.levels = in_32(n);
    Poked {
        known: true,
        sheet: with_plan(sheet, plan),
    }
}

fn put_gap(sheet: Sheet, n: usize) -> Poked
    ensures { result ≡ altered (with_plan sheet (with_limits sheet.plan sheet.plan.levels (in32 n) sheet.plan.spacing)) }
{
    let mut plan = sheet.plan;
    plan.gap = in_32(n);
    Poked {
        known: true,
        sheet: with_plan(sheet, plan),
    }
}

fn put_spacing(sheet: Sheet, n: usize) -> Poked
    ensures { result ≡ altered (with_plan sheet (with_limits sheet.plan sheet.plan.levels sheet.plan.gap (in32 n))) }
{
    let mut plan = sheet.plan;
    plan.spacing = in_32(n);
    Poked {
        known: true,
        sheet: with_plan(sheet, plan),
    }
}

// The sheet with what a poke says stored in it, if its record has the place.
pub fn poke(sheet: Sheet, poke: Poke) -> Poked
    ensures { result ≡ spec.poke poke sheet }
{
    match poke {
        Poke::Empty => put_stage(sheet, Stage::Empty),
        Poke::Loaded(v, e) => put_stage(sheet, Stage::Loaded(v, e)),
        Poke::Drawn(v, e, p) => put_stage(sheet, Stage::Drawn(v, e, p)),
        Poke::Levels(n) => put_levels(sheet, n),
        Poke::Gap(n) => put_gap(sheet, n),
        Poke::Spacing(n) => put_spacing(sheet, n),
        Poke::Size(i, n) => put_size(sheet, i, in_16(n)),
        Poke::Vertex(i, via, half) => put_vertex(sheet, i, via, in_16(half)),
        Poke::Segment(i, a, b, w) => put_segment(sheet, i, in_32(a), in_32(b), in_32(w)),
        Poke::Remembered(i, n) => put_remembered(sheet, i, in_16(n)),
        Poke::Tangled(tangled) => put_tangled(sheet, tangled),
        Poke::Preliminary(i, x) => put_preliminary(sheet, i, x),
        Poke::Final(i, x) => put_final(sheet, i, x),
        Poke::Pass(i, n) => put_pass(sheet, i, in_16(n)),
        Poke::Level(i, n) => put_level(sheet, i, in_16(n)),
        Poke::Listed(q, b, v, x) => put_listed(sheet, q, b, in_16(v), x),
    }
}

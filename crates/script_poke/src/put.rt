// A sheet with one entry of its record altered.
ghost use Rattle.std.specs.Prelude.{◌≡◌, cond, ltb, set};
ghost use Rattle.plan.specs.Limits.{max_levels, max_vertices, max_segments};
ghost use Rattle.passes.specs.Words.{max_listed};
ghost use Rattle.script_poke.specs.Poked.{altered_if, in16, in32, with_stage, with_tangled, with_plan, with_drawing, with_remembered, place_of, has_box};
ghost use Rattle.script_poke.specs.Poked.{with_size, with_vertex, with_segment, with_positions, with_placings, with_listed};

use crate::types::Poked;
use ints::{total, wide};
use plan::data::Plan;
use report::data::Drawing;
use sheet::types::{Header, Sheet, Stage};

// A number as a field holds it.
pub fn in_16(n: usize) -> u16
    ensures { result ≡ in16 n }
{
    if 65535 < n {
        return 65535;
    }
    n as u16
}

pub fn in_32(n: usize) -> u32
    ensures { result ≡ in32 n }
{
    if 4294967295 < n {
        return 4294967295;
    }
    n as u32
}

pub fn with_stage(sheet: Sheet, stage: Stage) -> Sheet
    ensures { result ≡ with_stage sheet stage }
{
    let header = sheet.header;
    let plan = sheet.plan;
    let drawing = sheet.drawing;
    let remembered = sheet.remembered;
    Sheet {
        header: Header {
            stage,
            tangled: header.tangled,
        },
        plan,
        drawing,
        remembered,
    }
}

pub fn with_tangled(sheet: Sheet, tangled: bool) -> Sheet
    ensures { result ≡ with_tangled sheet tangled }
{
    let header = sheet.header;
    let stage = header.stage;
    let plan = sheet.plan;
    let drawing = sheet.drawing;
    let remembered = sheet.remembered;
    Sheet {
        header: Header { stage, tangled },
        plan,
        drawing,
        remembered,
    }
}

pub fn with_plan(sheet: Sheet, plan: Plan) -> Sheet
    ensures { result ≡ with_plan sheet plan }
{
    let header = sheet.header;
    let drawing = sheet.drawing;
    let remembered = sheet.remembered;
    Sheet {
        header,
        plan,
        drawing,
        remembered,
    }
}

pub fn with_drawing(sheet: Sheet, drawing: Drawing) -> Sheet
    ensures { result ≡ with_drawing sheet drawing }
{
    let header = sheet.header;
    let plan = sheet.plan;
    let remembered = sheet.remembered;
    Sheet {
        header,
        plan,
        drawing,
        remembered,
    }
}

pub fn with_remembered(sheet: Sheet, remembered: [u16; Plan::MAX_VERTICES]) -> Sheet
    ensures { result ≡ with_remembered sheet remembered }
{
    let header = sheet.header;
    let plan = sheet.plan;
    let drawing = sheet.drawing;
    Sheet {
        header,
        plan,
        drawing,
        remembered,
    }
}

pub fn put_size(sheet: Sheet, i: usize, n: u16) -> Poked
    ensures { result ≡ altered_if (ltb i max_levels) (with_plan sheet (with_size sheet.plan i n)) sheet }
{
    if Plan::MAX_LEVELS <= i {
        return Poked {
            known: false,
            sheet,
        };
    }
    let mut plan = sheet.plan;
    plan.sizes[i] = n;
    Poked {
        known: true,
        sheet: with_plan(sheet, plan),
    }
}

pub fn put_vertex(sheet: Sheet, i: usize, via: bool, half: u16) -> Poked
    ensures { result ≡ altered_if (ltb i max_vertices) (with_plan sheet (with_vertex sheet.plan i via half)) sheet }
{
    if Plan::MAX_VERTICES <= i {
        return Poked {
            known: false,
            sheet,
        };
    }
    let mut plan = sheet.plan;
    plan.vias[i] = via;
    plan.halves[i] = half;
    Poked {
        known: true,
        sheet: with_plan(sheet, plan),
    }
}

pub fn put_segment(sheet: Sheet, i: usize, a: u32, b: u32, w: u32) -> Poked
    ensures { result ≡ altered_if (ltb i max_segments) (with_plan sheet (with_segment sheet.plan i a b w)) sheet }
{
    if Plan::MAX_SEGMENTS <= i {
        return Poked {
            known: false,
            sheet,
        };
    }
    let mut plan = sheet.plan;
    plan.uppers[i] = a;
    plan.lowers[i] = b;
    plan.ratings[i] = w;
    Poked {
        known: true,
        sheet: with_plan(sheet, plan),
    }
}

pub fn put_remembered(sheet: Sheet, i: usize, n: u16) -> Poked
    ensures { result ≡ altered_if (ltb i max_vertices) (with_remembered sheet (set sheet.remembered i n)) sheet }
{
    if Plan::MAX_VERTICES <= i {
        return Poked {
            known: false,
            sheet,
        };
    }
    let mut remembered = sheet.remembered;
    remembered[i] = n;
    Poked {
        known: true,
        sheet: with_remembered(sheet, remembered),
    }
}

pub fn put_preliminary(sheet: Sheet, i: usize, x: i64) -> Poked
    ensures { result ≡ altered_if (ltb i max_vertices) (with_drawing sheet (with_positions sheet.drawing (set sheet.drawing.preliminary i x) sheet.drawing.finals)) sheet }
{
    if Plan::MAX_VERTICES <= i {
        return Poked {
            known: false,
            sheet,
        };
    }
    let mut drawing = sheet.drawing;
    drawing.preliminary[i] = x;
    Poked {
        known: true,
        sheet: with_drawing(sheet, drawing),
    }
}

pub fn put_final(sheet: Sheet, i: usize, x: i64) -> Poked
    ensures { result ≡ altered_if (ltb i max_vertices) (with_drawing sheet (with_positions sheet.drawing sheet.drawing.preliminary (set sheet.drawing.finals i x))) sheet }
{
    if Plan::MAX_VERTICES <= i {
        return Poked {
            known: false,
            sheet,
        };
    }
    let mut drawing = sheet.drawing;
    drawing.finals[i] = x;
    Poked {
        known: true,
        sheet: with_drawing(sheet, drawing),
    }
}

pub fn put_pass(sheet: Sheet, i: usize, n: u16) -> Poked
    ensures { result ≡ altered_if (ltb i max_listed) (with_drawing sheet (with_placings sheet.drawing (set sheet.drawing.passes i n) sheet.drawing.levels)) sheet }
{
    if Drawing::MAX_LISTED <= i {
        return Poked {
            known: false,
            sheet,
        };
    }
    let mut drawing = sheet.drawing;
    drawing.passes[i] = n;
    Poked {
        known: true,
        sheet: with_drawing(sheet, drawing),
    }
}

pub fn put_level(sheet: Sheet, i: usize, n: u16) -> Poked
    ensures { result ≡ altered_if (ltb i max_listed) (with_drawing sheet (with_placings sheet.drawing sheet.drawing.passes (set sheet.drawing.levels i n))) sheet }
{
    if Drawing::MAX_LISTED <= i {
        return Poked {
            known: false,
            sheet,
        };
    }
    let mut drawing = sheet.drawing;
    drawing.levels[i] = n;
    Poked {
        known: true,
        sheet: with_drawing(sheet, drawing),
    }
}

// How many boxes stand before box b of placing q, or 2,048 if the record does not have it.
fn place_of(counts: [u16; Drawing::MAX_LISTED], q: usize, b: usize) -> usize
    ensures { result ≡ cond (has_box counts q b) (place_of counts q b) max_listed }
{
    if Drawing::MAX_LISTED <= q {
        return Drawing::MAX_LISTED;
    }
    if wide(counts[q]) <= b {
        return Drawing::MAX_LISTED;
    }
    let before = total(&counts[..q]);
    if Drawing::MAX_LISTED <= before {
        return Drawing::MAX_LISTED;
    }
    if Drawing::MAX_LISTED - before <= b {
        return Drawing::MAX_LISTED;
    }
    before + b
}

pub fn put_listed(sheet: Sheet, q: usize, b: usize, v: u16, x: i64) -> Poked
    ensures { result ≡ altered_if (has_box sheet.drawing.counts q b) (with_drawing sheet (with_listed sheet.drawing (place_of sheet.drawing.counts q b) v x)) sheet }
{
    let mut drawing = sheet.drawing;
    let counts = drawing.counts;
    let at = place_of(counts, q, b);
    if Drawing::MAX_LISTED <= at {
        return Poked {
            known: false,
            sheet,
        };
    }
    drawing.vertices[at] = v;
    drawing.positions[at] = x;
    Poked {
        known: true,
        sheet: with_drawing(sheet, drawing),
    }
}

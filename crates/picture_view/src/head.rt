// The first lines of a picture, written from a position of a lent buffer on. Each answers the position past what it wrote.
ghost use Rattle.text_write.specs.inner.Written.{Room, Wrote};
ghost use Rattle.picture_view.specs.View.{head_of, style};
ghost use Rattle.picture_view.specs.inner.Edges.{Ends};

use ints::{difference, minus, plus};
use picture_numbers::attributes::{put_across, put_down};
use text_write::number::put_word;

// What is shown, from edge to edge and a margin around it.
pub fn put_head(out: &mut [u8], at: usize, lo: i64, hi: i64, measure: u32, height: u64) -> usize
    requires { Ends lo hi measure height × Room (head_of lo hi measure height) out.old at }
    ensures { Wrote (head_of lo hi measure height) out.old at result out.new }
{
    let u = measure as u64;
    let left = minus(lo, u);
    let top = minus(0, u);
    let width = plus(difference(hi, lo), 2 * u);
    let a = put_across(
        out,
        at,
        b"<svg xmlns=\"http://www.w3.org/2000/svg\" version=\"1.1\" class=\"drawing\" viewBox=\"",
        left,
    );
    let b = put_across(out, a, b" ", top);
    let c = put_across(out, b, b" ", width);
    let d = put_down(out, c, b" ", height);
    put_word(out, d, b"\">\n")
}

// Colours and letters.
pub fn put_style(out: &mut [u8], at: usize) -> usize
    requires { Room style out.old at }
    ensures { Wrote style out.old at result out.new }
{
    put_word(
        out,
        at,
        b"<style>
.drawing{background:#fff;font-family:\"DejaVu Sans Mono\",Menlo,Consolas,monospace;text-anchor:middle}
.drawing .lines{stroke:#3d6b8e}
.drawing .bends{fill:#3d6b8e}
.drawing .boxes{stroke:#1c2f40;fill:#eef3f7}
.drawing text{stroke:none;fill:#101c26}
@media (prefers-color-scheme:dark){
.drawing{background:#12181e}
.drawing .lines{stroke:#7fb0d3}
.drawing .bends{fill:#7fb0d3}
.drawing .boxes{stroke:#c9d8e4;fill:#22303c}
.drawing text{fill:#eef3f7}
}
</style>
",
    )
}

// Drawings of a pool: what each page is and how full its runs are, as text or as an SVG picture.
#![tactic(auto)]

ghost use Rattle.std.specs.Prelude.{◌≡◌, true, false, ◌+◌, ◌*◌, ◌≤◌, ◌<◌, length, take};
ghost use Rattle.records.specs.Shown.{pool_of};
ghost use Rattle.records.specs.Lent.{before};
ghost use Rattle.records.specs.Calls.{leaves};
ghost use Rattle.text.specs.Text.{Appends};
ghost use Rattle.cells.specs.Cells.{no_cell};
ghost use Rattle.pagemap.specs.Drawing.{is_svg, svg_page, head_of, page_of, foot_of, pages_from};
ghost use Rattle.pagemap.specs.Drawing.{head_room, page_room, foot_room, room_for, showing, drawn_of};

use records::Records;
use refusals::SHORT_ROOM;
use text::put_filled;

// The form of a drawing.
#[derive(Clone, Copy)]
pub enum Form {
    Text,
    Svg,
}

// The answer; C reads it as it is.
#[repr(C)]
#[derive(Clone, Copy)]
pub struct Drawn {
    pub refusal: u64,
    pub length: u64,
}

// A page as SVG.
fn put_svg_page(out: &mut [u8], at: usize, g: u64, s: cells::Cell) -> usize
    requires room { at + 420 ≤ length out.old }
    requires low { g < 8192 }
    requires joined { s.joined ≤ 1 }
    requires level { s.level ≤ 10 }
    ensures text { Appends out.old out.new at result (svg_page g s) }
    ensures room { result ≤ at + 420 }
{
    let first = (g % 512 == 0) as u64;
    let x = 17 + 16 * (g % 64) - s.joined;
    let y = 26 + 22 * (g / 64) + 28 * (g / 512);
    let w = 15 + s.joined;
    let h = 2 * s.level;
    let bar = y + (20 - h);
    let title = y - 7;
    let left = x + 1;
    let foot = y + 13;
    let fill = s.fill as u64;
    put_filled(
        out,
        at,
        b"[<text x=\"17\" y=\"$\">chunk $</text>\n]\
<rect class=\"~\" x=\"$\" y=\"$\" width=\"$\" height=\"20\"/>\n\
[<rect class=\"u\" x=\"$\" y=\"$\" width=\"$\" height=\"$\"/>\n]\
[<text class=\"n\" x=\"$\" y=\"$\">$</text>\n]",
        &[
            first,
            title,
            g / 512,
            fill,
            x,
            y,
            w,
            s.level,
            x,
            bar,
            w,
            h,
            s.label,
            left,
            foot,
            s.label,
        ],
    )
}

// A page.
fn put_page(form: Form, out: &mut [u8], at: usize, g: u64, s: cells::Cell) -> usize
    requires room { at + page_room (is_svg form) ≤ length out.old }
    requires low { g < 8192 }
    requires joined { s.joined ≤ 1 }
    requires level { s.level ≤ 10 }
    ensures text { Appends out.old out.new at result (page_of (is_svg form) g s) }
    ensures room { result ≤ at + page_room (is_svg form) }
{
    match form {
        Form::Text => {
            let first = (g % 512 == 0) as u64;
            let last = (g % 64 == 63) as u64;
            let mark = s.mark as u64;
            put_filled(out, at, b"[chunk $\n]~[\n]", &[first, g / 512, mark, last])
        }
        Form::Svg => put_svg_page(out, at, g, s),
    }
}

// What stands before the pages.
fn put_head(form: Form, out: &mut [u8], c: u64) -> usize
    requires { (head_room (is_svg form) ≤ length out.old) × (c ≤ 16) }
    ensures text { Appends out.old out.new 0 result (head_of (is_svg form) c) }
    ensures room { result ≤ head_room (is_svg form) }
{
    match form {
        Form::Text => 0,
        Form::Svg => {
            let h = 204 * c + 74;
            put_filled(
                out,
                0,
                b"<svg xmlns=\"http://www.w3.org/2000/svg\" width=\"1058\" height=\"$\" viewBox=\"0 0 1058 $\">\n\
<style>text{font:13px sans-serif}.n{font:5.5px Arial,Helvetica,sans-serif}rect{shape-rendering:crispEdges}\
.p{fill:#fff}.e{fill:#555}.f{fill:#eee}.l{fill:#e69f00}.c{fill:#d6eaf8}.u{fill:#56b4e9}</style>\n\
<rect class=\"p\" width=\"100%\" height=\"100%\"/>\n",
                &[h, h],
            )
        }
    }
}

// What stands behind them.
fn put_foot(form: Form, out: &mut [u8], at: usize, c: u64, t: totals::Sums) -> usize
    requires { (at + foot_room (is_svg form) ≤ length out.old) × (c ≤ 16) }
    ensures text { Appends out.old out.new at result (foot_of (is_svg form) c t) }
    ensures room { result ≤ at + foot_room (is_svg form) }
{
    match form {
        Form::Text => put_filled(
            out,
            at,
            b"@ page 0  . free  L large run  = run goes on\n\
0-9 class run, tenths of its slots taken  X all of them\n\
live $ bytes $ free pages $\n",
            &[t.blocks, t.bytes, t.free],
        ),
        Form::Svg => {
            let y = 204 * c + 20;
            put_filled(
                out,
                at,
                b"<g transform=\"translate(17 $)\">\n\
<rect class=\"e\" width=\"15\" height=\"20\"/>\n<text x=\"22\" y=\"15\">page 0</text>\n\
<rect class=\"f\" x=\"84\" width=\"15\" height=\"20\"/>\n<text x=\"106\" y=\"15\">free</text>\n\
<rect class=\"l\" x=\"154\" width=\"47\" height=\"20\"/>\n<text class=\"n\" x=\"155\" y=\"13\">3</text>\n\
<text x=\"208\" y=\"15\">large run with its pages</text>\n\
<rect class=\"c\" x=\"388\" width=\"15\" height=\"20\"/>\n<rect class=\"u\" x=\"388\" y=\"14\" width=\"15\" height=\"6\"/>\n\
<text class=\"n\" x=\"389\" y=\"13\">24</text>\n<rect class=\"c\" x=\"404\" width=\"79\" height=\"20\"/>\n\
<rect class=\"u\" x=\"404\" y=\"6\" width=\"79\" height=\"14\"/>\n<text class=\"n\" x=\"405\" y=\"13\">320</text>\n\
<text x=\"490\" y=\"15\">class runs with their slot size, filled as their slots are taken</text>\n\
<text y=\"44\">$ live blocks, $ bytes given, $ free pages</text>\n</g>\n</svg>\n",
                &[y, t.blocks, t.bytes, t.free],
            )
        }
    }
}

// All pages, one after the other.
fn put_pages(form: Form, pool: &Records, out: &mut [u8], at: usize) -> usize
    requires { at + page_room (is_svg form) * (512 * pool.now.chunks) ≤ length out.old }
    ensures text { Appends out.old out.new at result
        (pages_from (is_svg form) (pool_of pool.now) no_cell 0 (512 * pool.now.chunks)) }
    ensures room { result ≤ at + page_room (is_svg form) * (512 * pool.now.chunks) }
{
    let mut last = cells::Cell {
        mark: 0,
        fill: 0,
        joined: 0,
        level: 0,
        label: 0,
    };
    let mut i = at;
    for g in 0..512 * pool.chunks as usize {
        last = cells::page_cell(pool, g, last);
        i = put_page(form, out, i, g as u64, last);
    }
    i
}

// The drawing of records that are sound, where there is room for it.
fn draw_sound(form: Form, pool: &Records, out: &mut [u8]) -> Drawn
    requires { room_for (is_svg form) pool.now.chunks ≤ length out.old }
    ensures drawn { leaves result out.new
        ≡ showing (is_svg form) pool.now.chunks (pool_of pool.now) out.old }
    ensures within { result.length ≤ length out.new }
{
    let i = put_head(form, out, pool.chunks);
    let j = put_pages(form, pool, out, i);
    let t = totals::totals_sound(pool);
    let k = put_foot(form, out, j, pool.chunks, t);
    Drawn {
        refusal: 0,
        length: k as u64,
    }
}

// The room that is enough for the drawing of c chunks.
fn room_for(form: Form, c: u64) -> usize
    requires { c ≤ 16 }
    ensures { result ≡ room_for (is_svg form) c }
{
    let n = 512 * c as usize;
    match form {
        Form::Text => 29 * n + 256,
        Form::Svg => 1024 + (420 * n + 1024),
    }
}

// The drawing, behind the check of the records.
fn draw(form: Form, c: u64, bits: &[u64], words: &[u32], slots: &[u64], out: &mut [u8]) -> Drawn
    ensures drawn { leaves result out.new
        ≡ drawn_of (is_svg form) c (before bits.now words.now slots.now) out.old }
    ensures within { result.length ≤ length out.new }
{
    let a = admit::admit(c, bits, words, slots);
    if a != 0 {
        return Drawn {
            refusal: a,
            length: 0,
        };
    }
    if out.len() < room_for(form, c) {
        return Drawn {
            refusal: SHORT_ROOM,
            length: 0,
        };
    }
    let pool = Records {
        chunks: c,
        bits,
        words,
        slots,
    };
    draw_sound(form, &pool, out)
}

// The map of the pool as text, at the front of the lent buffer. Refusal 1 or 2, or 7 where the buffer is too short for some pool of c
// chunks: 14,848 bytes for each chunk, and 256.
pub fn draw_text(c: u64, bits: &[u64], words: &[u32], slots: &[u64], out: &mut [u8]) -> Drawn
    ensures drawn { leaves result out.new
        ≡ drawn_of false c (before bits.now words.now slots.now) out.old }
    ensures within { (result.length ≤ length out.new) × (result.length ≡ length (take result.length out.new)) }
{
    draw(Form::Text, c, bits, words, slots, out)
}

// The same as an SVG picture; the room is 215,040 bytes for each chunk, and 2,048.
pub fn draw_svg(c: u64, bits: &[u64], words: &[u32], slots: &[u64], out: &mut [u8]) -> Drawn
    ensures drawn { leaves result out.new
        ≡ drawn_of true c (before bits.now words.now slots.now) out.old }
    ensures within { (result.length ≤ length out.new) × (result.length ≡ length (take result.length out.new)) }
{
    draw(Form::Svg, c, bits, words, slots, out)
}

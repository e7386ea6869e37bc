// Asks for bytes (RULES 6.6) of two ears, by both calls, and prints the answers. Each ear has a pool and an arena of one chunk; the arena
// says at some places whose it is, so that a part shows where it was cut.
#![tactic(auto)]

ghost use Rattle.std.specs.Prelude.{◌≡◌, ◌≤◌, length};

// An arena of one chunk, before anything is written into it.
fn blank() -> [u8; 2097152]
    ensures { 2097152 ≡ length result }
{
    [b'.'; 2097152]
}

// Writes the ear and the place into the ear's arena, at the place.
fn mark(arena: &mut [u8], ear: u64, q: usize)
    requires { (q ≤ 8192) × (2097152 ≡ length arena.old) }
{
    text::put_filled(arena, q, b"ear $ at $", &[ear, q as u64]);
}

// At the places where either ear has a block.
fn mark_blocks(arena: &mut [u8], ear: u64)
    requires { 2097152 ≡ length arena.old }
{
    for q in [4096, 4120, 8192] {
        mark(arena, ear, q);
    }
}

// A number behind its name.
fn tell(rt: &impl Print, name: &[u8], n: u64) {
    let _ = rt.write_all(name);
    let _ = print!(rt; "{n}");
}

// One question in one line: what is asked, the number, and the part's length and first bytes.
fn ask<'a>(
    rt: &impl Print,
    ear: u64,
    c: u64,
    bits: &[u64],
    words: &[u32],
    slots: &[u64],
    q: u64,
    left: &'a [u8],
    right: &'a [u8],
) {
    let r = blockbytes::bytes_refusal(ear, c, bits, words, slots, q, left, right);
    let part = blockbytes::bytes(ear, c, bits, words, slots, q, left, right);
    tell(rt, b"ear ", ear);
    tell(rt, b" chunks ", c);
    tell(rt, b" arenas ", left.len() as u64);
    tell(rt, b" ", right.len() as u64);
    tell(rt, b" place ", q);
    tell(rt, b": refusal ", r);
    tell(rt, b" length ", part.len() as u64);
    let _ = rt.write_all(b" \"");
    let n = part.len().min(16);
    let _ = rt.write_all(&part[..n]);
    let _ = rt.write_all(b"\"\n");
}

// What is asked of either ear while its records are sound.
fn ask_sound<'a>(
    rt: &impl Print,
    ear: u64,
    bits: &[u64],
    words: &[u32],
    slots: &[u64],
    left: &'a [u8],
    right: &'a [u8],
) {
    for q in [4096, 4120, 4130, 8192, 14336] {
        ask(rt, ear, 1, bits, words, slots, q, left, right);
    }
    ask(rt, ear, 2, bits, words, slots, 8192, left, right);
    ask(rt, 2, 1, bits, words, slots, 8192, left, right);
    // only the chosen arena's length is checked
    let none = &left[..0];
    ask(rt, ear, 1, bits, words, slots, 8192, left, none);
    ask(rt, ear, 1, bits, words, slots, 8192, none, right);
}

// An ear whose pool is what the log leaves; then that pool without the word of the run at page 2.
fn ask_ear<'a>(rt: &impl Print, ear: u64, log: &[u8], left: &'a [u8], right: &'a [u8]) {
    let mut bits = [0; 8];
    let mut words = [0; 512];
    let mut slots = [0; 4096];
    replay::replay(1, &mut bits, &mut words, &mut slots, log);
    ask_sound(rt, ear, &bits, &words, &slots, left, right);
    words[2] = 0;
    let _ = rt.write_all(b"page word 2 is lost\n");
    ask(rt, ear, 1, &bits, &words, &slots, 4096, left, right);
    ask(rt, ear, 2, &bits, &words, &slots, 4096, left, right);
}

fn main(rt: HostRuntime) {
    let mut left = blank();
    let mut right = blank();
    mark_blocks(&mut left, 0);
    mark_blocks(&mut right, 1);
    // start 1; reserve 24, 24, 5000; release 4096; end
    ask_ear(
        &rt,
        0,
        b"\x01\0\x01\x01\
        \x02\0\x04\0\0\0\x18\
        \x02\0\x04\0\0\0\x18\
        \x02\0\x04\0\0\x13\x88\
        \x03\0\x04\0\0\x10\0\
        \x04\0\0",
        &left,
        &right,
    );
    // start 1; reserve 24, 3000; end
    ask_ear(
        &rt,
        1,
        b"\x01\0\x01\x01\
        \x02\0\x04\0\0\0\x18\
        \x02\0\x04\0\0\x0b\xb8\
        \x04\0\0",
        &left,
        &right,
    )
}

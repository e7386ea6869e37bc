// Imports the vendor's text on standard input, and writes its log to standard output. At most 1,048,576 bytes are read;
// a read that fails counts as the end.
#![tactic(auto)]

ghost use Rattle.std.specs.Prelude.{◌≡◌, length};

// A room of N bytes. Written out in `main` itself, arrays as long as those of `main` take the prover minutes.
fn room<const N: usize>() -> [u8; N]
    ensures { N ≡ length result }
{
    [0; N]
}

fn tell(rt: &impl Eprint, what: &str) {
    let _ = eprintln!(rt; "lensember-import: {what}");
}

fn tell_line(rt: &impl Eprint, line: u64, refusal: u64) {
    let _ = eprintln!(rt; "lensember-import: line {line} refused {refusal}");
}

fn main(rt: HostRuntime) {
    // Room for the text, and for one byte more, which tells that it is too long.
    let mut text = room::<1048577>();
    // Room for its log: a line has three bytes or more, and is seven bytes of the log.
    let mut log = room::<2446677>();
    let (n, _) = streams::read_full(&mut rt.stdin(), &mut text);
    if 1048576 < n {
        tell(&rt, "the text is longer than 1048576 bytes");
        return;
    }
    let r = exchange::import(&text[..n], &mut log);
    if r.refusal != 0 {
        tell_line(&rt, r.line, r.refusal);
        return;
    }
    let k = r.length as usize;
    if rt.write_all(&log[..k]).is_err() {
        tell(&rt, "the log could not be written");
    }
}

// Exports the log on standard input, and writes the vendor's text to standard output. At most 1,048,576 bytes are
// read; a read that fails counts as the end.
#![tactic(auto)]

ghost use Rattle.std.specs.Prelude.{◌≡◌, length};

// A room of N bytes. Written out in `main` itself, arrays as long as those of `main` take the prover minutes.
fn room<const N: usize>() -> [u8; N]
    ensures { N ≡ length result }
{
    [0; N]
}

fn tell(rt: &impl Eprint, what: &str) {
    let _ = eprintln!(rt; "lensember-export: {what}");
}

fn tell_field(rt: &impl Eprint, refusal: u64, position: u64) {
    let _ = eprintln!(rt; "lensember-export: log refused {refusal} at {position}");
}

fn main(rt: HostRuntime) {
    // Room for the log, and for one byte more, which tells that it is too long.
    let mut log = room::<1048577>();
    // Room for its text: seven bytes of the log become twelve of the text or fewer.
    let mut text = room::<1797560>();
    let (n, _) = streams::read_full(&mut rt.stdin(), &mut log);
    if 1048576 < n {
        tell(&rt, "the log is longer than 1048576 bytes");
        return;
    }
    let r = exchange::export(&log[..n], &mut text);
    if r.refusal != 0 {
        tell_field(&rt, r.refusal, r.position);
        return;
    }
    let k = r.length as usize;
    if rt.write_all(&text[..k]).is_err() {
        tell(&rt, "the text could not be written");
    }
}

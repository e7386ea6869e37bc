// Replays the log on standard input and writes a map of the pool after it to standard output.
// The program painter is its twin. One function for both would take the size, the message and a closure that is lent three slices and the buffer,
// and its contract would say when that may be called: no plainer than these lines.
#![tactic(auto)]

fn main(rt: HostRuntime) {
    let mut bits = [0u64; 8];
    let mut words = [0u32; 512];
    let mut slots = [0u64; 4096];
    readlog::replay_input(&mut rt.stdin(), &rt, &mut bits, &mut words, &mut slots);
    let mut out = [0u8; 15104];
    let r = pagemap::draw_text(1, &bits, &words, &slots, &mut out);
    let n = r.length as usize;
    if rt.write_all(&out[..n]).is_err() {
        let _ = eprintln!(rt; "lensember-map: the map could not be written");
    }
}

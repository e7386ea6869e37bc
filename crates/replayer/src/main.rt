// Replays the log on standard input in a pool of one chunk, and writes its lines to standard output. The first 16,384 bytes are read; the
// rest counts as missing, and so does what stands behind a read that fails.
#![tactic(auto)]

fn main(rt: HostRuntime) {
    let mut log = [0u8; 16384];
    let (n, _) = streams::read_full(&mut rt.stdin(), &mut log);
    let mut bits = [0u64; 8];
    let mut words = [0u32; 512];
    let mut slots = [0u64; 4096];
    // twelve bytes for each byte of the log, and 60
    let mut out = [0u8; 196668];
    let r = lines::lines(1, &mut bits, &mut words, &mut slots, &log[..n], &mut out);
    let k = r.length as usize;
    if rt.write_all(&out[..k]).is_err() {
        let _ = eprintln!(rt; "lensember-replay: the lines could not be written");
    }
}

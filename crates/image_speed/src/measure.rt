// How long the check and the making take beside a copy of the same bytes.
use image::held::make::make;
use image_read::check::check;
use std::io;
use std::time::Instant;

// Prints the least, the middle and the greatest of the times of a job, in nanoseconds.
fn show(rt: &HostRuntime, job: &str, times: &mut Vec<u128>) -> io::Result<()> {
    times.sort_unstable();
    let (Some(least), Some(most)) = (times.first(), times.last()) else {
        return Ok(());
    };
    let middle = times[times.len() / 2];
    println!(rt; "  {job}: {least} {middle} {most}")
}

// Copies, checks and makes in turn, `rounds` times.
pub fn measure(rt: &HostRuntime, what: &str, bytes: &[u8], rounds: u32) -> io::Result<()> {
    let heap = rt.alloc();
    let mut copy = Vec::new(heap);
    copy.extend_from_slice(bytes)?;
    let mut copying = Vec::new(heap);
    let mut checking = Vec::new(heap);
    let mut making = Vec::new(heap);
    for _ in 0..rounds {
        let start = Instant::now(rt)?;
        copy.clear();
        copy.extend_from_slice(bytes)?;
        copying.push(start.elapsed(rt)?.as_nanos())?;
        let start = Instant::now(rt)?;
        let sound = check(&copy).is_ok();
        checking.push(start.elapsed(rt)?.as_nanos())?;
        let start = Instant::now(rt)?;
        let tree = make(heap, &copy)?;
        making.push(start.elapsed(rt)?.as_nanos())?;
        drop(tree);
        if !sound {
            println!(rt; "refused")?;
        }
    }
    let length = bytes.len();
    println!(rt; "{what}, {length} bytes, {rounds} rounds; nanoseconds, least, middle and most")?;
    show(rt, "copy", &mut copying)?;
    show(rt, "check", &mut checking)?;
    show(rt, "make", &mut making)
}

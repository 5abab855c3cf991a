//! Where two texts of lines differ.

/// The first byte in which two frames in hex differ, counted from 0.
fn first_difference(wanted: &str, found: &str) -> usize {
    let same = wanted
        .bytes()
        .zip(found.bytes())
        .take_while(|(one, other)| one == other)
        .count();
    same / 2
}

/// What is behind the last blank of a line: the frame's hex.
fn frame_of(line: &str) -> &str {
    match line.rsplit_once(' ') {
        Some((_, frame)) => frame,
        None => line,
    }
}

/// Prints the first line in which two texts differ, what each has there, and the first byte in which the frames differ.
pub(crate) fn tell(rt: &impl Print, what: &str, wanted: &str, found: &str) {
    let mut wanted = wanted.lines();
    let mut found = found.lines();
    for number in 1..u64::MAX {
        let (want, have) = (wanted.next(), found.next());
        if want.is_none() && have.is_none() {
            return;
        }
        let (want, have) = (want.unwrap_or("nothing"), have.unwrap_or("nothing"));
        if want != have {
            let byte = first_difference(frame_of(want), frame_of(have));
            let _ = println!(rt;
                "  {what} {number}, from byte {byte} on\n    wanted {want}\n    found  {have}"
            );
            return;
        }
    }
}

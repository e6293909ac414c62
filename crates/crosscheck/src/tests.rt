// Scripts with the answers that the reference in oracle/ gives to them, and the full scan's beside them.
use super::check;
use fullscan::scan;
use session::answer;
use std::process::Abort;
use std::test::Fail;

mod task;

// The three programs answer as they should: `compare` all of it, `bench` what stands before the full scan, and `scan` that.
fn check_script(rt: &(impl Abort + AllocGlobal), text: &[u8], answers: &str) -> Result<(), Fail> {
    let report = check(rt.alloc(), text)?;
    assert_eq!(rt; report.text.as_str(), answers);
    assert!(rt; report.agree);
    let walked = answer(rt.alloc(), text)?;
    let scanned = scan(rt.alloc(), text)?;
    assert_eq!(rt; walked.lines().count(), answers.lines().count());
    assert_eq!(rt; scanned.lines().count(), answers.lines().count());
    for ((line, walked), scanned) in answers.lines().zip(walked.lines()).zip(scanned.lines()) {
        let (by_walk, by_scan) = line.split_once(", full scan ").unwrap_or((line, line));
        assert_eq!(rt; walked, by_walk);
        assert_eq!(rt; scanned.strip_prefix("Q ").unwrap_or(scanned), by_scan);
    }
    Ok(())
}

#[test]
fn nine_lines(rt: HostRuntime) -> Result<(), Fail> {
    let text = b"M 0\n\
        A 0 1 10 0 0 0 0 0 0 0\n\
        A 1 1 12 0 0 0 0 0 0 0\n\
        A 2 2 600 0 0 0 0 0 0 0\n\
        A 3 2 610 0 0 0 0 0 0 0\n\
        A 4 3 14 0 0 0 0 0 0 0\n\
        R\n\
        Q 3 1 1 11 0 0 0 0 0 0 0\n\
        Q 6 1 1 11 0 0 0 0 0 0 0\n";
    check_script(
        &rt,
        text,
        "M\nA\nA\nA\nA\nA\nR\nQ 1 2 S, full scan 1\nE 12\n",
    )
}

#[test]
fn nearby_at_17_and_settled_at_16(rt: HostRuntime) -> Result<(), Fail> {
    let text = b"M 0\n\
        A 0 1 10 0 0 0 0 0 0 0\n\
        A 1 2 12 0 0 0 0 0 0 0\n\
        A 2 1 610 0 0 0 0 0 0 0\n\
        A 3 2 600 0 0 0 0 0 0 0\n\
        A 4 3 14 0 0 0 0 0 0 0\n\
        R\n\
        Q 4 17 1 11 0 0 0 0 0 0 0\n\
        Q 4 16 1 11 0 0 0 0 0 0 0\n";
    check_script(
        &rt,
        text,
        "M\nA\nA\nA\nA\nA\nR\nQ 1 2 N, full scan 2\nQ 2 3 S, full scan 2\n",
    )
}

#[test]
fn ties_of_five_samples(rt: HostRuntime) -> Result<(), Fail> {
    let text = b"M 0\n\
        A 0 1 10 0 0 0 0 0 0 0\n\
        A 1 1 12 0 0 0 0 0 0 0\n\
        A 2 2 600 0 0 0 0 0 0 0\n\
        A 3 2 610 0 0 0 0 0 0 0\n\
        A 4 3 14 0 0 0 0 0 0 0\n\
        R\n\
        Q 1 1 1 13 0 0 0 0 0 0 0\n\
        Q 2 1 1 13 0 0 0 0 0 0 0\n\
        Q 5 1 1 13 0 0 0 0 0 0 0\n";
    check_script(
        &rt,
        text,
        "M\nA\nA\nA\nA\nA\nR\nQ 1 2 C, full scan 1\nQ 1 2 S, full scan 1\nQ 1 0 S, full scan 1\n",
    )
}

#[test]
fn two_samples_by_block(rt: HostRuntime) -> Result<(), Fail> {
    let text = b"M 0\n\
        A 0 2 103 103 0 0 0 0 0 0\n\
        A 1 5 106 100 0 0 0 0 0 0\n\
        R\n\
        Q 1 1 1 100 100 0 0 0 0 0 0\n";
    check_script(&rt, text, "M\nA\nA\nR\nQ 2 1 C, full scan 2\n")
}

#[test]
fn two_samples_by_square(rt: HostRuntime) -> Result<(), Fail> {
    let text = b"M 1\n\
        A 0 2 103 103 0 0 0 0 0 0\n\
        A 1 5 106 100 0 0 0 0 0 0\n\
        R\n\
        Q 1 1 1 100 100 0 0 0 0 0 0\n";
    check_script(&rt, text, "M\nA\nA\nR\nQ 2 1 S, full scan 2\n")
}

#[test]
fn two_samples_by_peak(rt: HostRuntime) -> Result<(), Fail> {
    let text = b"M 2\n\
        A 0 2 103 103 0 0 0 0 0 0\n\
        A 1 5 106 100 0 0 0 0 0 0\n\
        R\n\
        Q 1 1 1 100 100 0 0 0 0 0 0\n";
    check_script(&rt, text, "M\nA\nA\nR\nQ 2 1 S, full scan 2\n")
}

#[test]
fn two_samples_by_damped(rt: HostRuntime) -> Result<(), Fail> {
    let text = b"M 3\n\
        A 0 2 103 103 0 0 0 0 0 0\n\
        A 1 5 106 100 0 0 0 0 0 0\n\
        R\n\
        Q 1 1 1 100 100 0 0 0 0 0 0\n";
    check_script(&rt, text, "M\nA\nA\nR\nQ 5 1 S, full scan 5\n")
}

#[test]
fn far_of_low_is_not_inside(rt: HostRuntime) -> Result<(), Fail> {
    // Slots 0 and 1 weigh alike: the lower one votes.
    let text = b"M 0\n\
        A 0 2 10 0 0 0 0 0 0 0\n\
        A 1 1 12 0 0 0 0 0 0 0\n\
        Q 1 1 1 11 0 0 0 0 0 0 0\n\
        R\n\
        Q 1 1 1 11 0 0 0 0 0 0 0\n";
    check_script(
        &rt,
        text,
        "M\nA\nA\nQ 2 1 C, full scan 2\nR\nQ 2 1 C, full scan 2\n",
    )
}

#[test]
fn near_of_high_is_not_dropped(rt: HostRuntime) -> Result<(), Fail> {
    // The second nearest weighs just what high is.
    let text = b"M 0\n\
        A 0 2 10 0 0 0 0 0 0 0\n\
        A 1 1 9 0 0 0 0 0 0 0\n\
        A 2 2 30 0 0 0 0 0 0 0\n\
        Q 2 1 1 11 0 0 0 0 0 0 0\n\
        R\n\
        Q 2 1 1 11 0 0 0 0 0 0 0\n";
    check_script(
        &rt,
        text,
        "M\nA\nA\nA\nQ 1 1 S, full scan 1\nR\nQ 1 1 S, full scan 1\n",
    )
}

#[test]
fn a_tie_does_not_settle_on_the_higher_code(rt: HostRuntime) -> Result<(), Fail> {
    // Before the leaf is opened fibre 3 has one vote for sure, and fibre 2 may get as many.
    let text = b"M 2\n\
        A 4 3 16 0 0 0 0 0 0 0\n\
        A 5 3 20 0 0 0 0 0 0 0\n\
        A 6 2 19 0 0 0 0 0 0 0\n\
        Q 2 1 1 16 0 0 0 0 0 0 0\n\
        R\n\
        Q 2 1 1 16 0 0 0 0 0 0 0\n";
    check_script(
        &rt,
        text,
        "M\nA\nA\nA\nQ 2 1 S, full scan 2\nR\nQ 2 1 S, full scan 2\n",
    )
}

#[test]
fn admitted_into_a_rim(rt: HostRuntime) -> Result<(), Fail> {
    // Slot 9 belongs to the rim round the box of the eight, and is the nearest.
    let text = b"M 0\n\
        A 0 4 700 700 700 700 700 700 700 700\n\
        A 1 4 700 700 700 700 700 700 700 700\n\
        A 2 4 700 700 700 700 700 700 700 700\n\
        A 3 4 700 700 700 700 700 700 700 700\n\
        A 4 4 700 700 700 700 700 700 700 700\n\
        A 5 4 700 700 700 700 700 700 700 700\n\
        A 6 4 700 700 700 700 700 700 700 700\n\
        A 7 4 700 700 700 700 700 700 700 700\n\
        R\n\
        A 9 5 700 700 700 700 700 700 700 701\n\
        Q 1 1 1 700 700 700 700 700 700 700 705\n\
        Q 1 1 1 700 700 700 700 700 700 700 700\n\
        R\n\
        Q 1 1 1 700 700 700 700 700 700 700 705\n\
        W 9\n\
        Q 1 1 1 700 700 700 700 700 700 700 705\n";
    check_script(
        &rt,
        text,
        "M\nA\nA\nA\nA\nA\nA\nA\nA\nR\nA\nQ 5 2 S, full scan 5\nQ 4 2 S, full scan 4\nR\nQ 5 2 S, full scan 5\nW\nQ 4 0 S, full scan 4\n",
    )
}

#[test]
fn limits(rt: HostRuntime) -> Result<(), Fail> {
    let text = b"M 0\n\
        A 255 7 1023 1023 1023 1023 1023 1023 1023 1023\n\
        A 256 7 1023 1023 1023 1023 1023 1023 1023 1023\n\
        A 0 0 0 0 0 0 0 0 0 0\n\
        A 1 1 1 0 0 0 0 0 0 0\n\
        A 2 2 2 0 0 0 0 0 0 0\n\
        A 3 3 3 0 0 0 0 0 0 0\n\
        A 4 4 4 0 0 0 0 0 0 0\n\
        A 5 5 5 0 0 0 0 0 0 0\n\
        A 6 6 6 0 0 0 0 0 0 0\n\
        A 7 7 7 0 0 0 0 0 0 0\n\
        A 8 0 8 0 0 0 0 0 0 0\n\
        A 9 1 9 0 0 0 0 0 0 0\n\
        A 10 2 10 0 0 0 0 0 0 0\n\
        A 11 3 11 0 0 0 0 0 0 0\n\
        A 12 4 12 0 0 0 0 0 0 0\n\
        A 13 5 13 0 0 0 0 0 0 0\n\
        A 14 6 14 0 0 0 0 0 0 0\n\
        A 15 7 15 0 0 0 0 0 0 0\n\
        A 16 0 16 0 0 0 0 0 0 0\n\
        A 17 1 17 0 0 0 0 0 0 0\n\
        A 18 2 18 0 0 0 0 0 0 0\n\
        A 19 3 19 0 0 0 0 0 0 0\n\
        A 20 4 20 0 0 0 0 0 0 0\n\
        A 21 5 21 0 0 0 0 0 0 0\n\
        A 22 6 22 0 0 0 0 0 0 0\n\
        A 23 7 23 0 0 0 0 0 0 0\n\
        A 24 0 24 0 0 0 0 0 0 0\n\
        A 25 1 25 0 0 0 0 0 0 0\n\
        A 26 2 26 0 0 0 0 0 0 0\n\
        A 27 3 27 0 0 0 0 0 0 0\n\
        A 28 4 28 0 0 0 0 0 0 0\n\
        A 29 5 29 0 0 0 0 0 0 0\n\
        Q 32 1 1 0 0 0 0 0 0 0 0\n\
        A 30 6 30 0 0 0 0 0 0 0\n\
        Q 32 1 1 0 0 0 0 0 0 0 0\n\
        R\n\
        Q 32 65535 1 1023 1023 1023 1023 1023 1023 1023 1023\n\
        Q 33 1 1 0 0 0 0 0 0 0 0\n";
    check_script(
        &rt,
        text,
        "M\nA\nE 9\nA\nA\nA\nA\nA\nA\nA\nA\nA\nA\nA\nA\nA\nA\nA\nA\nA\nA\nA\nA\nA\nA\nA\nA\nA\nA\nA\nA\nA\nA\nE 12\nA\nQ 0 0 S, full scan 0\nR\nQ 0 0 S, full scan 0\nE 9\n",
    )
}

// The nine lines of the example, and scripts at the limits; more are in the crate `crosscheck`, which compares programs.
use super::answer;
use std::process::Abort;
use std::test::Fail;

fn check_script(rt: &(impl Abort + AllocGlobal), text: &[u8], answers: &str) -> Result<(), Fail> {
    assert_eq!(rt; answer(rt.alloc(), text)?.as_str(), answers);
    Ok(())
}

#[test]
fn nine_lines(rt: HostRuntime) -> Result<(), Fail> {
    let text = b"M 0\n\
        A 0 1 10 0 0 0 0 0 0 0\n\
        A 1 1 12 0 0 0 0 0 0 0\n\
        A 2 2 600 0 0 0 0 0 0 0\n\
        A 3 2 610 0 0 0 0 0 0 0\n\
        A 4 3 14 0 0 0 0 0 0 0\n\
        R\n\
        Q 3 1 1 11 0 0 0 0 0 0 0\n\
        Q 6 1 1 11 0 0 0 0 0 0 0\n";
    check_script(&rt, text, "M\nA\nA\nA\nA\nA\nR\nQ 1 2 S\nE 12\n")
}

#[test]
fn no_line(rt: HostRuntime) -> Result<(), Fail> {
    check_script(&rt, b"", "E 15\n")
}

#[test]
fn no_measure(rt: HostRuntime) -> Result<(), Fail> {
    check_script(&rt, b"M 4\nR\n", "E 15\n")
}

#[test]
fn longest_script(rt: HostRuntime) -> Result<(), Fail> {
    let mut text = vec![in rt.alloc(); b' '; 65535]?;
    text.as_mut_slice()[0..4].copy_from_slice(b"M 0\n");
    check_script(&rt, &text, "M\nE 15\n")?;
    text.push(b'\n')?;
    check_script(&rt, &text, "E 15\n")
}

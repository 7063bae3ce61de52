//! Devices that fail in the middle of a script.
use std::test::Fail;
use vt_calls::Kernel;
use vt_io::memory::{BytesSink, BytesSource};
use vt_script::{RunFault, run};

const SCRIPT: &[u8] =
    b"t mkdir /d 700\nt write /d/f hi\nt read /d/f\n# a comment\nt mkdir /d\nt ls /";

const ANSWERS: &[u8] = b"1 ok\n2 ok\n3 ok hi\n5 deny 17 EEXIST E1\n6 ok d\n";

// How many bytes of the answers are those of the lines that end before this byte of the script.
const ANSWERED: [(usize, usize); 6] = [(0, 0), (15, 5), (31, 10), (43, 18), (55, 18), (66, 38)];

#[test]
fn after_a_failed_read_the_complete_lines_are_answered(rt: HostRuntime) -> Result<(), Fail> {
    for read in 1..=SCRIPT.len() {
        let mut source = BytesSource::new(SCRIPT, 1).failing_at(read);
        let mut sink = BytesSink::new(rt.alloc(), 8192);
        let outcome = run::<Kernel, _, _>(rt.alloc(), &mut source, &mut sink);
        assert_eq!(rt; outcome, Err(RunFault::Read), "read {read}");
        let ended = ANSWERED.iter().rfind(|(end, _)| *end < read);
        let answered = ended.map_or(0, |(_, answered)| *answered);
        assert_eq!(rt; sink.bytes().len(), answered, "read {read}");
        assert!(rt; ANSWERS.starts_with(sink.bytes()), "read {read}");
    }
    Ok(())
}

#[test]
fn after_a_failed_write_the_answers_have_begun(rt: HostRuntime) -> Result<(), Fail> {
    for write in 1..=ANSWERS.len() {
        let mut source = BytesSource::new(SCRIPT, 7);
        let mut sink = BytesSink::new(rt.alloc(), 1).failing_at(write);
        let outcome = run::<Kernel, _, _>(rt.alloc(), &mut source, &mut sink);
        assert_eq!(rt; outcome, Err(RunFault::Write), "write {write}");
        assert_eq!(rt; sink.bytes().len(), write - 1, "write {write}");
        assert!(rt; ANSWERS.starts_with(sink.bytes()), "write {write}");
    }
    Ok(())
}

// What each failure says.
const TEXTS: [(RunFault, &str); 3] = [
    (
        RunFault::Read,
        "the script could not be read to its end; the complete lines before that were answered",
    ),
    (
        RunFault::Write,
        "the answers could not be written; what came out is a beginning of them",
    ),
    (
        RunFault::Memory,
        "an allocation failed before the script was read",
    ),
];

#[test]
fn a_failure_says_what_was_answered(rt: HostRuntime) -> Result<(), Fail> {
    for (fault, text) in &TEXTS {
        assert_eq!(rt; fault.to_string(rt.alloc())?.as_str(), *text);
    }
    Ok(())
}

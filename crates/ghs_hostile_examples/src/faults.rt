//! What is said of faults that no input brings about.
use ghs_answers::fault::ServeFault;
use std::test::Fail;

#[test]
fn texts_of_faults(rt: HostRuntime) -> Result<(), Fail> {
    let rows = [
        (ServeFault::TooLong, "input too long", 1),
        (
            ServeFault::Stalled,
            "no event is ready and the run has not ended",
            3,
        ),
        (ServeFault::Memory, "out of memory", 4),
        (ServeFault::NoThread, "a thread could not be started", 4),
        (ServeFault::Read, "input could not be read", 5),
        (
            ServeFault::Strange,
            "the world is not the one that was given",
            6,
        ),
    ];
    for (fault, text, status) in rows {
        let said = fault.to_string(rt.alloc())?;
        assert_eq!(rt; said.as_bytes(), text.as_bytes());
        assert_eq!(rt; fault.status(), status);
    }
    Ok(())
}

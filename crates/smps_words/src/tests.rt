use crate::FileLine;
use line_core::lines;
use std::test::Fail;

#[test]
fn fields_of_a_line(rt: HostRuntime) -> Result<(), Fail> {
    let bytes = b"NAME\n X\tCOST 1";
    let found = lines(rt.alloc(), bytes)?;
    let found = found.as_slice();
    assert_eq!(rt; found.len(), 2);
    let line = FileLine {
        bytes,
        line: &found[1],
    };
    assert_eq!(rt; line.count(), 3);
    assert_eq!(rt; line.field(1), b"COST".as_slice());
    assert_eq!(rt; line.field(3), b"".as_slice());
    Ok(())
}

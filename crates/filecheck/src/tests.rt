//! The words of a report.
use house::bad::Part;
use std::test::Fail;

#[test]
fn words(rt: HostRuntime) -> Result<(), Fail> {
    let zero = Part::SecondZero.to_string(rt.alloc())?;
    assert_eq!(rt; zero.as_str(), "the second zero byte of a record");
    assert_eq!(rt; Part::SecondZero.rule(), "0");
    let end = Part::End.to_string(rt.alloc())?;
    assert_eq!(rt; end.as_str(), "the end of the file");
    assert_eq!(rt; Part::End.rule(), "where the text ends");
    Ok(())
}

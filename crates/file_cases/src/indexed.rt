//! Names around the places that are noted.
use file::house_file::HouseFile;
use house::bad::BadFile;
use std::process::Abort;
use std::test::Fail;

/// A file of 600 names of one letter, from a to z over and over.
fn many_names() -> [u8; 1216] {
    let mut bytes = [0u8; 1216];
    bytes[0] = 88;
    bytes[1] = 2;
    for (i, name) in bytes[4..1204].chunks_exact_mut(2).enumerate() {
        name.copy_from_slice(&[1, b'a' + (i % 26) as u8]);
    }
    bytes
}

fn named(rt: &impl Abort, file: &HouseFile<'_>, i: u16, letter: &str) -> Result<(), Fail> {
    let Some(name) = file.name(i) else {
        return Err(Fail::new("no name"));
    };
    assert_eq!(rt; name.as_str(), letter);
    Ok(())
}

#[test]
fn near_and_far(rt: HostRuntime) -> Result<(), Fail> {
    let bytes = many_names();
    let mut file = HouseFile::empty();
    file.read(&bytes)?;
    assert_eq!(rt; file.names(), 600);
    named(&rt, &file, 0, "a")?;
    named(&rt, &file, 255, "v")?;
    named(&rt, &file, 256, "w")?;
    named(&rt, &file, 257, "x")?;
    named(&rt, &file, 511, "r")?;
    named(&rt, &file, 512, "s")?;
    named(&rt, &file, 599, "b")?;
    assert!(rt; matches!(file.name(600), None));
    assert!(rt; matches!(file.name(65535), None));
    Ok(())
}

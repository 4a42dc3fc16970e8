//! Whole numbers and their decimal text.
use palm_base::{push_int, read_int};
use std::test::Fail;

#[test]
fn reads_whole_numbers(rt: HostRuntime) {
    let cases: [(&[u8], Option<i128>); 16] = [
        (b"0", Some(0)),
        (b"03", Some(3)),
        (b"-0", Some(0)),
        (b"-17", Some(-17)),
        (b"170141183460469231731687303715884105727", Some(i128::MAX)),
        (b"-170141183460469231731687303715884105728", Some(i128::MIN)),
        (b"170141183460469231731687303715884105728", None),
        (b"-170141183460469231731687303715884105729", None),
        (b"9999999999999999999999999999999999999999", None),
        (b"", None),
        (b"-", None),
        (b"--1", None),
        (b"+1", None),
        (b"- 5", None),
        (b"1a", None),
        (b"\xff", None),
    ];
    for (text, number) in cases {
        assert_eq!(rt; read_int(text), number);
    }
}

#[test]
fn reads_past_thousands_of_zeros(rt: HostRuntime) -> Result<(), Fail> {
    let mut text = vec![in rt.alloc(); b'0'; 5000]?;
    text.extend_from_slice(b"42")?;
    assert_eq!(rt; read_int(text.as_slice()), Some(42));
    Ok(())
}

#[test]
fn appends_decimal_text(rt: HostRuntime) -> Result<(), Fail> {
    let mut out = Vec::from_slice(rt.alloc(), b"n = ")?;
    push_int(&mut out, -1_000_000)?;
    push_int(&mut out, i128::MIN)?;
    assert_eq!(rt;
        out.as_slice(),
        b"n = -1000000-170141183460469231731687303715884105728".as_slice()
    );
    Ok(())
}

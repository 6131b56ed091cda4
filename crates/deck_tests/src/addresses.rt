use scan::{first_piece, parts};
use std::test::Fail;

fn text_is(text: Option<&[u8]>, other: &[u8]) -> bool {
    text.is_some_and(|t| t == other)
}

#[test]
fn parts_and_pieces(rt: HostRuntime) -> Result<(), Fail> {
    let p = parts(b"1,2(3:4)").ok_or("brackets")?;
    assert!(rt; p.a == b"1".as_slice());
    assert!(rt; text_is(p.index, b"2"));
    assert!(rt; text_is(p.field, b"3:4"));
    let q = parts(b"1(2,3)").ok_or("brackets")?;
    assert!(rt; q.a == b"1".as_slice());
    assert!(rt; q.index.is_none());
    assert!(rt; text_is(q.field, b"2,3"));
    assert!(rt; parts(b"1(2").is_none());
    assert!(rt; parts(b"1(2)3").is_none());
    assert!(rt; parts(b"(").is_none());
    let e = parts(b"").ok_or("brackets")?;
    assert!(rt; e.a == b"".as_slice());
    assert!(rt; e.index.is_none() && e.field.is_none());
    let w = first_piece(b"1(2),,3").ok_or("brackets")?;
    assert!(rt; w.value == b"1".as_slice());
    assert!(rt; text_is(w.field, b"2"));
    assert!(rt; text_is(w.rest, b",3"));
    let v = first_piece(b"1,").ok_or("brackets")?;
    assert!(rt; text_is(v.rest, b""));
    assert!(rt; first_piece(b"1(2,3)").is_none());
    Ok(())
}

use crate::words::word;
use std::test::Fail;
use word::{Field, Sign, Word};

fn field(code: u8) -> Result<Field, Fail> {
    match Field::try_from(code) {
        Ok(field) => Ok(field),
        Err(_) => Err(Fail::new("no field")),
    }
}

#[test]
fn codes_that_name_a_field(rt: HostRuntime) -> Result<(), Fail> {
    assert_eq!(rt; u8::from(field(0)?), 0);
    assert_eq!(rt; u8::from(field(5)?), 5);
    assert_eq!(rt; field(13)?.left, 1);
    assert_eq!(rt; field(13)?.right, 5);
    assert_eq!(rt; u8::from(field(45)?), 45);
    assert!(rt; Field::try_from(6).is_err());
    assert!(rt; Field::try_from(8).is_err());
    assert!(rt; Field::try_from(44).is_err());
    assert!(rt; Field::try_from(46).is_err());
    assert!(rt; Field::try_from(54).is_err());
    assert!(rt; Field::try_from(255).is_err());
    Ok(())
}

#[test]
fn a_field_read_goes_to_the_right_end(rt: HostRuntime) -> Result<(), Fail> {
    let w = word(Sign::Minus, [1, 2, 3, 4, 5])?;
    assert_eq!(rt; w.field(field(5)?), w);
    assert_eq!(rt; w.field(field(0)?), word(Sign::Minus, [0, 0, 0, 0, 0])?);
    assert_eq!(rt; w.field(field(45)?), word(Sign::Plus, [0, 0, 0, 0, 5])?);
    assert_eq!(rt; w.field(field(13)?), word(Sign::Plus, [1, 2, 3, 4, 5])?);
    assert_eq!(rt; w.field(field(11)?), word(Sign::Plus, [0, 0, 1, 2, 3])?);
    assert_eq!(rt; w.field(field(2)?), word(Sign::Minus, [0, 0, 0, 1, 2])?);
    Ok(())
}

#[test]
fn a_store_fills_the_field_from_the_right_end(rt: HostRuntime) -> Result<(), Fail> {
    let old = word(Sign::Minus, [1, 2, 3, 4, 5])?;
    let a = word(Sign::Plus, [6, 7, 8, 9, 0])?;
    assert_eq!(rt; old.with_field(field(5)?, a), a);
    assert_eq!(rt;
        old.with_field(field(13)?, a),
        word(Sign::Minus, [6, 7, 8, 9, 0])?
    );
    assert_eq!(rt;
        old.with_field(field(45)?, a),
        word(Sign::Minus, [1, 2, 3, 4, 0])?
    );
    assert_eq!(rt;
        old.with_field(field(18)?, a),
        word(Sign::Minus, [1, 0, 3, 4, 5])?
    );
    assert_eq!(rt;
        old.with_field(field(19)?, a),
        word(Sign::Minus, [1, 9, 0, 4, 5])?
    );
    assert_eq!(rt;
        old.with_field(field(1)?, a),
        word(Sign::Plus, [0, 2, 3, 4, 5])?
    );
    assert_eq!(rt;
        old.with_field(field(0)?, a),
        word(Sign::Plus, [1, 2, 3, 4, 5])?
    );
    Ok(())
}

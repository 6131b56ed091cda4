use crate::units::{block, contents, rack_of, standing, word};
use rack::{Rack, Request, Transfer, Unit, UnitFault, block_of, carry_out, fill};
use std::test::Fail;

#[test]
fn a_request_is_carried_out(rt: HostRuntime) -> Result<(), Fail> {
    let unit = Unit { number: 2 };
    let mut stores = rack_of(rt.alloc(), unit, contents(2, &[block(5)], 0))?;
    let mut area = [word(8); 100];
    for (transfer, told, first, position) in [
        (Transfer::Take(0), Ok(()), 5, 1),
        (Transfer::Put(0), Ok(()), 5, 2),
        (Transfer::Put(0), Err(UnitFault::NoBlock(unit, 2)), 5, 2),
        (Transfer::Shift(word(0)), Ok(()), 5, 0),
    ] {
        assert_eq!(rt;
            carry_out(&mut stores, Request { unit, transfer }, &mut area),
            told
        );
        assert_eq!(rt; area, [word(first); 100]);
        assert_eq!(rt;
            stores.ask(unit).map_or(9, |stands| stands.position),
            position
        );
    }
    assert_eq!(rt; stores.ask(unit), standing(2, 2, 0));
    Ok(())
}

#[test]
fn an_area_and_a_block_of_other_lengths(rt: HostRuntime) {
    let mut area = [word(8), word(9)];
    fill(&mut area, &[word(1), word(2), word(3)]);
    assert_eq!(rt; area, [word(1), word(2)]);
    fill(&mut area, &[word(4)]);
    assert_eq!(rt; area, [word(4), word(2)]);
    fill(&mut area, &[]);
    assert_eq!(rt; area, [word(4), word(2)]);
    assert_eq!(rt; block_of::<1>(&area), [word(4)]);
    assert_eq!(rt; block_of::<3>(&area), [word(4), word(2), word(0)]);
}

use scan::{
    address_text, alf_text, gap_filled, is_expression, is_remark, is_symbol, loc_text, name_codes,
    op_text,
};

#[test]
fn the_columns_of_a_card(rt: HostRuntime) {
    assert!(rt; is_remark(b"* HELLO"));
    assert!(rt; !is_remark(b""));
    assert!(rt; loc_text(b"LOOP       LDA  5") == b"LOOP".as_slice());
    assert!(rt; loc_text(b"AB") == b"AB".as_slice());
    assert!(rt; !gap_filled(b"LOOP       LDA  5"));
    assert!(rt; gap_filled(b"LOOP      XLDA  5"));
    assert!(rt; gap_filled(b"LOOP       LDA X5"));
    assert!(rt; op_text(b"LOOP       LDA  5") == *b"LDA ");
    assert!(rt; op_text(b"LOOP       ALF") == *b"ALF ");
    assert!(rt; alf_text(b"LOOP       ALF  AB CD EF") == *b"AB CD");
    assert!(rt; address_text(b"LOOP       LDA  5,1 GO") == b"5,1".as_slice());
    assert!(rt; address_text(b"LOOP       LDA   5,1 GO") == b"".as_slice());
    assert!(rt; address_text(b"LOOP") == b"".as_slice());
}

#[test]
fn what_is_a_symbol(rt: HostRuntime) {
    assert!(rt; is_symbol(b"A"));
    assert!(rt; is_symbol(b"1A"));
    assert!(rt; is_symbol(b"ABCDEFGHIJ"));
    assert!(rt; !is_symbol(b"ABCDEFGHIJK"));
    assert!(rt; !is_symbol(b"12"));
    assert!(rt; !is_symbol(b""));
    assert!(rt; !is_symbol(b"A B"));
    assert!(rt; name_codes(b"12").is_none());
    assert_eq!(rt;
        name_codes(b"AZ09"),
        Some([1, 29, 30, 39, 0, 0, 0, 0, 0, 0])
    );
}

#[test]
fn what_is_an_expression(rt: HostRuntime) {
    assert!(rt; is_expression(b"1"));
    assert!(rt; is_expression(b"-1+*"));
    assert!(rt; is_expression(b"***"));
    assert!(rt; !is_expression(b"**"));
    assert!(rt; !is_expression(b""));
    assert!(rt; !is_expression(b"+"));
    assert!(rt; !is_expression(b"1+"));
    assert!(rt; !is_expression(b"++1"));
    assert!(rt; is_expression(b"1//2:3"));
    assert!(rt; !is_expression(b"1///2"));
    assert!(rt; is_expression(b"1234567890"));
    assert!(rt; !is_expression(b"12345678901"));
    assert!(rt; is_expression(b"ABCDEFGHIJ"));
    assert!(rt; !is_expression(b"ABCDEFGHIJK"));
    assert!(rt; !is_expression(b"1,2"));
    assert!(rt; !is_expression(b"1+-2"));
}

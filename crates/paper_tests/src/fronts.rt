use paper::first_cards;

#[test]
fn the_first_cards_with_their_line_ends(rt: HostRuntime) {
    let text: &[u8] = b"A\n\nB\nC";
    assert_eq!(rt; first_cards(text, 0), (b"".as_slice(), text));
    assert_eq!(rt;
        first_cards(text, 1),
        (b"A\n".as_slice(), b"\nB\nC".as_slice())
    );
    assert_eq!(rt;
        first_cards(text, 2),
        (b"A\n\n".as_slice(), b"B\nC".as_slice())
    );
    assert_eq!(rt;
        first_cards(text, 3),
        (b"A\n\nB\n".as_slice(), b"C".as_slice())
    );
    assert_eq!(rt; first_cards(text, 4), (text, b"".as_slice()));
    assert_eq!(rt; first_cards(text, 200), (text, b"".as_slice()));
    assert_eq!(rt; first_cards(b"", 200), (b"".as_slice(), b"".as_slice()));
    assert_eq!(rt;
        first_cards(b"\n\n", 1),
        (b"\n".as_slice(), b"\n".as_slice())
    );
}

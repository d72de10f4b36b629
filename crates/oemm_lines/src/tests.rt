use super::{integer, unsigned};

#[test]
fn numbers(rt: HostRuntime) {
    let rows: [(&[u8], Option<u128>, Option<i64>); 13] = [
        (b"", None, None),
        (b"-", None, None),
        (b"+1", None, None),
        (b"--1", None, None),
        (b"1-", None, None),
        (b"12a", None, None),
        (b"007", Some(7), Some(7)),
        (b"-0", None, Some(0)),
        (b"-12", None, Some(-12)),
        (
            b"18446744073709551615",
            Some(u64::MAX as u128),
            Some(1 << 62),
        ),
        (b"18446744073709551616", Some(1 << 64), Some(1 << 62)),
        (
            b"85070591730234615865843651857942052865",
            Some((1 << 126) + 1),
            Some(1 << 62),
        ),
        (
            b"-1234567890123456789012345678901234567890",
            None,
            Some(-(1 << 62)),
        ),
    ];
    for (word, as_whole, as_integer) in &rows {
        assert_eq!(rt; unsigned(word), *as_whole);
        assert_eq!(rt; integer(word), *as_integer);
    }
    assert_eq!(rt;
        unsigned(b"1234567890123456789012345678901234567890"),
        Some(1 << 127)
    );
}
